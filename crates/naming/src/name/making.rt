//! Making names.

ghost use Rattle.std.specs.Prelude.{◌≡◌, ◌<◌, ◌≤◌, length, MatchOption};
ghost use Rattle.naming.specs.Limits.{longest_name};
ghost use Rattle.naming.specs.Names.{stamp_bytes, name_of, NamesAreDistinct, NamesKeepTheOrderOfStamps};

use super::Name;
use crate::address::Address;
use crate::stamp::Stamp;
use byte_strings::fixed::FixedBytes;

const SEPARATOR: u8 = 0x7C;

impl Name {
    /// The name of the value at this address, as of the stamp.
    pub fn new(at: &Address, stamp: &Stamp) -> Name
        ensures value { result ≡ name_of at.now.container at.now.key.bytes stamp.now }
        ensures distinct { NamesAreDistinct }
        ensures ordered { NamesKeepTheOrderOfStamps }
    {
        let mut bytes = FixedBytes::new();
        bytes.append(&[at.container]).unwrap();
        bytes.append(at.key.as_bytes()).unwrap();
        bytes.append(&[SEPARATOR]).unwrap();
        bytes.append(&stamp_bytes(stamp)).unwrap();
        Name { bytes }
    }

    /// The name of these bytes, where there is room for them.
    pub fn from_bytes(bytes: &[u8]) -> Option<Name>
        ensures { MatchOption result (longest_name < length bytes.now) (λ n. (length bytes.now ≤ longest_name) × (n ≡ bytes.now)) }
    {
        let bytes = FixedBytes::from_slice(bytes)?;
        Some(Name { bytes })
    }
}

// The sequence, highest byte first, and the writer.
fn stamp_bytes(stamp: &Stamp) -> [u8; 5]
    ensures { result ≡ stamp_bytes stamp.now }
{
    let [a, b, c, d] = stamp.sequence().to_be_bytes();
    [a, b, c, d, stamp.writer()]
}
