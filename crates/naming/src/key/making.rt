//! Making a key of bytes.

ghost use Rattle.std.specs.Prelude.{◌≡◌, true, false, MatchOption};
ghost use Rattle.naming.specs.Text.{printable, valid_key, visible};

use super::{Key, LONGEST};
use byte_strings::fixed::FixedBytes;

impl Key {
    /// The key of these bytes, where they are a key.
    pub fn new(bytes: &[u8]) -> Option<Key>
        ensures { MatchOption result (valid_key bytes.now ≡ false) (λ k. (valid_key bytes.now ≡ true) × (k.bytes ≡ bytes.now)) }
    {
        if bytes.is_empty() || bytes.len() > LONGEST || !is_printable(bytes) {
            return None;
        }
        let text = FixedBytes::from_slice(bytes)?;
        Some(Key { bytes: text })
    }
}

// Whether each byte may stand in a key.
fn is_printable(bytes: &[u8]) -> bool
    ensures { result ≡ printable bytes.now }
{
    bytes.iter().all(|byte| is_visible(*byte))
}

fn is_visible(byte: u8) -> bool
    ensures { result ≡ visible byte }
{
    matches!(byte, 0x21..=0x7E)
}
