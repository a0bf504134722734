//! Making the description of a value, and reading it.

ghost use Rattle.std.specs.Prelude.{◌≡◌, true, false, MatchOption};
ghost use Rattle.digest.specs.Value.{digest_bytes};
ghost use Rattle.entry.specs.Entries.{LiveValue, live_value, valid_live};
ghost use Rattle.entry.specs.Clouds.{lists};

use super::{LONGEST_VALUE, Live};
use crate::clouds::CloudSet;
use digest::value::Digest;

impl Live {
    /// A value of this size and digest on these clouds: a list of 1 to 127, at most 1,024 bytes, 20 or 32 of digest.
    pub fn new(clouds: u8, size: usize, digest: &[u8]) -> Option<Live>
        ensures { MatchOption result (valid_live (record { clouds = clouds; size = size; digest = digest.now }) ≡ false) (λ l. (live_value l ≡ record { clouds = clouds; size = size; digest = digest.now }) × (valid_live (live_value l) ≡ true)) }
    {
        if clouds == 0 || size > LONGEST_VALUE {
            return None;
        }
        Some(Live {
            clouds: CloudSet::from_bits(clouds)?,
            size: size as u16,
            digest: Digest::from_bytes(digest)?,
        })
    }

    /// The list of clouds: one bit for each, cloud 0 lowest.
    pub fn clouds(&self) -> u8
        ensures { result ≡ (live_value self.now).clouds }
    {
        self.clouds.bits()
    }

    /// Whether the cloud of this number is in the list.
    pub fn is_on(&self, cloud: usize) -> bool
        ensures { result ≡ lists (live_value self.now).clouds cloud }
    {
        self.clouds.has(cloud)
    }

    /// How many bytes the value has.
    pub fn size(&self) -> usize
        ensures { result ≡ (live_value self.now).size }
    {
        self.size as usize
    }

    /// The digest of the value.
    pub fn digest(&self) -> Digest
        ensures { digest_bytes result ≡ (live_value self.now).digest }
    {
        self.digest
    }
}
