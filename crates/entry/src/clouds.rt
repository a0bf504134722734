//! Sets of clouds.

ghost use Rattle.std.specs.Prelude.{◌≡◌, ◌<◌, ◌≤◌, if◌then◌else◌, IfSome, IfNone, nat_lt};
ghost use Rattle.entry.specs.Clouds.{lists, with_cloud, count};

use std::marker::Model;

// A row has at most seven clouds.
const MOST_CLOUDS: usize = 7;

const ALL_CLOUDS: u8 = 0b111_1111;

const BITS: usize = 8;

/// Some clouds of a row: one bit for each, cloud 0 lowest.
#[derive(Clone, Copy, Debug, PartialEq, Eq)]
pub struct CloudSet {
    mask: u8,
}

/// Clauses see the bits as one number.
impl Model for CloudSet {
    ghost use Rattle.std.specs.Prelude.{ℕ, ◌≤◌};

    ghost Value = { ℕ };

    ghost view = { λ s. s.mask };

    ghost invariant = { λ s. s.mask ≤ 127 };

    ghost inverse = { λ n. record { mask = n } };
}

impl CloudSet {
    /// The set without a cloud.
    pub fn empty() -> CloudSet
        ensures { result ≡ 0 }
    {
        CloudSet { mask: 0 }
    }

    /// The clouds of these bits; none where there is a bit for an eighth cloud.
    pub fn from_bits(bits: u8) -> Option<CloudSet>
        ensures found { IfSome result (λ s. (s ≡ bits) × (bits ≤ 127)) }
        ensures none { IfNone result (127 < bits) }
    {
        if bits > ALL_CLOUDS {
            return None;
        }
        Some(CloudSet { mask: bits })
    }

    /// One bit for each cloud, cloud 0 lowest.
    pub fn bits(&self) -> u8
        ensures value { result ≡ self.now }
        ensures few { self.now ≤ 127 }
    {
        self.mask
    }

    /// Whether the cloud is in the set.
    pub fn has(&self, cloud: usize) -> bool
        ensures { result ≡ lists self.now cloud }
    {
        let bits = self.bits();
        cloud < BITS && (bits >> cloud) & 1 == 1
    }

    /// The set with the cloud in it. A number that no cloud can have adds nothing.
    pub fn with(&self, cloud: usize) -> CloudSet
        ensures value { result ≡ (if nat_lt cloud 7 then with_cloud self.now cloud else self.now) }
        ensures few { result ≤ 127 }
    {
        let bits = self.bits();
        if cloud >= MOST_CLOUDS {
            return *self;
        }
        CloudSet {
            mask: bits | 1 << cloud,
        }
    }

    /// How many clouds are in the set.
    pub fn count(&self) -> usize
        ensures { result ≡ count self.now }
    {
        self.bits().count_ones() as usize
    }
}
