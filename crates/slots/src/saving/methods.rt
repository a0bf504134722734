//! Beginning a save, going on with it, and the entry that it comes to.

ghost use Rattle.std.specs.Prelude.{◌≡◌, true, false, ◌||◌, ltb, length, if◌then◌else◌, MatchOption, nat_le, nat_lt};
ghost use Rattle.entry.specs.Entries.{entry_value};
ghost use Rattle.entry.specs.Clouds.{lists, count};
ghost use Rattle.protocol.specs.Grounds.{is_begun_value, saved_entry};
ghost use Rattle.protocol.specs.Steps.{acknowledged, save_name};
ghost use Rattle.slots.specs.Values.{saving_value, can_begin, digesting};

use super::Saving;
use crate::limits::Limits;
use digest::kind::DigestKind;
use digest::value::Digest;
use entry::clouds::CloudSet;
use entry::entry::Entry;
use entry::live::{LONGEST_VALUE, Live};
use naming::address::Address;
use naming::name::Name;
use naming::stamp::Stamp;

impl Saving {
    /// The save of a value of at most 1,024 bytes, with a stamp neither number of which is 0.
    pub fn begin<K: DigestKind>(at: Address, stamp: Stamp, value: &[u8]) -> Option<Saving>
        ensures { MatchOption result (can_begin stamp (length value.now) ≡ false) (λ x. (can_begin stamp (length value.now) ≡ true) × (saving_value x ≡ record { container = at.container; key = at.key.bytes; stamp = stamp; size = length value.now; digest = K.digested value.now; stored = 0 })) }
    {
        if stamp.sequence() < 1 || stamp.writer() < 1 || value.len() > LONGEST_VALUE {
            return None;
        }
        let digest = Digest::of::<K>(value);
        Some(Saving {
            at,
            stamp,
            size: value.len() as u16,
            digest,
            stored: CloudSet::empty(),
        })
    }

    /// Where the value is kept.
    pub fn address(&self) -> Address
        ensures { (result.container ≡ (saving_value self.now).container) × (result.key.bytes ≡ (saving_value self.now).key) }
    {
        self.at
    }

    /// How many clouds have acknowledged the value.
    pub fn count(&self) -> usize
        ensures { result ≡ count (saving_value self.now).stored }
    {
        self.stored.count()
    }

    /// The name under which the value is put.
    pub fn name(&self) -> Name
        ensures { result ≡ save_name (saving_value self.now) }
    {
        Name::new(&self.at, &self.stamp)
    }

    /// Whether this is the value that was begun. Its digest is computed only where the size is right.
    pub fn is_of<K: DigestKind>(&self, value: &[u8]) -> bool
        ensures { result ≡ is_begun_value (digesting K.digested) value.now (saving_value self.now) }
    {
        value.len() == self.size as usize && self.digest.matches::<K>(value)
    }

    /// The save with one cloud more that has acknowledged. A number that no cloud can have adds nothing.
    pub fn acknowledged(&self, cloud: usize) -> Saving
        ensures { saving_value result ≡ (if ltb cloud 7 then acknowledged (saving_value self.now) cloud else saving_value self.now) }
    {
        let mut more = *self;
        more.stored = self.stored.with(cloud);
        more
    }

    /// Whether the cloud has acknowledged the value, or more clouds have than may be unsound.
    pub fn is_done_at(&self, cloud: usize, limits: &Limits) -> bool
        ensures { result ≡ (lists (saving_value self.now).stored cloud || nat_lt limits.now.faults (count (saving_value self.now).stored)) }
    {
        self.stored.has(cloud) || self.count() > limits.faults()
    }

    /// Whether no more clouds have acknowledged the value than may be unsound.
    pub fn is_short(&self, limits: &Limits) -> bool
        ensures { result ≡ nat_le (count (saving_value self.now).stored) limits.now.faults }
    {
        self.count() <= limits.faults()
    }

    /// The entry that a commit sets; none as long as no cloud has acknowledged.
    pub fn entry(&self) -> Option<Entry>
        ensures { MatchOption result ((saving_value self.now).stored ≡ 0) (λ e. entry_value e ≡ saved_entry (saving_value self.now)) }
    {
        let live = Live::new(
            self.stored.bits(),
            self.size as usize,
            self.digest.as_bytes(),
        )?;
        Entry::saved(self.stamp, live)
    }
}
