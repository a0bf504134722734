//! Making entries, and reading them.

ghost use Rattle.std.specs.Prelude.{◌≡◌, true, false, Some, None, MatchOption};
ghost use Rattle.std.specs.Option.{option_map};
ghost use Rattle.entry.specs.Entries.{EntryValue, ValidEntry, entry_value, live_value, stamp_taken};

use super::Entry;
use crate::live::Live;
use naming::stamp::Stamp;

// The entry, where neither of the stamp's numbers is 0.
fn stamped(stamp: Stamp, live: Option<Live>) -> Option<Entry>
    ensures { MatchOption result (stamp_taken stamp ≡ false) (λ e. (stamp_taken stamp ≡ true) × (entry_value e ≡ record { stamp = stamp; live = option_map live_value live })) }
{
    if stamp.sequence() < 1 || stamp.writer() < 1 {
        return None;
    }
    Some(Entry { stamp, live })
}

impl Entry {
    /// The entry of a value saved with this stamp, where neither of the stamp's numbers is 0.
    pub fn saved(stamp: Stamp, live: Live) -> Option<Entry>
        ensures { MatchOption result (stamp_taken stamp ≡ false) (λ e. (stamp_taken stamp ≡ true) × (entry_value e ≡ record { stamp = stamp; live = Some (live_value live) })) }
    {
        stamped(stamp, Some(live))
    }

    /// The entry of a key deleted with this stamp, where neither of the stamp's numbers is 0.
    pub fn deleted(stamp: Stamp) -> Option<Entry>
        ensures { MatchOption result (stamp_taken stamp ≡ false) (λ e. (stamp_taken stamp ≡ true) × (entry_value e ≡ record { stamp = stamp; live = None })) }
    {
        stamped(stamp, None)
    }

    /// The stamp of the write.
    pub fn stamp(&self) -> Stamp
        ensures { result ≡ (entry_value self.now).stamp }
    {
        self.stamp
    }

    /// The value, or none where the key was deleted.
    pub fn live(&self) -> Option<Live>
        ensures value { option_map live_value result ≡ (entry_value self.now).live }
        ensures valid { ValidEntry (entry_value self.now) }
    {
        self.live
    }
}
