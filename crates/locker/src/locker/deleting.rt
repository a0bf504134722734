//! Deleting, and leaving what is under way.

ghost use Rattle.protocol.specs.Events.{deleted, left};
ghost use Rattle.locker.specs.Held.{SteppedAlone};

use super::Locker;
use crate::checks::valid_address;
use crate::looking::{live_entry, stamp_after};
use digest::kind::DigestKind;
use directory::interface::Directory;
use entry::entry::Entry;
use naming::stamp::Stamp;
use refusal::Refusal;
use row::interface::Row;
use slots::doing::Doing;
use slots::party::Party;

impl<D: Directory, R: Row, K: DigestKind> Locker<D, R, K> {
    /// Deletes the key, which must have a value, and answers the stamp of that.
    pub fn delete(&mut self, party: u8, container: u8, key: &[u8]) -> Result<Stamp, Refusal>
        ensures { SteppedAlone D.meaning R.clouds K.digested self.old (deleted party container key.now result) self.new }
    {
        let party = Party::try_from(party)?;
        let at = valid_address(container, key)?;
        self.slots.check_idle(party)?;
        let entry = live_entry(&mut self.directory, &at)?;
        let stamp = stamp_after(entry.stamp(), party)?;
        let Some(deleted) = Entry::deleted(stamp) else {
            unreachable()
        };
        let _ = self.directory.commit(&at, &deleted);
        Ok(stamp)
    }

    /// Ends what the party has under way.
    pub fn leave(&mut self, party: u8) -> Result<(), Refusal>
        ensures { SteppedAlone D.meaning R.clouds K.digested self.old (left party result) self.new }
    {
        let party = Party::try_from(party)?;
        self.slots.check_busy(party)?;
        self.slots.turn(party, Doing::Idle);
        Ok(())
    }
}
