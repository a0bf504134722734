//! Saving: beginning, storing and committing.

ghost use Rattle.protocol.specs.State.{slot_at};
ghost use Rattle.protocol.specs.Calls.{store};
ghost use Rattle.protocol.specs.Events.{began_save, stored, committed};
ghost use Rattle.protocol.specs.Steps.{save_name, saving_of};
ghost use Rattle.locker.specs.Held.{Stepped, SteppedAlone, Asked, said};

use super::Locker;
use crate::checks::{check_cloud, check_value, valid_address};
use crate::looking::{commit_entry, next_stamp};
use digest::kind::DigestKind;
use directory::interface::Directory;
use naming::stamp::Stamp;
use protocol::answers::CommitOutcome;
use refusal::Refusal;
use row::interface::Row;
use slots::doing::Doing;
use slots::party::Party;
use slots::saving::Saving;
use trying::put_at;

impl<D: Directory, R: Row, K: DigestKind> Locker<D, R, K> {
    /// Begins to save a value under the key, and answers the stamp of the write.
    pub fn begin_save(
        &mut self,
        party: u8,
        container: u8,
        key: &[u8],
        value: &[u8],
    ) -> Result<Stamp, Refusal>
        ensures { SteppedAlone D.meaning R.clouds K.digested self.old (began_save party container key.now value.now result) self.new }
    {
        let party = Party::try_from(party)?;
        let at = valid_address(container, key)?;
        check_value(value)?;
        self.slots.check_idle(party)?;
        let stamp = next_stamp(&mut self.directory, &at, party)?;
        let Some(saving) = Saving::begin::<K>(at, stamp, value) else {
            unreachable()
        };
        self.slots.turn(party, Doing::Saving(saving));
        Ok(stamp)
    }

    /// Puts the value that was begun at a cloud, and answers how many clouds have acknowledged it.
    pub fn store(&mut self, party: u8, cloud: usize, value: &[u8]) -> Result<usize, Refusal>
        ensures call { Stepped D.meaning R.clouds K.digested self.old (stored party cloud value.now result) self.new }
        ensures row { Asked D.meaning R.clouds K.digested self.old (store party cloud value.now) (R.puts self.old.row cloud (save_name (saving_of (slot_at self.old.slots party))) value.now (said result) self.new.row) self.new }
    {
        let party = Party::try_from(party)?;
        check_value(value)?;
        check_cloud(cloud, &self.limits)?;
        let saving = self.slots.to_store::<K>(party, cloud, value, &self.limits)?;
        put_at(&mut self.row, cloud, &saving, value)?;
        let saving = saving.acknowledged(cloud);
        self.slots.turn(party, Doing::Saving(saving));
        Ok(saving.count())
    }

    /// Sets the key's entry to the value that was saved, once more clouds have it than may be unsound.
    pub fn commit(&mut self, party: u8) -> Result<CommitOutcome, Refusal>
        ensures { SteppedAlone D.meaning R.clouds K.digested self.old (committed party result) self.new }
    {
        let party = Party::try_from(party)?;
        let saving = self.slots.to_commit(party, &self.limits)?;
        let entry = saving.entry().ok_or(Refusal::TooFewStored)?;
        let outcome = commit_entry(&mut self.directory, &saving.address(), &entry)?;
        self.slots.turn(party, Doing::Idle);
        Ok(outcome)
    }
}
