//! Sweeping: beginning, and sweeping a cloud.

ghost use Rattle.protocol.specs.State.{slot_at};
ghost use Rattle.protocol.specs.Calls.{sweep};
ghost use Rattle.protocol.specs.Sweeping.{Swept};
ghost use Rattle.protocol.specs.Events.{began_sweep, swept};
ghost use Rattle.protocol.specs.Steps.{sweeping_of};
ghost use Rattle.locker.specs.Held.{Stepped, SteppedAlone, Asked, swept_said};

use super::Locker;
use crate::checks::{check_cloud, valid_address};
use crate::looking::entry_at;
use digest::kind::DigestKind;
use directory::interface::Directory;
use naming::stamp::Stamp;
use refusal::Refusal;
use row::interface::Row;
use slots::doing::{Doing, Sweeping};
use slots::party::Party;
use sweeping::sweep::sweep;

impl<D: Directory, R: Row, K: DigestKind> Locker<D, R, K> {
    /// Begins to sweep the names of the key that are below its entry's stamp, and answers that stamp.
    pub fn begin_sweep(&mut self, party: u8, container: u8, key: &[u8]) -> Result<Stamp, Refusal>
        ensures { SteppedAlone D.meaning R.clouds K.digested self.old (began_sweep party container key.now result) self.new }
    {
        let party = Party::try_from(party)?;
        let at = valid_address(container, key)?;
        self.slots.check_idle(party)?;
        let stamp = entry_at(&mut self.directory, &at)?.stamp();
        self.slots
            .turn(party, Doing::Sweeping(Sweeping { at, stamp }));
        Ok(stamp)
    }

    /// Drops the names of the key's older writes that the cloud lists, and answers how many drops it acknowledged.
    pub fn sweep(&mut self, party: u8, cloud: usize) -> Result<usize, Refusal>
        ensures call { Stepped D.meaning R.clouds K.digested self.old (swept party cloud result) self.new }
        ensures row { Asked D.meaning R.clouds K.digested self.old (sweep party cloud) (Swept (λ a above place answer place' b. R.nexts a cloud above place answer place' b) (λ a name answer b. R.drops a cloud name answer b) (sweeping_of (slot_at self.old.slots party)) self.old.row self.new.row (swept_said result)) self.new }
    {
        let party = Party::try_from(party)?;
        check_cloud(cloud, &self.limits)?;
        let sweeping = self.slots.sweeping(party)?;
        let dropped = sweep(&mut self.row, cloud, &sweeping.at, &sweeping.stamp)?;
        Ok(dropped)
    }
}
