//! Fetching: beginning, trying a cloud and looking again.

ghost use Rattle.std.specs.Prelude.{◌≡◌, take};
ghost use Rattle.protocol.specs.State.{slot_at};
ghost use Rattle.protocol.specs.Calls.{try_cloud};
ghost use Rattle.protocol.specs.Events.{began_fetch, tried, looked_again};
ghost use Rattle.protocol.specs.Steps.{fetch_name, fetching_of};
ghost use Rattle.slots.specs.Values.{fetching_value};
ghost use Rattle.trying.specs.Tried.{Tried};
ghost use Rattle.locker.specs.Held.{Stepped, SteppedAlone, Asked};

use super::Locker;
use crate::checks::{check_cloud, valid_address};
use crate::looking::fetch_of;
use digest::kind::DigestKind;
use directory::interface::Directory;
use protocol::answers::Found;
use refusal::Refusal;
use row::interface::Row;
use slots::doing::{Doing, Fetching};
use slots::party::Party;
use trying::try_at;

fn found(fetching: &Fetching) -> Found
    ensures { let x = fetching_value fetching.now in result ≡ record { stamp = x.stamp; size = x.live.size } }
{
    Found {
        stamp: fetching.stamp,
        size: fetching.live.size(),
    }
}

impl<D: Directory, R: Row, K: DigestKind> Locker<D, R, K> {
    /// Begins to fetch the value of the key, and answers its stamp and size.
    pub fn begin_fetch(&mut self, party: u8, container: u8, key: &[u8]) -> Result<Found, Refusal>
        ensures { SteppedAlone D.meaning R.clouds K.digested self.old (began_fetch party container key.now result) self.new }
    {
        let party = Party::try_from(party)?;
        let at = valid_address(container, key)?;
        self.slots.check_idle(party)?;
        let fetching = fetch_of(&mut self.directory, at).ok_or(Refusal::NoEntry)?;
        self.slots.turn(party, Doing::Fetching(fetching));
        Ok(found(&fetching))
    }

    /// Tries a cloud for the value, into the front of the buffer, and answers its size. The fetch is over once the
    /// value that was saved stands there; until then there are zeros.
    pub fn try_cloud(
        &mut self,
        party: u8,
        cloud: usize,
        buffer: &mut [u8],
    ) -> Result<usize, Refusal>
        ensures call { Stepped D.meaning R.clouds K.digested self.old (tried party cloud buffer.old buffer.new result) self.new }
        ensures row { let x = fetching_of (slot_at self.old.slots party) in Asked D.meaning R.clouds K.digested self.old (try_cloud party cloud buffer.old) (Tried (λ answer got. R.gets self.old.row cloud (fetch_name x) (take x.live.size buffer.old) answer got self.new.row) K.digested cloud x buffer.old buffer.new result) self.new }
    {
        let party = Party::try_from(party)?;
        check_cloud(cloud, &self.limits)?;
        let fetching = self.slots.to_try(party, cloud)?;
        let size = try_at::<R, K>(&mut self.row, cloud, &fetching, buffer)?;
        self.slots.turn(party, Doing::Idle);
        Ok(size)
    }

    /// Goes on with the fetch by the key's entry of now. A fetch whose key has no value any more is over.
    pub fn look_again(&mut self, party: u8) -> Result<Found, Refusal>
        ensures { SteppedAlone D.meaning R.clouds K.digested self.old (looked_again party result) self.new }
    {
        let party = Party::try_from(party)?;
        let fetching = self.slots.fetching(party)?;
        let Some(fetching) = fetch_of(&mut self.directory, fetching.at) else {
            self.slots.turn(party, Doing::Idle);
            return Err(Refusal::NoEntry);
        };
        self.slots.turn(party, Doing::Fetching(fetching));
        Ok(found(&fetching))
    }
}
