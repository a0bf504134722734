//! What a call does with the one slot of its party.

ghost use Rattle.std.specs.Prelude.{◌≡◌, ◌-◌, not, replicate, slice_set};
ghost use Rattle.refusal.specs.declared.Refusal.TheVariants.{SlotBusy, SlotNotReady};
ghost use Rattle.protocol.specs.Slots.{idle, is_idle, is_saving, is_fetching, is_sweeping, of_saving};
ghost use Rattle.protocol.specs.State.{slot_at};
ghost use Rattle.protocol.specs.Grounds.{is_begun_value};
ghost use Rattle.protocol.specs.Steps.{or_refused, saving_of, fetching_of, sweeping_of};
ghost use Rattle.slots.specs.Values.{answered, when, setting_of, doing_value, saving_value, fetching_value, sweeping_value, digesting};
ghost use Rattle.slots.specs.Grounds.{store_ground, commit_ground, try_ground};

use super::Slots;
use crate::doing::{Doing, Fetching, Sweeping};
use crate::limits::Limits;
use crate::party::Party;
use crate::saving::Saving;
use digest::kind::DigestKind;
use refusal::Refusal;

impl Slots {
    /// Sixteen slots, all idle.
    pub fn idle() -> Slots
        ensures { result ≡ replicate 16 idle }
    {
        Slots {
            at: [Doing::Idle; 16],
        }
    }

    fn doing(&self, party: Party) -> Doing
        ensures { doing_value result ≡ slot_at self.now party }
    {
        self.at[party.index()]
    }

    fn is_idle(&self, party: Party) -> bool
        ensures { result ≡ is_idle (slot_at self.now party) }
    {
        matches!(self.doing(party), Doing::Idle)
    }

    /// Whether the party's slot is idle, as a call that begins something needs it.
    pub fn check_idle(&self, party: Party) -> Result<(), Refusal>
        ensures { result ≡ or_refused (when (not (is_idle (slot_at self.now party))) SlotBusy) tt }
    {
        if self.is_idle(party) {
            Ok(())
        } else {
            Err(Refusal::SlotBusy)
        }
    }

    /// Whether the party has something under way that it can leave.
    pub fn check_busy(&self, party: Party) -> Result<(), Refusal>
        ensures { result ≡ or_refused (when (is_idle (slot_at self.now party)) SlotNotReady) tt }
    {
        if self.is_idle(party) {
            Err(Refusal::SlotNotReady)
        } else {
            Ok(())
        }
    }

    /// Whether this is the value of the party's save.
    pub fn is_begun<K: DigestKind>(&self, party: Party, value: &[u8]) -> bool
        ensures { result ≡ of_saving (slot_at self.now party) (is_begun_value (digesting K.digested) value.now) }
    {
        match self.doing(party) {
            Doing::Saving(saving) => saving.is_of::<K>(value),
            _ => false,
        }
    }

    // Not one function of the wanted type: its clause could only say that some `Doing` at the slot was converted.

    /// The party's save.
    pub fn saving(&self, party: Party) -> Result<Saving, Refusal>
        ensures { answered saving_value result ≡ or_refused (when (not (is_saving (slot_at self.now party))) SlotNotReady) (saving_of (slot_at self.now party)) }
    {
        Saving::try_from(self.doing(party))
    }

    /// The party's fetch.
    pub fn fetching(&self, party: Party) -> Result<Fetching, Refusal>
        ensures { answered fetching_value result ≡ or_refused (when (not (is_fetching (slot_at self.now party))) SlotNotReady) (fetching_of (slot_at self.now party)) }
    {
        Fetching::try_from(self.doing(party))
    }

    /// The party's sweep.
    pub fn sweeping(&self, party: Party) -> Result<Sweeping, Refusal>
        ensures { answered sweeping_value result ≡ or_refused (when (not (is_sweeping (slot_at self.now party))) SlotNotReady) (sweeping_of (slot_at self.now party)) }
    {
        Sweeping::try_from(self.doing(party))
    }

    /// The party's save, where the value is that of the save and is still to be stored at the cloud.
    pub fn to_store<K: DigestKind>(
        &self,
        party: Party,
        cloud: usize,
        value: &[u8],
        limits: &Limits,
    ) -> Result<Saving, Refusal>
        ensures { answered saving_value result ≡ or_refused (store_ground (setting_of K.digested limits.now) (slot_at self.now party) cloud value.now) (saving_of (slot_at self.now party)) }
    {
        let saving = self.saving(party)?;
        if !saving.is_of::<K>(value) {
            return Err(Refusal::DifferentValue);
        }
        if saving.is_done_at(cloud, limits) {
            return Err(Refusal::AlreadyStored);
        }
        Ok(saving)
    }

    /// The party's save, where more clouds have acknowledged it than may be unsound.
    pub fn to_commit(&self, party: Party, limits: &Limits) -> Result<Saving, Refusal>
        ensures { answered saving_value result ≡ or_refused (commit_ground limits.now.faults (slot_at self.now party)) (saving_of (slot_at self.now party)) }
    {
        let saving = self.saving(party)?;
        if saving.is_short(limits) {
            return Err(Refusal::TooFewStored);
        }
        Ok(saving)
    }

    /// The party's fetch, where its entry lists the cloud.
    pub fn to_try(&self, party: Party, cloud: usize) -> Result<Fetching, Refusal>
        ensures { answered fetching_value result ≡ or_refused (try_ground (slot_at self.now party) cloud) (fetching_of (slot_at self.now party)) }
    {
        let fetching = self.fetching(party)?;
        if !fetching.live.is_on(cloud) {
            return Err(Refusal::CloudNotListed);
        }
        Ok(fetching)
    }

    /// The party's slot goes over to this; the other fifteen stay.
    pub fn turn(&mut self, party: Party, doing: Doing)
        ensures { self.new ≡ slice_set self.old (party - 1) (doing_value doing) }
    {
        self.at[party.index()] = doing;
    }
}
