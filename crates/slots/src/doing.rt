//! What a party is doing.

ghost use Rattle.std.specs.Prelude.{◌≡◌, not};
ghost use Rattle.refusal.specs.declared.Refusal.TheVariants.{SlotNotReady};
ghost use Rattle.protocol.specs.Slots.{is_saving, is_fetching, is_sweeping};
ghost use Rattle.protocol.specs.Steps.{or_refused, saving_of, fetching_of, sweeping_of};
ghost use Rattle.slots.specs.Values.{answered, when, doing_value, saving_value, fetching_value, sweeping_value};

use crate::saving::Saving;
use entry::live::Live;
use naming::address::Address;
use naming::stamp::Stamp;
use refusal::Refusal;

/// A fetch that is under way: its key, and what the key's entry said when the fetch last looked.
#[derive(Clone, Copy)]
pub struct Fetching {
    pub at: Address,
    pub stamp: Stamp,
    pub live: Live,
}

/// A sweep that is under way: its key, and the stamp below which names are dropped.
#[derive(Clone, Copy)]
pub struct Sweeping {
    pub at: Address,
    pub stamp: Stamp,
}

/// What a slot is doing.
// An enum can have no `impl Model`: clauses name what one stands for by `doing_value`.
#[derive(Clone, Copy)]
pub enum Doing {
    Idle,
    Saving(Saving),
    Fetching(Fetching),
    Sweeping(Sweeping),
}

/// A save, where that is what the slot is doing.
impl TryFrom<Doing> for Saving {
    type Error = Refusal;

    ghost try_from_gives = { λ doing r. answered saving_value r ≡ or_refused (when (not (is_saving (doing_value doing))) SlotNotReady) (saving_of (doing_value doing)) };

    fn try_from(doing: Doing) -> Result<Saving, Refusal> {
        match doing {
            Doing::Saving(saving) => Ok(saving),
            _ => Err(Refusal::SlotNotReady),
        }
    }
}

/// A fetch, where that is what the slot is doing.
impl TryFrom<Doing> for Fetching {
    type Error = Refusal;

    ghost try_from_gives = { λ doing r. answered fetching_value r ≡ or_refused (when (not (is_fetching (doing_value doing))) SlotNotReady) (fetching_of (doing_value doing)) };

    fn try_from(doing: Doing) -> Result<Fetching, Refusal> {
        match doing {
            Doing::Fetching(fetching) => Ok(fetching),
            _ => Err(Refusal::SlotNotReady),
        }
    }
}

/// A sweep, where that is what the slot is doing.
impl TryFrom<Doing> for Sweeping {
    type Error = Refusal;

    ghost try_from_gives = { λ doing r. answered sweeping_value r ≡ or_refused (when (not (is_sweeping (doing_value doing))) SlotNotReady) (sweeping_of (doing_value doing)) };

    fn try_from(doing: Doing) -> Result<Sweeping, Refusal> {
        match doing {
            Doing::Sweeping(sweeping) => Ok(sweeping),
            _ => Err(Refusal::SlotNotReady),
        }
    }
}
