//! The slots of all parties.

use crate::doing::Doing;
use std::marker::Model;

mod methods;

/// Sixteen slots, that of party 1 first.
#[derive(Drop)]
pub struct Slots {
    at: [Doing; 16],
}

/// Clauses see what each slot is doing.
impl Model for Slots {
    ghost use Rattle.std.specs.Prelude.{List, map};
    ghost use Rattle.protocol.specs.Slots.{SlotValue};
    ghost use Rattle.slots.specs.Values.{doing_value};

    ghost Value = { List SlotValue };

    ghost view = { λ s. map doing_value s.at };
}
