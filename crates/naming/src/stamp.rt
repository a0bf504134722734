//! Stamps.

use std::marker::Model;

mod making;
mod order;
mod reading;

/// The number of a write to a key, and who wrote: a writer from 0 to 16. Stamps are ordered by the number, and then by
/// the writer.
#[derive(Clone, Copy, Debug, PartialEq, Eq, PartialOrd, Ord)]
pub struct Stamp {
    sequence: u32,
    writer: u8,
}

/// Clauses see both numbers.
impl Model for Stamp {
    ghost use Rattle.naming.specs.Stamps.{StampValue, ValidStamp};

    ghost Value = { StampValue };

    ghost view = { λ s. record { sequence = s.sequence; writer = s.writer } };

    ghost invariant = { λ s. ValidStamp (record { sequence = s.sequence; writer = s.writer }) };

    ghost inverse = { λ v. record { sequence = v.sequence; writer = v.writer } };
}
