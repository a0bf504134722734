//! Names.

use byte_strings::fixed::FixedBytes;
use std::marker::Model;

mod making;
mod matching;
mod reading;

const LONGEST: usize = 39;

/// A name: up to 39 bytes.
#[derive(Clone, Copy, PartialEq, Eq, PartialOrd, Ord)]
pub struct Name {
    bytes: FixedBytes<LONGEST>,
}

/// Clauses see the bytes.
impl Model for Name {
    ghost use Rattle.std.specs.Prelude.{ℕ, List};

    ghost Value = { List ℕ };

    ghost view = { λ n. n.bytes };

    ghost inverse = { λ bs. record { bytes = bs } };
}
