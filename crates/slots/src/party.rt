//! Parties.

use std::marker::Model;

mod methods;

/// One of the sixteen parties, which are numbered from 1.
#[derive(Clone, Copy)]
pub struct Party {
    number: u8,
}

/// Clauses see the number.
impl Model for Party {
    ghost use Rattle.std.specs.Prelude.{ℕ, ◌≤◌};

    ghost Value = { ℕ };

    ghost view = { λ p. p.number };

    ghost invariant = { λ p. (1 ≤ p.number) × (p.number ≤ 16) };

    ghost inverse = { λ n. record { number = n } };
}
