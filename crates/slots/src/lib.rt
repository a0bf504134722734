//! The slots of the sixteen parties: what each is doing, what may be asked of it, and how it moves on.
#![tactic(auto)]

pub mod doing;
pub mod limits;
pub mod party;
pub mod saving;
pub mod sixteen;
