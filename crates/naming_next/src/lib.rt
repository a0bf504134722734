//! The next name above given bytes, and the next key of a container.
#![tactic(auto)]

pub mod addressed;
pub mod key_bound;
pub mod next;
