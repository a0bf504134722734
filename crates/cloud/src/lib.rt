//! Clouds: what they mean, and the calls at one.
#![tactic(auto)]

pub mod front;
pub mod interface;
pub mod laws;
pub mod limits;
