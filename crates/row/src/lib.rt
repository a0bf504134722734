//! Rows of clouds: one cloud, or two rows joined, called by number.
#![tactic(auto)]

pub mod fault;
pub mod interface;
pub mod pair;
pub mod single;
