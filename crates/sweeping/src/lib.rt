//! The sweep of one cloud of a row: names of older writes of one key are dropped.
#![tactic(auto)]

pub mod laws;
pub mod sweep;
