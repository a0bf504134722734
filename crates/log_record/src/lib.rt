//! The records of a log: values put under names, and names dropped, in bytes one after another.
#![tactic(auto)]

pub mod limits;
pub mod write;
