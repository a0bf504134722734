//! A directory of 1 to 64 places that keeps its entries as a journal in bytes: a record for each commit.
#![tactic(auto)]

pub mod journal;
pub mod memory;
mod replay;
mod storing;
