//! A cloud of up to 32 places of one size, in memory that is handed in.
#![tactic(auto)]

pub mod fixed;
pub mod place;
