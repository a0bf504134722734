//! Keys, their addresses, stamps, and the names under which values are stored.
#![tactic(auto)]

pub mod address;
pub mod key;
pub mod name;
pub mod stamp;
