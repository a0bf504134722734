//! Byte strings: their order, the smallest element above a bound, and byte strings kept in place.
#![tactic(auto)]

pub mod compare;
pub mod fixed;
pub mod named;
pub mod successor;
