//! The listing of a container: its live keys, written to a buffer.
#![tactic(auto)]

mod keys;
pub mod list;
