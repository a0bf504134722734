//! A record of a journal: the last write to a key, in bytes.
#![tactic(auto)]

mod fields;
mod read;
pub mod record;
mod write;
