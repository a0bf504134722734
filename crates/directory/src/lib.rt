//! Directories: what they mean, and the calls at one.
#![tactic(auto)]

pub mod interface;
