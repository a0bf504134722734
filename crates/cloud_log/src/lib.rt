//! A cloud that keeps its names and values as a log in bytes.
#![tactic(auto)]

mod closing;
pub mod entry;
mod index;
pub mod log_cloud;
pub mod memory;
