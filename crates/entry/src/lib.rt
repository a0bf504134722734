//! Directory entries: the last write to a key, and where its value is.
#![tactic(auto)]

pub mod clouds;
pub mod entry;
pub mod live;
