//! The Locker: values under keys, with its directory on a trusted box and the values on clouds that may be unsound.
#![tactic(auto)]

mod checks;
pub mod locker;
mod looking;
