//! Fault injection: a layer over any cloud that misbehaves after a script.
#![tactic(auto)]

pub mod fault;
pub mod faulty;
mod script;
