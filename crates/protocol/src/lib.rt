//! The protocol: what each of the eleven calls answers and does, as a definition over meanings.
#![tactic(auto)]

pub mod answers;
