//! The faulty cloud.

use crate::script::Script;
use cloud::interface::Cloud;

pub mod calls;
mod making;

/// A cloud whose calls do what a script says, over a cloud below that does the work.
#[derive(Drop)]
pub struct FaultyCloud<C: Cloud> {
    below: C,
    script: Script,
}
