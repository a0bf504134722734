//! Tests of the digests at many values: the standard's examples, and what other tools give.
#![tactic(auto)]

mod pattern;
mod sha0;
#[cfg(test)]
mod tests;
