//! Cases of entries, refusals and lines of digests. All of them are tests.
#![tactic(auto)]

#[cfg(test)]
mod entries;
#[cfg(test)]
mod lines;
#[cfg(test)]
mod numbers;
