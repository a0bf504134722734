//! Cases of directories, whatever their kind. All of them are tests.
#![tactic(auto)]

#[cfg(test)]
mod any_directory;
