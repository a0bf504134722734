//! Digests: the interface of a digest function, a digest as it is kept, and the padding, chaining and rounds that
//! SHA-1 and SHA-256 share.
#![tactic(auto)]

mod blocks;
pub mod chain;
pub mod in_range;
pub mod kind;
pub mod rounds;
pub mod value;
pub mod words;
