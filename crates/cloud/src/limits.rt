//! How long names and values can be.

/// The longest name.
pub const LONGEST_NAME: usize = 39;

/// The longest value.
pub const LONGEST_VALUE: usize = 1024;
