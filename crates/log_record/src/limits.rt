//! How long records can be.

pub use cloud::limits::{LONGEST_NAME, LONGEST_VALUE};

/// The bytes of a record that are lengths: one for the name's, two for the value's.
pub const LENGTHS: usize = 3;

/// The longest record.
pub const LONGEST_RECORD: usize = LENGTHS + LONGEST_NAME + LONGEST_VALUE;
