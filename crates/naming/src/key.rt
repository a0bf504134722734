//! Keys.

ghost use Rattle.std.specs.Prelude.{◌≡◌, true};
ghost use Rattle.naming.specs.Text.{valid_key};

use byte_strings::fixed::FixedBytes;

mod making;
mod reading;

const LONGEST: usize = 32;

/// A key: 1 to 32 printable bytes.
// No `impl Model`: that the bytes are a key is read off a key by what is proved of tables and records that hold some.
#[derive(Clone, Copy, PartialEq, Eq, PartialOrd, Ord)]
pub struct Key {
    bytes: FixedBytes<LONGEST>,
    ghost valid: { valid_key bytes ≡ true },
}
