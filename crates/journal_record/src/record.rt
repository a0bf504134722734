//! A record.

ghost use Rattle.std.specs.Prelude.{◌≤◌};

use entry::entry::Entry;
use naming::address::Address;

mod methods;

/// How many bytes the longest record has.
pub const LONGEST_RECORD: usize = 75;

/// A write to a key of a container.
// No `impl Model`: a record is Copy, and the bytes that a clause sees of a key do not give back that they are one.
#[derive(Clone, Copy)]
pub struct Record {
    pub(crate) at: Address,
    pub(crate) entry: Entry,
    ghost fits: { at.container ≤ 255 },
}
