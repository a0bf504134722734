//! Entries together with their keys.

ghost use Rattle.std.specs.Prelude.{◌≤◌};

use entry::entry::Entry;
use naming::address::Address;

mod methods;
mod order;

/// The entry of a key: what one place of a table holds.
// No `impl Model`: that the key and the entry keep their limits is read off an entry by what is proved of tables.
#[derive(Clone, Copy)]
pub struct KeyedEntry {
    pub(crate) at: Address,
    pub(crate) entry: Entry,
    // The type of the container alone does not tell a proof about a Vec of these.
    ghost byte: { at.container ≤ 255 },
}
