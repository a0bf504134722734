//! The table.

ghost use Rattle.std.specs.Prelude.{◌≡◌, ◌≤◌, true, vec_len, vec_capacity};
ghost use Rattle.bytemap.specs.Map.{all_different};
ghost use Rattle.directory_table.specs.Entries.{pairs};

use crate::keyed_entry::KeyedEntry;

pub mod calls;
mod making;
mod reading;

/// A directory that keeps each key in a place of its own.
// No `impl Model`: that no key stands twice and that the places are few is read off a table by the laws of directories.
#[derive(Drop)]
pub struct Table {
    entries: Vec<KeyedEntry>,
    places: usize,
    ghost distinct: { all_different (pairs entries.items) ≡ true },
    ghost used: { vec_len entries ≤ places },
    ghost reserved: { places ≤ vec_capacity entries },
    ghost some: { 1 ≤ places },
    ghost few: { places ≤ 64 },
}
