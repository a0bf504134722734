//! Making an entry with its key, reading it, and telling whose it is.

ghost use Rattle.std.specs.Prelude.{◌≡◌, Decides};
ghost use Rattle.entry.specs.Entries.{entry_value};
ghost use Rattle.directory.specs.Meaning.{address};
ghost use Rattle.directory_table.specs.Entries.{container_of, key_address, key_of, pair, value_of};

use crate::keyed_entry::KeyedEntry;
use entry::entry::Entry;
use naming::address::Address;

impl KeyedEntry {
    pub(crate) fn new(at: Address, entry: Entry) -> KeyedEntry
        ensures { pair result ≡ (address at.container at.key.bytes, entry_value entry) }
    {
        KeyedEntry { at, entry }
    }

    /// The container of the key, and the key.
    pub fn at(&self) -> Address
        ensures container { result.container ≡ container_of self.now }
        ensures key { result.key.bytes ≡ key_of self.now }
    {
        self.at
    }

    /// The key's entry.
    pub fn entry(&self) -> Entry
        ensures { entry_value result ≡ value_of self.now }
    {
        self.entry
    }

    // Whether it is the entry of this key.
    pub(crate) fn is_of(&self, at: &Address) -> bool
        ensures { Decides result (key_address self.now ≡ address at.now.container at.now.key.bytes) }
    {
        at.container == self.at.container && at.key.is_same(&self.at.key)
    }
}
