//! Making records, and reading their parts.

ghost use Rattle.std.specs.Prelude.{◌≡◌};
ghost use Rattle.entry.specs.Entries.{entry_value};
ghost use Rattle.journal_record.specs.Records.{record_value, ValidRecord};

use super::Record;
use entry::entry::Entry;
use naming::address::Address;

impl Record {
    /// The record of this entry.
    pub fn new(at: Address, entry: Entry) -> Record
        ensures value { record_value result ≡ record { container = at.container; key = at.key.bytes; entry = entry_value entry } }
        ensures valid { ValidRecord (record_value result) }
    {
        Record { at, entry }
    }

    /// The container of the key, and the key that was written.
    pub fn at(&self) -> Address
        ensures container { result.container ≡ (record_value self.now).container }
        ensures key { result.key.bytes ≡ (record_value self.now).key }
    {
        self.at
    }

    /// What was written.
    pub fn entry(&self) -> Entry
        ensures { entry_value result ≡ (record_value self.now).entry }
    {
        self.entry
    }
}
