//! The calls at a journal.

ghost use Rattle.directory_journal.specs.Meaning.{journal_meaning};
ghost use Rattle.std.proofs.Common.{arith};
ghost use Rattle.directory_table.specs.Making.{table_entries};
ghost use Rattle.directory_table.specs.Limits.{within_limits};

use crate::journal::Journal;
use crate::storing::store;
use directory::interface::{CommitError, Directory};
use entry::entry::Entry;
use journal_record::record::Record;
use naming::address::Address;

impl Directory for Journal {
    ghost meaning = { journal_meaning };

    ghost limited = { λ s.
        let t = s.index in
        within_limits (table_entries t) t.places t.distinct (omega (arith, t.used, t.entries.ok.0)) t.few };

    fn look(&mut self, at: &Address) -> Option<Entry> {
        self.index.look(at)
    }

    fn commit(&mut self, at: &Address, entry: &Entry) -> Result<(), CommitError> {
        self.index.commit(at, entry)?;
        let record = Record::new(*at, *entry);
        self.used = store(
            self.bytes.as_mut_slice(),
            self.used,
            &record,
            self.index.entries(),
        );
        Ok(())
    }

    fn next(&mut self, container: u8, above: &[u8], place: &mut [u8; 32]) -> Option<usize> {
        self.index.next(container, above, place)
    }
}
