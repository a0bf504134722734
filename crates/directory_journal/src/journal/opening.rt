//! Opening a journal, lending its bytes, and closing it.

ghost use Rattle.std.specs.Prelude.{◌≡◌, ◌+◌, ◌*◌, ◌≤◌, length, take, Ok, vec_len, vec_capacity};
ghost use Rattle.directory_table.specs.Making.{table_meaning};
ghost use Rattle.journal_record.specs.Layout.{longest_record};
ghost use Rattle.directory_journal.specs.Capacity.{capacity};
ghost use Rattle.directory_journal.specs.Replay.{empty_directory, replay};
ghost use Rattle.directory_journal.specs.Meaning.{journal_bytes, journal_meaning, journal_places};
ghost use Rattle.directory_journal.specs.Laws.{JournalLaws};
ghost use Rattle.directory_journal.specs.Opening.{Opens, OpensWith, opened};
ghost use Rattle.directory_journal.specs.Survival.{CommitsSurvive};

use crate::journal::Journal;
use crate::memory::JournalMemory;
use crate::replay::replay;
use directory_table::table::Table;
use journal_record::record::LONGEST_RECORD;
use refusal::{Refusal, Rejected};

impl Journal {
    /// The journal in these bytes, whatever they are. All of them are used, also where they are more than the places
    /// need.
    pub fn open(memory: JournalMemory, places: usize) -> Result<Journal, Rejected<JournalMemory>>
        ensures value { Opens memory places result }
        ensures laws { JournalLaws }
    {
        // A record for each place, and one more.
        if memory.bytes.len() / LONGEST_RECORD <= places {
            return Err(Rejected {
                refusal: Refusal::UnsupportedStorage,
                given: memory,
            });
        }
        let JournalMemory { bytes, index } = memory;
        // No `map_err`: the bytes go into the journal or back.
        match Table::new(index, places) {
            Err(rejected) => Err(Rejected {
                refusal: rejected.refusal,
                given: JournalMemory {
                    bytes,
                    index: rejected.given,
                },
            }),
            Ok(index) => open_with(bytes, index),
        }
    }

    /// All bytes of the journal: opened again, they mean the same.
    pub fn bytes(&self) -> &[u8]
        ensures value { result.now ≡ journal_bytes self.now }
        ensures survive { CommitsSurvive }
    {
        self.bytes.as_slice()
    }

    /// The records alone: the bytes before the end mark, or all where there is none.
    pub fn records(&self) -> &[u8]
        ensures front { result.now ≡ take (length result.now) (journal_bytes self.now) }
        ensures end { replay (journal_places self.now) (journal_bytes self.now) ≡ Ok (journal_meaning self.now, length result.now) }
    {
        &self.bytes.as_slice()[..self.used]
    }

    /// Gives up the journal for its memory: opened again, that means the same.
    pub fn close(self) -> JournalMemory
        ensures bytes { result.bytes.items ≡ journal_bytes self }
        ensures again { opened (journal_places self) (vec_capacity result.index) result.bytes.items ≡ Ok (journal_meaning self) }
        ensures survive { CommitsSurvive }
    {
        JournalMemory {
            bytes: self.bytes,
            index: self.index.into_memory(),
        }
    }
}

// The journal in the bytes, with an empty index of as many places.
fn open_with(bytes: Vec<u8>, mut index: Table) -> Result<Journal, Rejected<JournalMemory>>
    requires empty { table_meaning index ≡ empty_directory (capacity (table_meaning index)) }
    requires room { (capacity (table_meaning index) + 1) * longest_record ≤ vec_len bytes }
    ensures { OpensWith bytes (capacity (table_meaning index)) result }
{
    // No `map_err`: the memory goes into the journal or back.
    match replay(bytes.as_slice(), &mut index) {
        Ok(used) => Ok(Journal { bytes, used, index }),
        Err(refusal) => Err(Rejected {
            refusal,
            given: JournalMemory {
                bytes,
                index: index.into_memory(),
            },
        }),
    }
}
