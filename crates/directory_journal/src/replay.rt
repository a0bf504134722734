//! Replaying the records of a journal.

ghost use Rattle.std.specs.Prelude.{◌≡◌, ◌≤◌, length, Some, None, Ok, Err, MatchOption, MatchResult};
ghost use Rattle.directory_table.specs.Making.{table_meaning};
ghost use Rattle.directory_journal.specs.Capacity.{capacity};
ghost use Rattle.directory_journal.specs.Opening.{meaning_in};
ghost use Rattle.directory_journal.specs.Replay.{ended, replay_from, take_record};

use directory::interface::Directory;
use directory_table::table::Table;
use journal_record::record::Record;
use refusal::Refusal;

// Commits the records to the index, and answers where they end.
pub(crate) fn replay(bytes: &[u8], index: &mut Table) -> Result<usize, Refusal>
    ensures value { MatchResult result (λ used. (replay_from (table_meaning index.old) 0 0 bytes.now ≡ Ok (table_meaning index.new, used)) × (used ≤ length bytes.now)) (λ refusal. meaning_in (replay_from (table_meaning index.old) 0 0 bytes.now) ≡ Err refusal) }
    ensures places { capacity (table_meaning index.new) ≡ capacity (table_meaning index.old) }
{
    let mut at = 0;
    while !is_ended(&bytes[at..]) {
        at += replay_one(&bytes[at..], index).ok_or(Refusal::CorruptJournal { offset: at })?;
    }
    Ok(at)
}

// Whether no record follows.
fn is_ended(bytes: &[u8]) -> bool
    ensures { result ≡ ended bytes.now }
{
    matches!(bytes, [] | [0, ..])
}

// Commits the first record, and answers its length; none where it is bad.
fn replay_one(bytes: &[u8], index: &mut Table) -> Option<usize>
    ensures value { MatchOption result (take_record (table_meaning index.old) bytes.now ≡ None) (λ n. take_record (table_meaning index.old) bytes.now ≡ Some (table_meaning index.new, n)) }
    ensures places { capacity (table_meaning index.new) ≡ capacity (table_meaning index.old) }
{
    // No `?` here: of one that takes an Option of a record the prover makes no proof.
    let Some((record, len)) = Record::read(bytes) else {
        return None;
    };
    index.commit(&record.at(), &record.entry()).ok()?;
    Some(len)
}
