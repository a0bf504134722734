//! Storing records in the bytes of a journal.

ghost use Rattle.std.specs.Prelude.{◌≡◌, ◌*◌, ◌≤◌, true, length, take, drop};
ghost use Rattle.journal_record.specs.Records.{record_value};
ghost use Rattle.journal_record.specs.Layout.{longest_record};
ghost use Rattle.directory_journal.specs.Records.{all_encoded, Appended, record_of, records_of, Stored};
ghost use Rattle.directory_journal.specs.Replay.{ended};

use directory_table::keyed_entry::KeyedEntry;
use journal_record::record::Record;

// Appends the record to the first `used` bytes, or, where there is no room, closes up: the bytes are written anew, with
// one record for each of the entries. Answers where the records end; an end mark follows them, so that nothing which lay
// there before is read as a record.
pub(crate) fn store(bytes: &mut [u8], used: usize, added: &Record, entries: &[KeyedEntry]) -> usize
    requires within { used ≤ length bytes.old }
    requires room { length entries.now * longest_record ≤ length bytes.old }
    ensures { Stored bytes.old used (record_value added.now) (records_of entries.now) result bytes.new }
{
    // No `unwrap_or_else`: a proof knows nothing of bytes that a closure has written.
    let end = match append(bytes, used, added) {
        Some(end) => end,
        None => rewrite(bytes, entries),
    };
    mark_end(bytes, end);
    end
}

// Writes the record behind the first `used` bytes, where there is room, and answers where it ends.
fn append(bytes: &mut [u8], used: usize, added: &Record) -> Option<usize>
    requires { used ≤ length bytes.old }
    ensures { Appended bytes.old used (record_value added.now) result bytes.new }
{
    let len = added.write(&mut bytes[used..])?;
    Some(used + len)
}

// Writes the entries from the start, and answers where they end.
fn rewrite(bytes: &mut [u8], entries: &[KeyedEntry]) -> usize
    requires { length entries.now * longest_record ≤ length bytes.old }
    ensures records { take result bytes.new ≡ all_encoded (records_of entries.now) }
    ensures within { result ≤ length bytes.old }
    ensures size { length bytes.new ≡ length bytes.old }
{
    let mut end = 0;
    for item in entries {
        end = append(bytes, end, &to_record(item)).unwrap_or(end);
    }
    end
}

fn to_record(item: &KeyedEntry) -> Record
    ensures { record_value result ≡ record_of item.now }
{
    Record::new(item.at(), item.entry())
}

// Where there is a byte behind the records, it becomes 0.
fn mark_end(bytes: &mut [u8], end: usize)
    requires { end ≤ length bytes.old }
    ensures marked { ended (drop end bytes.new) ≡ true }
    ensures kept { take end bytes.new ≡ take end bytes.old }
    ensures size { length bytes.new ≡ length bytes.old }
{
    if end < bytes.len() {
        bytes[end] = 0;
    }
}
