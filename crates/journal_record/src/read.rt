//! Reading a record.

ghost use Rattle.std.specs.Prelude.{◌≡◌, true, false, MatchOption};
ghost use Rattle.std.specs.Option.{option_map};
ghost use Rattle.journal_record.specs.Records.{record_value};
ghost use Rattle.journal_record.specs.Laws.{OnlyRecordsAreRead};
ghost use Rattle.journal_record.specs.Parse.{first_record, fields_of, in_limits, record_read};

use crate::fields::{Fields, take_fields};
use crate::record::Record;
use entry::entry::Entry;
use entry::live::Live;
use naming::address::Address;
use naming::key::Key;
use naming::stamp::Stamp;

impl Record {
    /// The record at the front of the bytes, and how many of them it takes up.
    pub fn read(bytes: &[u8]) -> Option<(Record, usize)>
        ensures value { option_map record_read result ≡ first_record bytes.now }
        ensures only { OnlyRecordsAreRead }
    {
        let ([map, len], fields) = bytes.split_first_chunk::<2>()?;
        let (fields, rest) = take_fields(fields, *map, *len)?;
        let record = record_of(fields)?;
        Some((record, bytes.len() - rest.len()))
    }
}

// The record of these fields, where they are in their limits.
fn record_of(fields: Fields<'_>) -> Option<Record>
    ensures { MatchOption result (in_limits (fields_of fields.entry) ≡ false) (λ x. (in_limits (fields_of fields.entry) ≡ true) × (record_value x ≡ fields_of fields.entry)) }
{
    let key = Key::new(fields.key)?;
    let stamp = Stamp::new(fields.sequence, fields.writer)?;
    let entry = match fields.live {
        None => Entry::deleted(stamp)?,
        Some(live) => Entry::saved(
            stamp,
            Live::new(live.clouds, live.size as usize, live.digest)?,
        )?,
    };
    let at = Address {
        container: fields.container,
        key,
    };
    Some(Record::new(at, entry))
}
