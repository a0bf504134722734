//! An entry of the index.

ghost use Rattle.std.specs.Prelude.{◌≡◌, ◌≤◌, length};
ghost use Rattle.cloud.specs.Meaning.{longest_name, longest_value};

use byte_strings::fixed::FixedBytes;
use byte_strings::named::Named;
use cloud::limits::LONGEST_NAME;
use log_record::limits::LENGTHS;

/// Where the last record of a held name lies: the record begins at the offset, and ends with the value.
#[derive(Clone, Copy)]
pub struct Entry {
    pub(crate) name: FixedBytes<LONGEST_NAME>,
    pub(crate) offset: usize,
    pub(crate) size: usize,
    ghost short: { length name ≤ longest_name },
    ghost small: { size ≤ longest_value },
}

impl Entry {
    ghost use Rattle.cloud_log.specs.Index.{record_size, end_of, value_in};

    /// How many bytes the record takes up.
    pub(crate) fn record_size(&self) -> usize
        ensures { result ≡ record_size self.now }
    {
        self.name.len() + self.size + LENGTHS
    }

    /// The value, in the bytes where the record stands.
    pub(crate) fn value_in<'a>(&self, bytes: &'a [u8]) -> &'a [u8]
        requires { end_of self.now ≤ length bytes.now }
        ensures { result.now ≡ value_in bytes.now self.now }
    {
        let record = &bytes[self.offset..][..self.record_size()];
        &record[self.name.len() + LENGTHS..]
    }
}

impl Named for Entry {
    ghost name = { λ e. e.name };

    fn name(&self) -> &[u8] {
        self.name.as_slice()
    }
}
