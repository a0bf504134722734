//! What a log cloud holds, read.

ghost use Rattle.std.specs.Prelude.{◌≡◌, ◌<◌, ◌||◌, [], map, is_some, vec_len, nat_lt, slice_index_or};
ghost use Rattle.log_record.specs.Records.{Whole};
ghost use Rattle.log_record.specs.Replay.{replayed};
ghost use Rattle.cloud_log.specs.Index.{value_in};
ghost use Rattle.cloud_log.specs.Meaning.{log_of, log_meaning};

use crate::log_cloud::LogCloud;

impl LogCloud {
    /// The bytes of the log: whole records, one after another, that read back to what the cloud holds.
    pub fn bytes(&self) -> &[u8]
        ensures whole { Whole result.now }
        ensures held { replayed result.now ≡ (log_meaning self.now).held }
        ensures value { result.now ≡ log_of self.now }
    {
        &self.bytes[..self.used]
    }

    // The value of the entry at a place of the index.
    pub(crate) fn value_at(&self, place: usize) -> &[u8]
        requires { place < vec_len self.now.index }
        ensures { result.now ≡ slice_index_or (map (value_in self.now.bytes.items) self.now.index.items) place [] }
    {
        self.index[place].value_in(&self.bytes)
    }

    // Whether a value can be put under a name that stands at this place of the index, or is new.
    pub(crate) fn has_place(&self, place: Option<usize>) -> bool
        ensures { result ≡ (is_some place || nat_lt (vec_len self.now.index) self.now.places) }
    {
        place.is_some() || self.index.len() < self.places
    }
}
