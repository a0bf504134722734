//! Records appended to the log.

ghost use Rattle.std.specs.Prelude.{◌≡◌, ◌+◌, ◌<◌, ◌≤◌, length, IfNone, Some, vec_len};
ghost use Rattle.cloud.specs.Meaning.{longest_name, longest_value};
ghost use Rattle.log_record.specs.Records.{stored, dropped, longest_record};
ghost use Rattle.cloud_log.specs.Index.{names, Placed};
ghost use Rattle.cloud_log.specs.Meaning.{Grown, Roomy};

use crate::closing::close_up;
use crate::entry::Entry;
use crate::index::forget;
use crate::log_cloud::LogCloud;
use byte_strings::fixed::FixedBytes;
use log_record::write::{write_dropped, write_stored};

impl LogCloud {
    // Closes up where fewer than so many bytes are free.
    pub(crate) fn make_room(&mut self, size: usize)
        requires { size ≤ longest_record }
        ensures { Roomy self.old self.new size }
    {
        if self.bytes.len() - self.used < size {
            self.used = close_up(&mut self.bytes, &mut self.index);
        }
    }

    // Appends the record of a value put under a name. The name stands at this place of the index, if it is held;
    // its entry becomes the last.
    pub(crate) fn append_stored(&mut self, place: Option<usize>, name: &[u8], value: &[u8])
        requires placed { Placed (names self.old.index.items) name.now place }
        requires short { length name.now ≤ longest_name }
        requires small { length value.now ≤ longest_value }
        requires free { IfNone place (vec_len self.old.index < self.old.places) }
        requires room { self.old.used + (length name.now + length value.now + 3) ≤ vec_len self.old.bytes }
        ensures { Grown self.old (stored name.now value.now) self.new }
    {
        let offset = self.used;
        let end = write_stored(&mut self.bytes, offset, name, value).unwrap();
        forget(&mut self.index, place);
        self.index.push_reserved(Entry {
            name: FixedBytes::from_slice(name).unwrap(),
            offset,
            size: value.len(),
        });
        self.used = end;
    }

    // Appends the record of a name dropped, which stands at this place of the index.
    pub(crate) fn append_dropped(&mut self, place: usize, name: &[u8])
        requires placed { Placed (names self.old.index.items) name.now (Some place) }
        requires room { self.old.used + (length name.now + 3) ≤ vec_len self.old.bytes }
        ensures { Grown self.old (dropped name.now) self.new }
    {
        let after = write_dropped(&mut self.bytes, self.used, name).unwrap();
        let _ = self.index.remove(place);
        self.used = after;
    }
}
