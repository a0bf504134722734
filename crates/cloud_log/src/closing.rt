//! Closing up a log: the records that the index names move to the front, in their order.

ghost use Rattle.std.specs.Prelude.{◌≡◌, true, length};
ghost use Rattle.cloud_log.specs.Index.{laid};
ghost use Rattle.cloud_log.specs.Closing.{Closed};

use crate::entry::Entry;

// Moves each record down to where the one before it ends, and answers where the last ends.
pub(crate) fn close_up(bytes: &mut [u8], index: &mut [Entry]) -> usize
    requires { laid bytes.old 0 (length bytes.old) index.old ≡ true }
    ensures { Closed bytes.old index.old bytes.new index.new result }
{
    let mut end = 0;
    for entry in index.iter_mut() {
        let size = entry.record_size();
        bytes.copy_within(entry.offset..entry.offset + size, end);
        entry.offset = end;
        end += size;
    }
    end
}
