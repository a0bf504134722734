//! Making a log cloud of memory that is handed in.

ghost use Rattle.std.specs.Prelude.{◌≡◌, ◌≤◌};
ghost use Rattle.cloud_log.specs.Making.{roomy, Made};

use crate::log_cloud::LogCloud;
use crate::memory::LogMemory;
use log_record::limits::LONGEST_RECORD;
use refusal::{Refusal, Rejected};

const MOST_PLACES: usize = 32;

impl LogCloud {
    /// An empty cloud with this many places, all free, whose log may take up all of the bytes. Refused where the
    /// places are not 1 to 32, the bytes are too few for one longest record more than there are places, or the index
    /// has not room for an entry of each place. What the index held is let go.
    pub fn new(memory: LogMemory, places: usize) -> Result<LogCloud, Rejected<LogMemory>>
        ensures { Made memory places result }
    {
        if !(1..=MOST_PLACES).contains(&places) || !has_room(&memory, places) {
            return Err(Rejected {
                refusal: Refusal::UnsupportedStorage,
                given: memory,
            });
        }
        let LogMemory { bytes, mut index } = memory;
        index.clear();
        Ok(LogCloud {
            bytes,
            used: 0,
            index,
            places,
        })
    }
}

// Whether there are bytes for one longest record more than places, and an entry for each place.
fn has_room(memory: &LogMemory, places: usize) -> bool
    requires { places ≤ 32 }
    ensures { result ≡ roomy memory.now places }
{
    (places + 1) * LONGEST_RECORD <= memory.bytes.len() && places <= memory.index.capacity()
}
