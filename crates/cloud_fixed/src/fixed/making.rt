//! Making a fixed cloud of memory that is handed in.

ghost use Rattle.cloud_fixed.specs.Making.{Made};

use crate::fixed::FixedCloud;
use crate::place::Place;
use refusal::{Refusal, Rejected};

const MOST_PLACES: usize = 32;

impl FixedCloud {
    /// An empty cloud with this many places, all free. Refused where they are not 1 to 32 or the memory has not room
    /// for them. What the memory held is let go.
    pub fn new(mut memory: Vec<Place>, places: usize) -> Result<FixedCloud, Rejected<Vec<Place>>>
        ensures { Made memory places result }
    {
        if places == 0 || places > MOST_PLACES || places > memory.capacity() {
            return Err(Rejected {
                refusal: Refusal::UnsupportedStorage,
                given: memory,
            });
        }
        memory.clear();
        Ok(FixedCloud {
            places: memory,
            limit: places,
        })
    }
}
