//! Making a faulty cloud.

ghost use Rattle.std.specs.Prelude.{◌≡◌, ◌≤◌, length};
ghost use Rattle.cloud_faulty.specs.Making.{Made};

use crate::faulty::FaultyCloud;
use crate::script::Script;
use cloud::interface::Cloud;
use refusal::{Refusal, Rejected};

impl<C: Cloud> FaultyCloud<C> {
    /// A layer over the cloud that uses up one of the codes with each call. Refused where there are more than 32 or
    /// one is above 3.
    pub fn new(cloud: C, codes: &[u8]) -> Result<FaultyCloud<C>, Rejected<C>>
        ensures { Made codes.now cloud result }
    {
        // Not `ok_or`: the cloud moves into the refusal only where there is one.
        let Some(script) = Script::read(codes) else {
            return Err(Rejected {
                refusal: Refusal::UnsupportedStorage,
                given: cloud,
            });
        };
        Ok(FaultyCloud {
            below: cloud,
            script,
        })
    }

    /// How many codes are left, at most 32.
    pub fn left(&self) -> usize
        ensures value { result ≡ length self.now.script }
        ensures few { result ≤ 32 }
    {
        self.script.left()
    }
}
