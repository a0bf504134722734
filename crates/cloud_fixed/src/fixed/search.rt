//! The search for the place of a name.

ghost use Rattle.std.specs.Prelude.{◌≡◌};
ghost use Rattle.bytemap.specs.Map.{place_of};

use crate::fixed::FixedCloud;
use byte_strings::named::Named;

impl FixedCloud {
    // The index of the place that has the name.
    pub(crate) fn place_of(&self, name: &[u8]) -> Option<usize>
        ensures { result ≡ place_of self.now.places.items name.now }
    {
        self.places.iter().position(|place| place.name() == name)
    }
}
