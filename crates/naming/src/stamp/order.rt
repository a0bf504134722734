//! Which of two stamps is the earlier.

ghost use Rattle.std.specs.Prelude.{◌≡◌, Decides};
ghost use Rattle.naming.specs.Stamps.{stamp_below, StampsAreOrdered};

use super::Stamp;

impl Stamp {
    /// Whether this is the earlier of two different stamps.
    pub fn is_below(&self, other: &Stamp) -> bool
        ensures value { result ≡ stamp_below self.now other.now }
        ensures ordered { StampsAreOrdered }
    {
        self < other
    }

    /// Whether both are the same write.
    pub fn is_same(&self, other: &Stamp) -> bool
        ensures { Decides result (self.now ≡ other.now) }
    {
        self == other
    }
}
