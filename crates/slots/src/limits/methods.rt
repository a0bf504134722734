//! Making limits, and reading them.

ghost use Rattle.std.specs.Prelude.{◌≡◌, ◌≤◌, true, false, MatchOption};
ghost use Rattle.slots.specs.Values.{supported};

use super::Limits;

impl Limits {
    /// The limits for a row of so many clouds, where so many faults can be borne by it.
    pub fn new(faults: u8, clouds: u8) -> Option<Limits>
        ensures { MatchOption result (supported faults clouds ≡ false) (λ l. (supported faults clouds ≡ true) × ((l.faults ≡ faults) × (l.clouds ≡ clouds))) }
    {
        if faults < 1 || faults > 3 || clouds < 3 || clouds > 7 || 2 * faults + 1 > clouds {
            return None;
        }
        Some(Limits { faults, clouds })
    }

    /// How many clouds may be unsound.
    pub(crate) fn faults(&self) -> usize
        ensures { result ≡ self.now.faults }
    {
        self.faults as usize
    }

    /// How many clouds there are: no more than seven.
    pub fn clouds(&self) -> usize
        ensures value { result ≡ self.now.clouds }
        ensures few { result ≤ 7 }
    {
        self.clouds as usize
    }
}
