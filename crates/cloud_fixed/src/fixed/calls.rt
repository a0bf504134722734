//! The calls at a fixed cloud.

ghost use Rattle.cloud.specs.Outcomes.{PutOutcome, GetOutcome, DropOutcome, NextOutcome};
ghost use Rattle.cloud_fixed.specs.Making.{fixed_meaning};
ghost use Rattle.std.proofs.Common.{arith, rules};
ghost use Rattle.cloud_fixed.specs.Places.{within_limits};

use crate::fixed::FixedCloud;
use crate::place::Place;
use byte_strings::named::{AboveName, Named};
use byte_strings::successor::successor;
use cloud::front::write_value;
use cloud::interface::Cloud;
use cloud::limits::{LONGEST_NAME, LONGEST_VALUE};
use refusal::Cause;

/// A fixed cloud is always sound.
impl Cloud for FixedCloud {
    ghost meaning = { fixed_meaning };

    ghost puts = { λ s name value r t. PutOutcome (fixed_meaning s) name value r (fixed_meaning t) };

    ghost gets = { λ s name part r part' t. GetOutcome (fixed_meaning s) name part r part' (fixed_meaning t) };

    ghost drops = { λ s name r t. DropOutcome (fixed_meaning s) name r (fixed_meaning t) };

    ghost nexts = { λ s above place r place' t. NextOutcome (fixed_meaning s) above place r place' (fixed_meaning t) };

    ghost limited = { λ s. within_limits s.places.items s.limit s.distinct s.short (omega (arith, s.used, s.places.ok.0)) s.few };

    ghost putting = { λ s name value r t o. o };

    ghost getting = { λ s name part r part' t o. o };

    ghost dropping = { λ s name r t o. o };

    ghost nexting = { λ s above place r place' t o. o };

    fn put(&mut self, name: &[u8], value: &[u8]) -> Result<(), Cause> {
        if name.len() > LONGEST_NAME || value.len() > LONGEST_VALUE {
            return Err(Cause::TooLong);
        }
        if let Some(i) = self.place_of(name) {
            self.places[i] = Place::new(name, value);
            return Ok(());
        }
        if self.places.len() == self.limit {
            return Err(Cause::Full);
        }
        self.places.push_reserved(Place::new(name, value));
        Ok(())
    }

    fn get(&mut self, name: &[u8], part: &mut [u8]) -> Result<usize, Cause> {
        let i = self.place_of(name).ok_or(Cause::NotHeld)?;
        write_value(self.places[i].value(), part)
    }

    fn drop(&mut self, name: &[u8]) -> Result<(), Cause> {
        let i = self.place_of(name).ok_or(Cause::NotHeld)?;
        let _ = self.places.remove(i);
        Ok(())
    }

    fn next(&mut self, above: &[u8], place: &mut [u8; 39]) -> Result<Option<usize>, Cause> {
        // A closure for `map` would have to write to the place.
        let Some(i) = successor(&self.places, &AboveName { bytes: above }) else {
            return Ok(None);
        };
        let name = self.places[i].name();
        place[..name.len()].copy_from_slice(name);
        Ok(Some(name.len()))
    }
}
