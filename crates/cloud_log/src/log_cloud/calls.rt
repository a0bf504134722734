//! The calls at a log cloud.

ghost use Rattle.cloud.specs.Outcomes.{PutOutcome, GetOutcome, DropOutcome, NextOutcome};
ghost use Rattle.log_record.specs.Records.{stored, dropped};
ghost use Rattle.cloud_log.specs.Meaning.{log_meaning, Logged};
ghost use Rattle.cloud_log.specs.Limits.{within_limits};
ghost use Rattle.std.proofs.Common.{rules, arith};

use crate::index::position;
use crate::log_cloud::LogCloud;
use byte_strings::named::{AboveName, Named};
use byte_strings::successor::successor;
use cloud::front::write_value;
use cloud::interface::Cloud;
use cloud::limits::{LONGEST_NAME, LONGEST_VALUE};
use log_record::limits::LENGTHS;
use refusal::Cause;

/// A log cloud is always sound.
impl Cloud for LogCloud {
    ghost meaning = { log_meaning };

    ghost puts = { λ s name value r t. PutOutcome (log_meaning s) name value r (log_meaning t) };

    ghost gets = { λ s name part r part' t. GetOutcome (log_meaning s) name part r part' (log_meaning t) };

    ghost drops = { λ s name r t. DropOutcome (log_meaning s) name r (log_meaning t) };

    ghost nexts = { λ s above place r place' t. NextOutcome (log_meaning s) above place r place' (log_meaning t) };

    ghost limited = { λ s. within_limits s };

    ghost putting = { first_of (Prim.search rules, Prim.grind (arith, Self.row.coded.inj)) };

    ghost getting = { first_of (Prim.search rules, Prim.grind (arith, Self.row.coded.inj)) };

    ghost dropping = { first_of (Prim.search rules, Prim.grind (arith, Self.row.coded.inj)) };

    ghost nexting = { first_of (Prim.search rules, Prim.grind (arith, Self.row.coded.inj)) };

    fn put(&mut self, name: &[u8], value: &[u8]) -> Result<(), Cause>
        ensures outcome { PutOutcome (log_meaning self.old) name.now value.now result (log_meaning self.new) }
        ensures logged { Logged self.old (stored name.now value.now) result self.new }
    {
        if name.len() > LONGEST_NAME || value.len() > LONGEST_VALUE {
            return Err(Cause::TooLong);
        }
        let place = position(&self.index, name);
        if !self.has_place(place) {
            return Err(Cause::Full);
        }
        self.make_room(name.len() + value.len() + LENGTHS);
        self.append_stored(place, name, value);
        Ok(())
    }

    fn get(&mut self, name: &[u8], part: &mut [u8]) -> Result<usize, Cause> {
        let place = position(&self.index, name).ok_or(Cause::NotHeld)?;
        write_value(self.value_at(place), part)
    }

    fn drop(&mut self, name: &[u8]) -> Result<(), Cause>
        ensures outcome { DropOutcome (log_meaning self.old) name.now result (log_meaning self.new) }
        ensures logged { Logged self.old (dropped name.now) result self.new }
    {
        let place = position(&self.index, name).ok_or(Cause::NotHeld)?;
        self.make_room(name.len() + LENGTHS);
        self.append_dropped(place, name);
        Ok(())
    }

    fn next(&mut self, above: &[u8], place: &mut [u8; 39]) -> Result<Option<usize>, Cause> {
        // A closure for `map` would have to write to the place.
        let Some(i) = successor(&self.index, &AboveName { bytes: above }) else {
            return Ok(None);
        };
        let name = self.index[i].name();
        place[..name.len()].copy_from_slice(name);
        Ok(Some(name.len()))
    }
}
