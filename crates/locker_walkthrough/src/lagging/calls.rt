//! The calls at a cloud that lags. Of an unsound cloud nothing is said but its bounds.

ghost use Rattle.std.specs.Prelude.{◌≡◌, ◌≤◌, false, [], length, IfSome, IfOk, Some, None};
ghost use Rattle.cloud.specs.Meaning.{CloudMeaning, longest_name};
ghost use Rattle.std.proofs.Common.{sym, ◌∙◌, arith};
ghost use Rattle.bytemap.proofs.Find.{find_empty};
ghost use borrow.Author.Tests.{clash};

use super::LaggingCloud;
use cloud::interface::Cloud;
use refusal::Cause;

impl Cloud for LaggingCloud {
    ghost meaning = { λ s. record { sound = false; held = []; free = 0 } };

    ghost puts = { λ s name value r t. Unit {0} };

    ghost gets = { λ s name part r part' t. IfOk r (λ n. n ≤ length part) };

    ghost drops = { λ s name r t. Unit {0} };

    ghost nexts = { λ s above place r place' t. IfOk r (λ o. IfSome o (λ n. n ≤ longest_name)) };

    ghost limited = { λ s.
        record {
          ascending = tt;
          short = λ n v e. let no' : None ≡ Some v = sym (find_empty n) ∙ e in absurd (Prim.grind arith);
          places = omega arith;
        } };

    ghost putting = { λ s name value r t h. record { answer = λ e. absurd (clash e); after = λ e. absurd (clash e) } };

    ghost getting = { λ s name part r part' t h. record { within = h; answer = λ e. absurd (clash e); written = λ e. absurd (clash e); after = λ e. absurd (clash e) } };

    ghost dropping = { λ s name r t h. record { answer = λ e. absurd (clash e); after = λ e. absurd (clash e) } };

    ghost nexting = { λ s above place r place' t h. record { within = h; answer = λ e. absurd (clash e); written = λ e. absurd (clash e); after = λ e. absurd (clash e) } };

    fn put(&mut self, _name: &[u8], value: &[u8]) -> Result<(), Cause> {
        if self.first.is_none() {
            self.first = <[u8; 3]>::try_from(value).ok();
        }
        Ok(())
    }

    fn get(&mut self, _name: &[u8], part: &mut [u8]) -> Result<usize, Cause> {
        let first = self.first.ok_or(Cause::NotHeld)?;
        if part.len() < first.len() {
            return Err(Cause::TooLong);
        }
        part[..first.len()].copy_from_slice(&first);
        Ok(first.len())
    }

    fn drop(&mut self, _name: &[u8]) -> Result<(), Cause> {
        Ok(())
    }

    fn next(&mut self, _above: &[u8], _place: &mut [u8; 39]) -> Result<Option<usize>, Cause> {
        Ok(None)
    }
}
