//! The calls at a faulty cloud.

ghost use Rattle.std.specs.Prelude.{◌≡◌, ℕ, List, None};
ghost use Rattle.cloud_faulty.specs.Faults.{first, UsedUp};
ghost use Rattle.cloud_faulty.specs.Layer.{faulty_meaning, flipped, AnsweredBy, GetBy};
ghost use Rattle.cloud_faulty.specs.Laws;
ghost use Rattle.cloud_faulty.specs.Laws.{put_law, get_law, drop_law, next_law};

use crate::fault::Fault;
use crate::faulty::FaultyCloud;
use cloud::interface::Cloud;
use refusal::Cause;

/// Each call uses up the next fault, and does what it says.
impl<C: Cloud> Cloud for FaultyCloud<C> {
    ghost meaning = { λ s. faulty_meaning (C.Cloud.meaning s.below) s.script };

    ghost puts = { λ s name value r t. UsedUp s.script t.script × AnsweredBy (first s.script) (C.Cloud.puts s.below name value r t.below) (t.below ≡ s.below) tt r };

    ghost gets = { λ s name part r part' t. UsedUp s.script t.script × GetBy (first s.script) (λ written. C.Cloud.gets s.below name part r written t.below) ((t.below ≡ s.below) × (part' ≡ part)) r part' };

    ghost drops = { λ s name r t. UsedUp s.script t.script × AnsweredBy (first s.script) (C.Cloud.drops s.below name r t.below) (t.below ≡ s.below) tt r };

    ghost nexts = { λ s above place r place' t. UsedUp s.script t.script × AnsweredBy (first s.script) (C.Cloud.nexts s.below above place r place' t.below) ((t.below ≡ s.below) × (place' ≡ place)) None r };

    ghost limited = { λ s. Laws.limited _ s.script (C.Cloud.limited s.below) };

    ghost putting = { λ s name value r t h. put_law _ _ s.script _ h.0 _ (t.below ≡ s.below) name value r (C.Cloud.putting s.below name value r t.below) h.1 };

    ghost getting = { λ s name part r part' t h.
        get_law _ _ s.script _ h.0 (λ written. C.Cloud.gets s.below name part r written t.below) ((t.below ≡ s.below) × (part' ≡ part)) name part r part'
        (λ written. C.Cloud.getting s.below name part r written t.below) h.1 };

    ghost dropping = { λ s name r t h. drop_law _ _ s.script _ h.0 _ (t.below ≡ s.below) name r (C.Cloud.dropping s.below name r t.below) h.1 };

    ghost nexting = { λ s above place r place' t h. next_law _ _ s.script _ h.0 _ ((t.below ≡ s.below) × (place' ≡ place)) above place r place' (C.Cloud.nexting s.below above place r place' t.below) h.1 };

    // Each call says what each fault does at it: the answers that are claimed differ, and only a get flips a bit.
    fn put(&mut self, name: &[u8], value: &[u8]) -> Result<(), Cause> {
        match self.script.take() {
            Fault::Pass | Fault::FlippedBit => self.below.put(name, value),
            Fault::Silence => Err(Cause::Silent),
            Fault::FalseSuccess => Ok(()),
        }
    }

    fn get(&mut self, name: &[u8], part: &mut [u8]) -> Result<usize, Cause> {
        match self.script.take() {
            Fault::Pass => self.below.get(name, part),
            Fault::Silence => Err(Cause::Silent),
            Fault::FalseSuccess => Ok(0),
            Fault::FlippedBit => get_flipped(&mut self.below, name, part),
        }
    }

    fn drop(&mut self, name: &[u8]) -> Result<(), Cause> {
        match self.script.take() {
            Fault::Pass | Fault::FlippedBit => self.below.drop(name),
            Fault::Silence => Err(Cause::Silent),
            Fault::FalseSuccess => Ok(()),
        }
    }

    fn next(&mut self, above: &[u8], place: &mut [u8; 39]) -> Result<Option<usize>, Cause> {
        match self.script.take() {
            Fault::Pass | Fault::FlippedBit => self.below.next(above, place),
            Fault::Silence => Err(Cause::Silent),
            Fault::FalseSuccess => Ok(None),
        }
    }
}

// A get with a flipped bit: the lowest of the first byte that it wrote.
fn get_flipped<C: Cloud>(below: &mut C, name: &[u8], part: &mut [u8]) -> Result<usize, Cause>
    ensures { (written : List ℕ) × (C.Cloud.gets below.old name.now part.old result written below.new × (part.new ≡ flipped result written)) }
{
    let length = below.get(name, part)?;
    if length > 0 {
        part[0] ^= 1;
    }
    Ok(length)
}
