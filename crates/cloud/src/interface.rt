//! The calls at a cloud. Code above knows nothing else of one.

ghost use Rattle.std.specs.Prelude.{ℕ, List};
ghost use Rattle.cloud.specs.Meaning.{CloudMeaning, WithinLimits};
ghost use Rattle.cloud.specs.Outcomes.{Done, Length, NextLength, PutOutcome, GetOutcome, DropOutcome, NextOutcome};

use refusal::Cause;

/// A place to keep values under names. A sound one does what is said of it; an unsound one may answer and become
/// anything, and only ends, writes no more than it is lent and answers no length above that.
pub trait Cloud {
    ghost meaning: { Self → CloudMeaning };

    // What one call does, over the cloud's own values. Only a call gives such a fact, so a contract that has one says
    // that the cloud was asked and that this was its answer, also where the cloud is unsound.
    ghost puts: { Self → List ℕ → List ℕ → Done → Self → Type 0 };

    ghost gets: { Self → List ℕ → List ℕ → Length → List ℕ → Self → Type 0 };

    ghost drops: { Self → List ℕ → Done → Self → Type 0 };

    ghost nexts: { Self → List ℕ → List ℕ → NextLength → List ℕ → Self → Type 0 };

    /// Keeps the value under the name.
    fn put(&mut self, name: &[u8], value: &[u8]) -> Result<(), Cause>
        ensures { puts self.old name.now value.now result self.new };

    /// Writes the value under the name to the front of the part, and answers its length.
    fn get(&mut self, name: &[u8], part: &mut [u8]) -> Result<usize, Cause>
        ensures { gets self.old name.now part.old result part.new self.new };

    /// Removes the name and its value.
    fn drop(&mut self, name: &[u8]) -> Result<(), Cause>
        ensures { drops self.old name.now result self.new };

    /// Writes the smallest name above the given bytes to the front of the place, and answers its length.
    fn next(&mut self, above: &[u8], place: &mut [u8; 39]) -> Result<Option<usize>, Cause>
        ensures { nexts self.old above.now place.old result place.new self.new };

    ghost limited: { (s : Self) → WithinLimits (meaning s) };

    ghost putting: { (s : Self) (name value : List ℕ) (r : Done) (t : Self) → puts s name value r t → PutOutcome (meaning s) name value r (meaning t) };

    ghost getting: { (s : Self) (name part : List ℕ) (r : Length) (part' : List ℕ) (t : Self) → gets s name part r part' t → GetOutcome (meaning s) name part r part' (meaning t) };

    ghost dropping: { (s : Self) (name : List ℕ) (r : Done) (t : Self) → drops s name r t → DropOutcome (meaning s) name r (meaning t) };

    ghost nexting: { (s : Self) (above place : List ℕ) (r : NextLength) (place' : List ℕ) (t : Self) → nexts s above place r place' t → NextOutcome (meaning s) above place r place' (meaning t) };
}
