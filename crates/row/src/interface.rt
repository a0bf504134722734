//! A row of clouds, each called by its number.

ghost use Rattle.std.specs.Prelude.{◌≡◌, ℕ, ◌<◌, List, length, Ok, Err, slice_index_or};
ghost use Rattle.refusal.specs.declared.Cause.TheVariants.{Silent};
ghost use Rattle.cloud.specs.Meaning.{CloudMeaning, WithinLimits};
ghost use Rattle.cloud.specs.Outcomes.{Done, Length, NextLength, PutOutcome, GetOutcome, DropOutcome, NextOutcome};
ghost use Rattle.row.specs.Rows.{Called, no_cloud, number_past};

use refusal::Cause;

/// Clouds side by side, counted from 0. A call at one leaves the others; a number that none has is silent.
pub trait Row {
    ghost clouds: { Self → List CloudMeaning };

    // What one call at the cloud of a number does, over the row's own values; see `Cloud`.
    ghost puts: { Self → ℕ → List ℕ → List ℕ → Done → Self → Type 0 };

    ghost gets: { Self → ℕ → List ℕ → List ℕ → Length → List ℕ → Self → Type 0 };

    ghost drops: { Self → ℕ → List ℕ → Done → Self → Type 0 };

    ghost nexts: { Self → ℕ → List ℕ → List ℕ → NextLength → List ℕ → Self → Type 0 };

    /// How far a number lies past the row's last cloud; none where it is the number of a cloud.
    fn past(&self, number: usize) -> Option<usize>
        ensures { result ≡ number_past (clouds self.now) number };

    fn put(&mut self, number: usize, name: &[u8], value: &[u8]) -> Result<(), Cause>
        ensures { puts self.old number name.now value.now result self.new };

    fn get(&mut self, number: usize, name: &[u8], part: &mut [u8]) -> Result<usize, Cause>
        ensures { gets self.old number name.now part.old result part.new self.new };

    fn drop(&mut self, number: usize, name: &[u8]) -> Result<(), Cause>
        ensures { drops self.old number name.now result self.new };

    fn next(
        &mut self,
        number: usize,
        above: &[u8],
        place: &mut [u8; 39],
    ) -> Result<Option<usize>, Cause>
        ensures { nexts self.old number above.now place.old result place.new self.new };

    ghost limited: { (s : Self) (i : ℕ) → i < length (clouds s) → WithinLimits (slice_index_or (clouds s) i no_cloud) };

    ghost putting: { (s : Self) (i : ℕ) (name value : List ℕ) (r : Done) (t : Self) → puts s i name value r t → Called (clouds s) i (clouds t) (λ m m'. PutOutcome m name value r m') (r ≡ Err Silent) };

    ghost getting: { (s : Self) (i : ℕ) (name part : List ℕ) (r : Length) (part' : List ℕ) (t : Self) → gets s i name part r part' t → Called (clouds s) i (clouds t) (λ m m'. GetOutcome m name part r part' m') ((r ≡ Err Silent) × (part' ≡ part)) };

    ghost dropping: { (s : Self) (i : ℕ) (name : List ℕ) (r : Done) (t : Self) → drops s i name r t → Called (clouds s) i (clouds t) (λ m m'. DropOutcome m name r m') (r ≡ Err Silent) };

    ghost nexting: { (s : Self) (i : ℕ) (above place : List ℕ) (r : NextLength) (place' : List ℕ) (t : Self) → nexts s i above place r place' t → Called (clouds s) i (clouds t) (λ m m'. NextOutcome m above place r place' m') ((r ≡ Err Silent) × (place' ≡ place)) };
}
