//! Two rows joined.

ghost use Rattle.std.specs.Prelude.{◌++◌, length};
ghost use Rattle.row.specs.Rows.{AtSide};
ghost use Rattle.row.specs.RowsLemmas.{pair_limited, called_pair};

use crate::interface::Row;
use refusal::Cause;

/// Two rows as one: the left one's clouds come first.
#[derive(Drop)]
pub struct Pair<L: Row, R: Row> {
    pub left: L,
    pub right: R,
}

impl<L: Row, R: Row> Row for Pair<L, R> {
    ghost clouds = { λ s. L.Row.clouds s.left ++ R.Row.clouds s.right };

    ghost puts = { λ s i name value r t. AtSide (length (L.Row.clouds s.left)) s.left t.left s.right t.right i (λ j. L.Row.puts s.left j name value r t.left) (λ j. R.Row.puts s.right j name value r t.right) };

    ghost gets = { λ s i name part r part' t. AtSide (length (L.Row.clouds s.left)) s.left t.left s.right t.right i (λ j. L.Row.gets s.left j name part r part' t.left) (λ j. R.Row.gets s.right j name part r part' t.right) };

    ghost drops = { λ s i name r t. AtSide (length (L.Row.clouds s.left)) s.left t.left s.right t.right i (λ j. L.Row.drops s.left j name r t.left) (λ j. R.Row.drops s.right j name r t.right) };

    ghost nexts = { λ s i above place r place' t. AtSide (length (L.Row.clouds s.left)) s.left t.left s.right t.right i (λ j. L.Row.nexts s.left j above place r place' t.left) (λ j. R.Row.nexts s.right j above place r place' t.right) };

    ghost limited = { λ s. pair_limited (L.Row.clouds s.left) (R.Row.clouds s.right) (L.Row.limited s.left) (R.Row.limited s.right) };

    ghost putting = { λ s i name value r t. called_pair L.Row.clouds R.Row.clouds s.left t.left s.right t.right i (λ j. L.Row.putting s.left j name value r t.left) (λ j. R.Row.putting s.right j name value r t.right) };

    ghost getting = { λ s i name part r part' t. called_pair L.Row.clouds R.Row.clouds s.left t.left s.right t.right i (λ j. L.Row.getting s.left j name part r part' t.left) (λ j. R.Row.getting s.right j name part r part' t.right) };

    ghost dropping = { λ s i name r t. called_pair L.Row.clouds R.Row.clouds s.left t.left s.right t.right i (λ j. L.Row.dropping s.left j name r t.left) (λ j. R.Row.dropping s.right j name r t.right) };

    ghost nexting = { λ s i above place r place' t. called_pair L.Row.clouds R.Row.clouds s.left t.left s.right t.right i (λ j. L.Row.nexting s.left j above place r place' t.left) (λ j. R.Row.nexting s.right j above place r place' t.right) };

    #[tactic(auto, using(crate::specs::RowsLemmas::past_pair))]
    fn past(&self, number: usize) -> Option<usize> {
        let number = self.left.past(number)?;
        self.right.past(number)
    }

    // The sides are of different types, so that each call names both: choosing one by closures would name them too.
    fn put(&mut self, number: usize, name: &[u8], value: &[u8]) -> Result<(), Cause> {
        match self.left.past(number) {
            None => self.left.put(number, name, value),
            Some(number) => self.right.put(number, name, value),
        }
    }

    fn get(&mut self, number: usize, name: &[u8], part: &mut [u8]) -> Result<usize, Cause> {
        match self.left.past(number) {
            None => self.left.get(number, name, part),
            Some(number) => self.right.get(number, name, part),
        }
    }

    fn drop(&mut self, number: usize, name: &[u8]) -> Result<(), Cause> {
        match self.left.past(number) {
            None => self.left.drop(number, name),
            Some(number) => self.right.drop(number, name),
        }
    }

    fn next(
        &mut self,
        number: usize,
        above: &[u8],
        place: &mut [u8; 39],
    ) -> Result<Option<usize>, Cause> {
        match self.left.past(number) {
            None => self.left.next(number, above, place),
            Some(number) => self.right.next(number, above, place),
        }
    }
}
