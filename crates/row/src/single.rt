//! One cloud as a row.

ghost use Rattle.std.specs.Prelude.{◌≡◌, [], ◌∷◌, cond, Ok, Err, ◌==◌};
ghost use Rattle.refusal.specs.declared.Cause.TheVariants.{Silent};
ghost use Rattle.row.specs.Rows.{AtOnly};
ghost use Rattle.row.specs.RowsLemmas.{called_single};
ghost use Rattle.std.proofs.Common.{rules};

use crate::interface::Row;
use cloud::interface::Cloud;
use refusal::Cause;

/// A row of one cloud, whose number is 0.
#[derive(Drop)]
pub struct Single<C: Cloud> {
    pub cloud: C,
}

impl<C: Cloud> Row for Single<C> {
    ghost clouds = { λ s. C.Cloud.meaning s.cloud ∷ [] };

    ghost puts = { λ s i name value r t. AtOnly s t i (C.Cloud.puts s.cloud name value r t.cloud) (r ≡ Err Silent) };

    ghost gets = { λ s i name part r part' t. AtOnly s t i (C.Cloud.gets s.cloud name part r part' t.cloud) ((r ≡ Err Silent) × (part' ≡ part)) };

    ghost drops = { λ s i name r t. AtOnly s t i (C.Cloud.drops s.cloud name r t.cloud) (r ≡ Err Silent) };

    ghost nexts = { λ s i above place r place' t. AtOnly s t i (C.Cloud.nexts s.cloud above place r place' t.cloud) ((r ≡ Err Silent) × (place' ≡ place)) };

    ghost limited = { Prim.search rules };

    ghost putting = { λ s i name value r t. called_single (λ x. C.Cloud.meaning x.cloud) s t i (C.Cloud.putting s.cloud name value r t.cloud) };

    ghost getting = { λ s i name part r part' t. called_single (λ x. C.Cloud.meaning x.cloud) s t i (C.Cloud.getting s.cloud name part r part' t.cloud) };

    ghost dropping = { λ s i name r t. called_single (λ x. C.Cloud.meaning x.cloud) s t i (C.Cloud.dropping s.cloud name r t.cloud) };

    ghost nexting = { λ s i above place r place' t. called_single (λ x. C.Cloud.meaning x.cloud) s t i (C.Cloud.nexting s.cloud above place r place' t.cloud) };

    fn past(&self, number: usize) -> Option<usize> {
        number.checked_sub(1)
    }

    fn put(&mut self, number: usize, name: &[u8], value: &[u8]) -> Result<(), Cause> {
        known(number)?;
        self.cloud.put(name, value)
    }

    fn get(&mut self, number: usize, name: &[u8], part: &mut [u8]) -> Result<usize, Cause> {
        known(number)?;
        self.cloud.get(name, part)
    }

    fn drop(&mut self, number: usize, name: &[u8]) -> Result<(), Cause> {
        known(number)?;
        self.cloud.drop(name)
    }

    fn next(
        &mut self,
        number: usize,
        above: &[u8],
        place: &mut [u8; 39],
    ) -> Result<Option<usize>, Cause> {
        known(number)?;
        self.cloud.next(above, place)
    }
}

// The row has a cloud of this number, or the call is met with silence.
fn known(number: usize) -> Result<(), Cause>
    ensures { result ≡ cond (number == 0) (Ok tt) (Err Silent) }
{
    if number == 0 {
        Ok(())
    } else {
        Err(Cause::Silent)
    }
}
