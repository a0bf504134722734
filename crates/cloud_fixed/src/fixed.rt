//! The fixed cloud.

ghost use Rattle.std.specs.Prelude.{◌≡◌, ◌≤◌, true, vec_len, vec_capacity};
ghost use Rattle.bytemap.specs.Map.{all_different, gathered};
ghost use Rattle.cloud.specs.Meaning.{AllShort};

use crate::place::Place;

pub mod calls;
mod making;
mod search;

/// A cloud that keeps each name in a place of its own.
// No `impl Model`: code above sees a cloud by the meaning of its interface, and the law on limits reads these fields.
#[derive(Drop)]
pub struct FixedCloud {
    places: Vec<Place>,
    limit: usize,
    ghost distinct: { all_different places.items ≡ true },
    ghost short: { AllShort (gathered places.items) },
    ghost used: { vec_len places ≤ limit },
    ghost reserved: { limit ≤ vec_capacity places },
    ghost some: { 1 ≤ limit },
    ghost few: { limit ≤ 32 },
}
