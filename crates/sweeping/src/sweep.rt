//! The sweep of one cloud. It may be unsound, so each name that it gives is looked at.

ghost use Rattle.std.specs.Prelude.{◌≡◌};
ghost use Rattle.byte_strings.specs.Order.{below};
ghost use Rattle.row.specs.Rows.{numbered};
ghost use Rattle.protocol.specs.Steps.{next_at, drop_at};
ghost use Rattle.protocol.specs.Sweeping.{Swept};
ghost use Rattle.sweeping.specs.Answers.{Asked, said, sweep_of};

use byte_strings::compare::is_below;
use naming::address::Address;
use naming::name::Name;
use naming::stamp::Stamp;
use refusal::{Cause, CloudFault};
use row::fault::at_cloud;
use row::interface::Row;

// No cloud has more places, so a sound one never gives more names.
const MOST_NAMES: usize = 64;

/// Drops the names of this key with stamps below the given one, as the cloud lists them, and answers how many drops
/// it acknowledged. A refusal by the cloud ends the sweep, and so do names that do not ascend or are too many.
// No struct of the row and the cloud's number: each of its methods would have to promise that both stay.
pub fn sweep<R: Row>(
    row: &mut R,
    number: usize,
    at: &Address,
    stamp: &Stamp,
) -> Result<usize, CloudFault>
    ensures chain { Swept (λ a. R.Row.nexts a number) (λ a. R.Row.drops a number) (sweep_of at.now stamp.now) row.old row.new (said result) }
    ensures meaning { Swept (next_at number) (drop_at number) (sweep_of at.now stamp.now) (R.Row.clouds row.old) (R.Row.clouds row.new) (said result) }
    ensures fault { result ≡ numbered number (said result) }
{
    at_cloud(number, sweep_cloud(row, number, at, stamp))
}

fn sweep_cloud<R: Row>(
    row: &mut R,
    number: usize,
    at: &Address,
    stamp: &Stamp,
) -> Result<usize, Cause>
    ensures { Swept (λ a. R.Row.nexts a number) (λ a. R.Row.drops a number) (sweep_of at.now stamp.now) row.old row.new result }
{
    let bound = Name::new(at, stamp);
    let mut last = Name::new(at, &Stamp::none());
    let mut dropped = 0;
    for _ in 0..MOST_NAMES {
        let Some(name) = next_name(row, number, &last)? else {
            return Ok(dropped);
        };
        if !is_before(&last, &name) {
            return Err(Cause::BadListing);
        }
        if !is_before(&name, &bound) {
            return Ok(dropped);
        }
        if Name::is_of(name.as_bytes(), at) {
            row.drop(number, name.as_bytes())?;
            dropped += 1;
        }
        last = name;
    }
    match next_name(row, number, &last)? {
        None => Ok(dropped),
        Some(_) => Err(Cause::BadListing),
    }
}

// The name that the cloud gives above the last one.
fn next_name<R: Row>(row: &mut R, number: usize, last: &Name) -> Result<Option<Name>, Cause>
    ensures { Asked (λ a. R.Row.nexts a number) row.old last.now result row.new }
{
    let mut place = [0; 39];
    // Not `and_then`: what is said of its closure does not reach the proof.
    match row.next(number, last.as_bytes(), &mut place)? {
        None => Ok(None),
        // No cloud answers a length above that of the place, so these bytes make a name.
        Some(len) => Ok(Name::from_bytes(&place[..len])),
    }
}

fn is_before(a: &Name, b: &Name) -> bool
    ensures { result ≡ below a.now b.now }
{
    is_below(a.as_bytes(), b.as_bytes())
}
