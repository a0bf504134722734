//! Opening a Locker.

ghost use Rattle.std.specs.Prelude.{◌≡◌, true, false, [], length, replicate, IfOk, MatchOption, MatchResult};
ghost use Rattle.refusal.specs.declared.Refusal.TheVariants.{UnsupportedRow};
ghost use Rattle.protocol.specs.Slots.{idle};
ghost use Rattle.history.specs.Promises.{Promises};
ghost use Rattle.slots.specs.Values.{setting_of, supported};
ghost use Rattle.locker.specs.Held.{state_of};

use super::Locker;
use digest::kind::DigestKind;
use directory::interface::Directory;
use refusal::{Refusal, Rejected};
use row::interface::Row;
use slots::limits::Limits;
use slots::sixteen::Slots;
use std::marker::PhantomData;

const MOST_CLOUDS: usize = 7;

// The limits for this row, where it bears so many faults.
fn limits_of<R: Row>(row: &R, faults: u8) -> Option<Limits>
    ensures { MatchOption result (supported faults (length (R.clouds row.now)) ≡ false) (λ l. (supported faults (length (R.clouds row.now)) ≡ true) × ((l.faults ≡ faults) × (l.clouds ≡ length (R.clouds row.now)))) }
{
    // Past the seventh cloud by as many as the row has fewer.
    let missing = row.past(MOST_CLOUDS)?;
    Limits::new(faults, (MOST_CLOUDS - missing) as u8)
}

impl<D: Directory, R: Row, K: DigestKind> Locker<D, R, K> {
    /// A Locker in which nothing is under way. Refused where the faults are not 1 to 3, the clouds not 3 to 7, or
    /// fewer than twice the faults and one; what was given then comes back.
    ///
    /// A Locker that is opened over an empty directory keeps its promises over every history of calls.
    pub fn open(directory: D, row: R, faults: u8) -> Result<Locker<D, R, K>, Rejected<(D, R)>>
        ensures value { MatchResult result (λ l. (supported faults (length (R.clouds row)) ≡ true) × (l.directory ≡ directory) × (l.row ≡ row) × (state_of D.meaning R.clouds K.digested l ≡ record { directory = D.meaning directory; clouds = R.clouds row; slots = replicate 16 idle }) × (setting_of K.digested l.limits ≡ record { digested = K.digested; faults = faults; clouds = length (R.clouds row) })) (λ e. (supported faults (length (R.clouds row)) ≡ false) × (e.refusal ≡ UnsupportedRow) × (e.given ≡ (directory, row))) }
        ensures promises { IfOk result (λ l. (D.meaning directory).entries ≡ [] → Promises (setting_of K.digested l.limits) (state_of D.meaning R.clouds K.digested l)) }
    {
        // Not `ok_or`: what was given moves into the refusal only where there is one.
        let Some(limits) = limits_of(&row, faults) else {
            return Err(Rejected {
                refusal: Refusal::UnsupportedRow,
                given: (directory, row),
            });
        };
        Ok(Locker {
            directory,
            row,
            slots: Slots::idle(),
            limits,
            kind: PhantomData,
        })
    }

    /// Gives directory and row back; what was under way is left.
    pub fn close(self) -> (D, R)
        ensures { result ≡ (self.directory, self.row) }
    {
        (self.directory, self.row)
    }

    /// The directory, to be looked at.
    pub fn directory(&self) -> &D
        ensures { result.now ≡ self.now.directory }
    {
        &self.directory
    }
}
