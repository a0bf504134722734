//! What calls look for in the directory.

ghost use Rattle.std.specs.Prelude.{◌≡◌, not, nat_le};
ghost use Rattle.refusal.specs.declared.Refusal.TheVariants.{NoEntry, SequenceExhausted, DirectoryFull};
ghost use Rattle.naming.specs.Limits.{greatest_sequence};
ghost use Rattle.naming.specs.Stamps.{next_stamp};
ghost use Rattle.entry.specs.Entries.{entry_value};
ghost use Rattle.directory.specs.Calls.{entry_of, stamp_of, commit_answer, commit_after};
ghost use Rattle.protocol.specs.Grounds.{is_there, live_of, is_full};
ghost use Rattle.protocol.specs.Steps.{or_refused, or_kept, fetch_of, commit_outcome};
ghost use Rattle.slots.specs.Values.{answered, when};
ghost use Rattle.locker.specs.Held.{fetch_slot, entry_or_none};

use directory::interface::{CommitError, Directory};
use entry::entry::Entry;
use naming::address::Address;
use naming::stamp::Stamp;
use protocol::answers::CommitOutcome;
use refusal::Refusal;
use slots::doing::Fetching;
use slots::party::Party;

/// The stamp of the key's next write.
pub(crate) fn next_stamp<D: Directory>(
    directory: &mut D,
    at: &Address,
    party: Party,
) -> Result<Stamp, Refusal>
    ensures value { let last = stamp_of (entry_of (D.meaning directory.old) at.now.container at.now.key.bytes) in result ≡ or_refused (when (nat_le greatest_sequence last.sequence) SequenceExhausted) (next_stamp last party) }
    ensures same { D.meaning directory.new ≡ D.meaning directory.old }
{
    let last = directory
        .look(at)
        .map_or(Stamp::none(), |entry| entry.stamp());
    stamp_after(last, party)
}

/// A fetch of the key as it stands in the directory, if it has a value.
pub(crate) fn fetch_of<D: Directory>(directory: &mut D, at: Address) -> Option<Fetching>
    ensures value { let entry = entry_of (D.meaning directory.old) at.container at.key.bytes in fetch_slot result ≡ fetch_of at.container at.key.bytes (stamp_of entry) (live_of entry) }
    ensures same { D.meaning directory.new ≡ D.meaning directory.old }
{
    let entry = directory.look(&at)?;
    Some(Fetching {
        at,
        stamp: entry.stamp(),
        live: entry.live()?,
    })
}

/// The key's entry, which must be there.
pub(crate) fn entry_at<D: Directory>(directory: &mut D, at: &Address) -> Result<Entry, Refusal>
    ensures value { let entry = entry_of (D.meaning directory.old) at.now.container at.now.key.bytes in answered entry_value result ≡ or_refused (when (not (is_there entry)) NoEntry) (entry_or_none entry) }
    ensures same { D.meaning directory.new ≡ D.meaning directory.old }
{
    directory.look(at).ok_or(Refusal::NoEntry)
}

/// The key's entry, which must have a value.
pub(crate) fn live_entry<D: Directory>(directory: &mut D, at: &Address) -> Result<Entry, Refusal>
    ensures value { let entry = entry_of (D.meaning directory.old) at.now.container at.now.key.bytes in answered entry_value result ≡ or_refused (when (not (is_there (live_of entry))) NoEntry) (entry_or_none entry) }
    ensures same { D.meaning directory.new ≡ D.meaning directory.old }
{
    let entry = entry_at(directory, at)?;
    if entry.live().is_none() {
        return Err(Refusal::NoEntry);
    }
    Ok(entry)
}

/// The stamp of the write after this one.
pub(crate) fn stamp_after(last: Stamp, party: Party) -> Result<Stamp, Refusal>
    ensures { result ≡ or_refused (when (nat_le greatest_sequence last.sequence) SequenceExhausted) (next_stamp last party) }
{
    last.next(party.number()).ok_or(Refusal::SequenceExhausted)
}

/// Sets the key's entry, and answers whether it is the key's entry now.
pub(crate) fn commit_entry<D: Directory>(
    directory: &mut D,
    at: &Address,
    entry: &Entry,
) -> Result<CommitOutcome, Refusal>
    ensures value { let answer = commit_answer (D.meaning directory.old) at.now.container at.now.key.bytes (entry_value entry.now) in result ≡ or_refused (when (is_full answer) DirectoryFull) (commit_outcome answer) }
    ensures after { let answer = commit_answer (D.meaning directory.old) at.now.container at.now.key.bytes (entry_value entry.now) in D.meaning directory.new ≡ or_kept (when (is_full answer) DirectoryFull) (D.meaning directory.old) (commit_after (D.meaning directory.old) at.now.container at.now.key.bytes (entry_value entry.now)) }
{
    match directory.commit(at, entry) {
        Ok(()) => Ok(CommitOutcome::Committed),
        Err(CommitError::Older) => Ok(CommitOutcome::Passed),
        Err(CommitError::Full) => Err(Refusal::DirectoryFull),
    }
}
