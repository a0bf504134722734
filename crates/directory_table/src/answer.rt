//! What a commit answers.

ghost use Rattle.std.specs.Prelude.{◌≡◌};
ghost use Rattle.std.specs.Option.{option_map};
ghost use Rattle.entry.specs.Entries.{entry_value};
ghost use Rattle.directory.specs.Calls.{stamp_of};
ghost use Rattle.directory_table.specs.Answer.{answer_of};

use directory::interface::CommitError;
use entry::entry::Entry;
use naming::stamp::Stamp;

// The answer where the key has the present entry, or none, and so many places are free.
pub(crate) fn commit_answer(
    present: Option<Entry>,
    free: usize,
    entry: &Entry,
) -> Result<(), CommitError>
    ensures { result ≡ answer_of (option_map entry_value present) free (entry_value entry.now) }
{
    if !last_stamp(present).is_below(&entry.stamp()) {
        return Err(CommitError::Older);
    }
    if present.is_none() && free == 0 {
        return Err(CommitError::Full);
    }
    Ok(())
}

// The stamp that a new one must be above.
fn last_stamp(present: Option<Entry>) -> Stamp
    ensures { result ≡ stamp_of (option_map entry_value present) }
{
    present.as_ref().map_or(Stamp::none(), Entry::stamp)
}
