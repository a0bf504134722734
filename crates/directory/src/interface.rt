//! The calls at a directory. Code above knows nothing else of one.

ghost use Rattle.std.specs.Prelude.{◌≡◌, length};
ghost use Rattle.std.specs.Option.{option_map};
ghost use Rattle.entry.specs.Entries.{entry_value};
ghost use Rattle.directory.specs.Meaning.{DirectoryMeaning, WithinLimits};
ghost use Rattle.directory.specs.Calls.{commit_after, commit_answer, entry_of, key_after, place_with};

use entry::entry::Entry;
use naming::address::Address;

/// Why an entry is not set.
#[derive(Clone, Copy, Debug, PartialEq, Eq)]
pub enum CommitError {
    /// The key has an entry with the same stamp or a later one.
    Older,
    /// The key has no entry, and no place is free.
    Full,
}

/// The entries of keys, on a box that is trusted. It always keeps its meaning.
pub trait Directory {
    ghost meaning: { Self → DirectoryMeaning };

    /// The key's entry. (By `&mut`, so that a layer may remember what was looked up.)
    fn look(&mut self, at: &Address) -> Option<Entry>
        ensures value { option_map entry_value result ≡ entry_of (meaning self.old) at.now.container at.now.key.bytes }
        ensures same { meaning self.new ≡ meaning self.old };

    /// Sets the key's entry, where its stamp is above that of the present one and there is a place.
    fn commit(&mut self, at: &Address, entry: &Entry) -> Result<(), CommitError>
        ensures value { result ≡ commit_answer (meaning self.old) at.now.container at.now.key.bytes (entry_value entry.now) }
        ensures after { meaning self.new ≡ commit_after (meaning self.old) at.now.container at.now.key.bytes (entry_value entry.now) };

    /// Writes the container's smallest key above the given bytes to the front of the place, and answers its length.
    fn next(&mut self, container: u8, above: &[u8], place: &mut [u8; 32]) -> Option<usize>
        ensures value { result ≡ option_map length (key_after (meaning self.old) container above.now) }
        ensures written { place.new ≡ place_with (key_after (meaning self.old) container above.now) place.old }
        ensures same { meaning self.new ≡ meaning self.old };

    ghost limited: { (s : Self) → WithinLimits (meaning s) };
}
