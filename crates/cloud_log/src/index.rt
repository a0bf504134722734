//! The index as a list of entries, no two with one name.

ghost use Rattle.std.specs.Prelude.{◌≡◌, ◌<◌, IfSome, vec_len, vec_capacity};
ghost use Rattle.cloud_log.specs.Index.{place_of, without};

use crate::entry::Entry;
use byte_strings::named::Named;

// The first place where a name stands.
pub(crate) fn position(index: &[Entry], name: &[u8]) -> Option<usize>
    ensures { result ≡ place_of index.now name.now }
{
    index.iter().position(|entry| entry.name() == name)
}

// Takes out the entry at a place, if one is given.
pub(crate) fn forget(index: &mut Vec<Entry>, place: Option<usize>)
    requires { IfSome place (λ i. i < vec_len index.old) }
    ensures items { index.new.items ≡ without index.old.items place }
    ensures capacity { vec_capacity index.new ≡ vec_capacity index.old }
{
    if let Some(i) = place {
        let _ = index.remove(i);
    }
}
