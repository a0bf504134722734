//! The live keys of a container, one after another.

ghost use Rattle.std.specs.Prelude.{◌≡◌};
ghost use Rattle.listing.specs.Walk.{bytes_of};

use directory::interface::Directory;
use naming::address::Address;
use naming::key::Key;

/// The container's live keys above the last one, ascending. Each is asked of the directory when its turn comes.
#[derive(Drop)]
pub struct LiveKeys<'a, D: Directory> {
    directory: &'a mut D,
    container: u8,
    // The last key, live or deleted, that the directory gave.
    last: Option<Key>,
}

impl<'a, D: Directory> LiveKeys<'a, D> {
    ghost use Rattle.std.specs.Prelude.{◌≡◌};
    ghost use Rattle.directory.specs.Calls.{entry_of, key_after};
    ghost use Rattle.protocol.specs.Grounds.{is_there, live_of};
    ghost use Rattle.protocol.specs.Listing.{keys_of};
    ghost use Rattle.listing.specs.Walk.{SameDirectory, bytes_of, key_given, left};

    /// All live keys of the container.
    pub fn new(directory: &'a mut D, container: u8) -> Self
        ensures directory { result.directory.ghost_name ≡ directory.entry.ghost_name }
        ensures meaning { D.meaning result.directory.now ≡ D.meaning directory.old }
        ensures left { left D.meaning result ≡ keys_of (D.meaning directory.old) container }
    {
        LiveKeys {
            directory,
            container,
            last: None,
        }
    }

    // The container's smallest key above the last one, live or deleted.
    fn next_key(&mut self) -> Option<Key>
        ensures value { key_given result ≡ key_after (D.meaning self.old.directory.now) self.old.container (bytes_of self.old.last) }
        ensures last { self.new.last ≡ self.old.last }
        ensures same { SameDirectory D.meaning self.old self.new }
    {
        let mut place = [0; 32];
        let above = bytes_of(&self.last);
        let len = self.directory.next(self.container, above, &mut place)?;
        // A directory has valid keys only, so this is one.
        Key::new(&place[..len])
    }

    // Whether the key has a value.
    fn is_live(&mut self, key: &Key) -> bool
        ensures value { result ≡ is_there (live_of (entry_of (D.meaning self.old.directory.now) self.old.container key.now.bytes)) }
        ensures last { self.new.last ≡ self.old.last }
        ensures same { SameDirectory D.meaning self.old self.new }
    {
        let at = Address {
            container: self.container,
            key: *key,
        };
        self.directory
            .look(&at)
            .is_some_and(|entry| entry.live().is_some())
    }
}

// The bytes above which the next key is sought.
fn bytes_of(last: &Option<Key>) -> &[u8]
    ensures { result.now ≡ bytes_of last.now }
{
    // Not `map_or`: the empty slice would have to be written as a part of an array.
    match last {
        None => &[],
        Some(key) => key.as_bytes(),
    }
}

impl<'a, D: Directory> Iterator for LiveKeys<'a, D> {
    ghost use Rattle.std.specs.Iterator.{item_count};
    ghost use Rattle.listing.specs.Walk.{Steps, left};

    type Item = Key;

    ghost next_gives = { Steps D.meaning };

    ghost remaining = { item_count (left D.meaning) };

    fn next(&mut self) -> Option<Key> {
        while let Some(key) = self.next_key() {
            self.last = Some(key);
            if self.is_live(&key) {
                return Some(key);
            }
        }
        None
    }
}
