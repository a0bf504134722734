//! Whether bytes are a name of a key.

ghost use Rattle.std.specs.Prelude.{Decides, MatchOption};
ghost use Rattle.naming.specs.Names.{IsNameOf, NoName, OnlyStamp};

use super::Name;
use crate::address::Address;
use crate::stamp::Stamp;

impl Name {
    /// Whether these bytes are the name of some stamp of exactly this container and key.
    pub fn is_of(name: &[u8], at: &Address) -> bool
        ensures { Decides result (IsNameOf name.now at.now.container at.now.key.bytes) }
    {
        let Some(stamp) = stamp_of(name) else {
            return false;
        };
        name == Name::new(at, &stamp).as_bytes()
    }
}

// The stamp that the bytes end in. If they are a name, they are the name of this stamp.
fn stamp_of(name: &[u8]) -> Option<Stamp>
    ensures { MatchOption result (NoName name.now) (OnlyStamp name.now) }
{
    let [.., a, b, c, d, writer] = name else {
        return None;
    };
    Stamp::new(u32::from_be_bytes([*a, *b, *c, *d]), *writer)
}
