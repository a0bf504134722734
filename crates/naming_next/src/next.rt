//! The next name and the next key.

ghost use Rattle.std.specs.Prelude.{length};
ghost use Rattle.byte_strings.specs.Least.{Least};
ghost use Rattle.byte_strings.specs.Order.{at_most, below};
ghost use Rattle.naming_next.specs.NextKey.{key_above};

use crate::addressed::Addressed;
use crate::key_bound::KeyBound;
use byte_strings::named::AboveName;
use byte_strings::successor::successor;
use naming::name::Name;

/// The index of the smallest name above these bytes.
pub fn next_name(names: &[Name], above: &[u8]) -> Option<usize>
    ensures { Least (below above.now) at_most names.now (length names.now) result }
{
    successor(names, &AboveName { bytes: above })
}

/// The index of the element with the container's smallest key above these bytes.
pub fn next_key<T: Addressed>(items: &[T], container: u8, above: &[u8]) -> Option<usize>
    ensures { Least (λ x. key_above container above.now (T.at x)) T.le items.now (length items.now) result }
{
    let bound = KeyBound {
        container,
        bytes: above,
    };
    let i = successor(items, &bound)?;
    if items[i].address().container == container {
        Some(i)
    } else {
        None
    }
}
