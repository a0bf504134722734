//! What the next key of a container is sought above.

ghost use Rattle.naming_next.specs.NextKey.{address_above};

use super::addressed::Addressed;
use byte_strings::successor::Bound;

/// Any bytes, in a container: what its next key is to be above.
#[derive(Clone, Copy)]
pub struct KeyBound<'a> {
    pub container: u8,
    pub bytes: &'a [u8],
}

impl<'a, T: Addressed> Bound<T> for KeyBound<'a> {
    ghost above = { λ q x. address_above q (T.at x) };

    fn is_below(&self, item: &T) -> bool {
        let at = item.address();
        (self.container, self.bytes) < (at.container, at.key.as_bytes())
    }
}
