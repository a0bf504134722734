//! Elements that have a byte string as their name, in the order of their names.

ghost use Rattle.std.specs.Prelude.{◌≡◌, ℕ, List};
ghost use Rattle.byte_strings.specs.Order.{at_most, below};
ghost use Rattle.byte_strings.specs.OrderLaws.{preorder_by, at_most_preorder};

use super::compare::{is_at_most, is_below};
use super::successor::{Bound, Ordered};

/// An element with a name.
pub trait Named {
    ghost name: { Self → List ℕ };

    fn name(&self) -> &[u8]
        ensures { result.now ≡ name self.now };
}

/// Elements are ordered by their names.
impl<T: Named> Ordered for T {
    ghost le = { λ x y. at_most (T.name x) (T.name y) };

    ghost ordered = { preorder_by T.name at_most at_most_preorder };

    fn is_at_most(&self, other: &T) -> bool {
        is_at_most(self.name(), other.name())
    }
}

/// The bytes above which a name is sought.
#[derive(Clone, Copy)]
pub struct AboveName<'a> {
    pub bytes: &'a [u8],
}

impl<'a, T: Named> Bound<T> for AboveName<'a> {
    ghost above = { λ q x. below q.bytes.now (T.name x) };

    fn is_below(&self, item: &T) -> bool {
        is_below(self.bytes, item.name())
    }
}
