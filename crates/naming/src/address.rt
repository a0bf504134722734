//! Addresses: keys in their containers.

ghost use Rattle.naming.specs.Addresses.{address_le, address_preorder};

use crate::key::Key;
use byte_strings::successor::Ordered;

/// A container, and a key in it: where a value is kept.
#[derive(Clone, Copy, PartialEq, Eq, PartialOrd, Ord)]
pub struct Address {
    pub container: u8,
    pub key: Key,
}

/// Addresses are in the order of the containers and then of the keys.
impl Ordered for Address {
    ghost le = { address_le };

    ghost ordered = { address_preorder };

    fn is_at_most(&self, other: &Address) -> bool {
        self <= other
    }
}
