//! The order of the addresses.

ghost use Rattle.byte_strings.specs.OrderLaws.{preorder_by};
ghost use Rattle.naming.specs.Addresses.{address_le, address_preorder};
ghost use Rattle.std.proofs.Common.{rules};

use crate::keyed_entry::KeyedEntry;
use byte_strings::successor::Ordered;
use naming::address::Address;
use naming_next::addressed::Addressed;

impl Ordered for KeyedEntry {
    ghost le = { λ x y. address_le x.at y.at };

    ghost ordered = { preorder_by (λ x. x.at) address_le address_preorder };

    fn is_at_most(&self, other: &KeyedEntry) -> bool {
        self.at.is_at_most(&other.at)
    }
}

impl Addressed for KeyedEntry {
    ghost at = { λ x. x.at };

    ghost in_order = { Prim.search rules };

    fn address(&self) -> &Address {
        &self.at
    }
}
