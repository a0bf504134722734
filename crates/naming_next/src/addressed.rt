//! Elements that are kept under an address, in the order of their addresses.

ghost use Rattle.std.specs.Prelude.{◌≡◌};
ghost use Rattle.naming.specs.Addresses.{address_le};
ghost use Rattle.naming.specs.declared.address.Address.{Address};
ghost use Rattle.std.proofs.Common.{rules};

use byte_strings::successor::Ordered;
use naming::address::Address;

/// An element with an address, by which it is ordered.
pub trait Addressed: Ordered {
    ghost at: { Self → Address };

    fn address(&self) -> &Address
        ensures { result.now ≡ at self.now };

    ghost in_order: { (x y : Self) → Self.le x y ≡ address_le (at x) (at y) };
}

/// An address is its own.
impl Addressed for Address {
    ghost at = { λ a. a };

    ghost in_order = { Prim.search rules };

    fn address(&self) -> &Address {
        self
    }
}
