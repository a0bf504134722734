//! Byte strings side by side: the first byte that differs decides, and a string comes before what extends it.

ghost use Rattle.std.specs.Prelude.{◌≡◌, Decides};
ghost use Rattle.byte_strings.specs.Order.{at_most, below, ByteStringsAreOrdered, ByteStringsAreStrictlyOrdered};

/// Whether `a` comes before `b` or is the same.
pub fn is_at_most(a: &[u8], b: &[u8]) -> bool
    ensures value { result ≡ at_most a.now b.now }
    ensures ordered { ByteStringsAreOrdered }
{
    a <= b
}

/// Whether `a` comes before `b`.
pub fn is_below(a: &[u8], b: &[u8]) -> bool
    ensures value { result ≡ below a.now b.now }
    ensures ordered { ByteStringsAreStrictlyOrdered }
{
    !is_at_most(b, a)
}

/// Whether both are the same.
pub fn is_same(a: &[u8], b: &[u8]) -> bool
    ensures { Decides result (a.now ≡ b.now) }
{
    a == b
}
