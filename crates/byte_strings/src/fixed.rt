//! Byte strings of limited length, kept in place.

ghost use Rattle.std.specs.Prelude.{◌≡◌, ◌+◌, ◌<◌, ◌≤◌, [], ◌++◌, length, take, drop, ◌↔◌, IsSome, IfSome, IfNone, ◌==◌};
ghost use Rattle.std.specs.Ordering.{nat_cmp, as_partial_cmp};
ghost use Rattle.std.specs.Cmp.{partial_order_from_own_ties};
ghost use Rattle.std.specs.Cmp.Lexicographic.{pointwise, slice_cmp};
ghost use Rattle.std.specs.Cmp.Rules.{comparing};
ghost use Rattle.std.proofs.Common.{rules};

use std::cmp::Ordering;
use std::marker::Model;

/// A byte string of at most `N` bytes. Past them the array holds zeros, so that equal strings are equal in every byte.
#[derive(Clone, Copy)]
pub struct FixedBytes<const N: usize> {
    bytes: [u8; N],
    len: usize,
}

/// Clauses see the byte string.
impl<const N: usize> Model for FixedBytes<N> {
    ghost use Rattle.std.specs.Prelude.{◌≡◌, ◌-◌, ◌≤◌, ℕ, List, drop, length, replicate};

    ghost Value = { List ℕ };

    ghost use Rattle.byte_strings.specs.Fixed.{used, padded, padded_used};

    ghost view = { λ s. used N s };

    ghost invariant = { λ s. (s.len ≤ N) × (drop s.len s.bytes ≡ replicate (N - s.len) 0) × (length s.bytes ≡ N) };

    ghost inverse = { λ bs. padded N bs };

    ghost inverse_ok = { λ s h. padded_used N s h.0 h.1 h.2 };
}

// Writes the bytes over those that stand from `at` on.
fn overwrite(buffer: &mut [u8], at: usize, bytes: &[u8])
    requires { at + length bytes.now ≤ length buffer.old }
    ensures { buffer.new ≡ take at buffer.old ++ (bytes.now ++ drop (at + length bytes.now) buffer.old) }
{
    let end = at + bytes.len();
    buffer[at..end].copy_from_slice(bytes);
}

/// Equal where the bytes are.
impl<const N: usize> PartialEq for FixedBytes<N> {
    ghost eq = { pointwise ◌==◌ };

    ghost laws = { Prim.search (comparing, rules) };

    fn eq(&self, other: &Self) -> bool {
        self.as_slice() == other.as_slice()
    }
}

impl<const N: usize> Eq for FixedBytes<N> {
    ghost laws = { Prim.search (comparing, rules) };
}

/// In the order of byte strings.
impl<const N: usize> Ord for FixedBytes<N> {
    ghost cmp = { slice_cmp nat_cmp };

    ghost total = { Prim.search (comparing, rules) };

    ghost matches_partial_cmp = { Prim.search (comparing, rules) };

    ghost matches_eq = { Prim.search (comparing, rules) };

    fn cmp(&self, other: &Self) -> Ordering {
        self.as_slice().cmp(other.as_slice())
    }
}

impl<const N: usize> PartialOrd for FixedBytes<N> {
    ghost partial_cmp = { as_partial_cmp (slice_cmp nat_cmp) };

    ghost laws = { partial_order_from_own_ties (Prim.search (comparing, rules)) (Prim.search (comparing, rules)) };

    fn partial_cmp(&self, other: &Self) -> Option<Ordering> {
        Some(self.cmp(other))
    }
}

impl<const N: usize> FixedBytes<N> {
    /// The byte string without a byte.
    pub fn new() -> Self
        ensures { result ≡ [] }
    {
        FixedBytes {
            bytes: [0; N],
            len: 0,
        }
    }

    /// These bytes, where they are not too many.
    pub fn from_slice(bytes: &[u8]) -> Option<Self>
        ensures found { IfSome result (λ s. (s ≡ bytes.now) × (length bytes.now ≤ N)) }
        ensures none { IfNone result (N < length bytes.now) }
    {
        let mut all = FixedBytes::new();
        all.append(bytes)?;
        Some(all)
    }

    /// Appends the bytes where there is room for them; otherwise nothing changes.
    pub fn append(&mut self, bytes: &[u8]) -> Option<()>
        ensures room { IsSome result ↔ (length self.old + length bytes.now ≤ N) }
        ensures appended { IfSome result (λ _. self.new ≡ self.old ++ bytes.now) }
        ensures unchanged { IfNone result (self.new ≡ self.old) }
    {
        if bytes.len() > N - self.len {
            return None;
        }
        overwrite(&mut self.bytes, self.len, bytes);
        self.len += bytes.len();
        Some(())
    }

    /// The bytes.
    pub fn as_slice(&self) -> &[u8]
        ensures value { result.now ≡ self.now }
        ensures short { length self.now ≤ N }
    {
        &self.bytes[..self.len]
    }

    /// How many bytes there are.
    pub fn len(&self) -> usize
        ensures value { result ≡ length self.now }
        ensures short { length self.now ≤ N }
    {
        self.as_slice().len()
    }
}
