//! The functions on words of SHA-256 alone, and the constants of its rounds by their number.
ghost use Rattle.std.specs.Prelude.{◌≡◌, ◌<◌, slice_index};
ghost use Rattle.sha256.specs.Constants.{constants};
ghost use Rattle.sha256.specs.Sha256.{Σ, σ};

use super::constants::K;

/// The sum of the rotations to the right by `A`, `B` and `C` bits.
pub(crate) fn big_sigma<const A: u32, const B: u32, const C: u32>(x: u32) -> u32
    requires a { (0 < A) × (A < 32) }
    requires b { (0 < B) × (B < 32) }
    requires c { (0 < C) × (C < 32) }
    ensures { result ≡ Σ A B C x }
{
    x.rotate_right(A) ^ x.rotate_right(B) ^ x.rotate_right(C)
}

/// The sum of the rotations by `A` and `B` bits and the shift by `C` bits to the right.
pub(crate) fn small_sigma<const A: u32, const B: u32, const C: u32>(x: u32) -> u32
    requires a { (0 < A) × (A < 32) }
    requires b { (0 < B) × (B < 32) }
    requires c { C < 32 }
    ensures { result ≡ σ A B C x }
{
    x.rotate_right(A) ^ x.rotate_right(B) ^ (x >> C)
}

/// The constant of the round `t`, and 0 past the last round.
pub(crate) fn constant(t: usize) -> u32
    ensures { result ≡ slice_index constants t }
{
    if t < 64 { K[t] } else { 0 }
}
