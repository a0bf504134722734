//! The functions and the constants of the rounds of SHA-1, by their number.
ghost use Rattle.std.specs.Prelude.{◌≡◌, ◌/◌, slice_index};
ghost use Rattle.sha1_digest.specs.Constants.{constants};
ghost use Rattle.sha1_digest.specs.Sha1.{f as function};

use super::constants::K;
use digest::words::{choose, majority};

/// The function of the round `t`.
pub(crate) fn combine(t: usize, x: u32, y: u32, z: u32) -> u32
    ensures { result ≡ function t x y z }
{
    match t {
        0..20 => choose(x, y, z),
        40..60 => majority(x, y, z),
        _ => x ^ y ^ z,
    }
}

/// The constant of the round `t`, and 0 past the last round.
pub(crate) fn constant(t: usize) -> u32
    ensures { result ≡ slice_index constants (t / 20) }
{
    if t < 80 { K[t / 20] } else { 0 }
}
