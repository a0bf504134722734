//! The interface of a digest function.
ghost use Rattle.std.specs.Prelude.{◌≡◌, ℕ, ◌<◌, ◌⊎◌, List, ◌++◌, length, drop, slice_index};
ghost use Rattle.digest.specs.Rounds.{compression};
ghost use Rattle.digest.specs.Message.{digest_of};
ghost use Rattle.digest.specs.Widths.{length_digest, digest_of_small};

use super::chain::digest_into;
use super::rounds::Rounds;

/// A digest function: a fixed function of the value's bytes, 20 or 32 bytes wide.
pub trait DigestKind {
    /// How many bytes a digest has.
    const WIDTH: usize;

    ghost WIDTH: { ℕ };

    ghost digested: { List ℕ → List ℕ };

    /// Writes the digest of `value` over the first `WIDTH` bytes of `out`; the others stay.
    fn digest(value: &[u8], out: &mut [u8; 32])
        ensures { out.new ≡ digested value.now ++ drop WIDTH out.old };

    ghost widths: { (WIDTH ≡ 20) ⊎ (WIDTH ≡ 32) };

    ghost wide: { (value : List ℕ) → length (digested value) ≡ WIDTH };

    ghost bytes: { (value : List ℕ) (k : ℕ) → slice_index (digested value) k < 256 };
}

impl<C: Rounds> DigestKind for C {
    const WIDTH: usize = C::WIDTH;

    ghost WIDTH = { C.WIDTH };

    ghost digested = { λ value. digest_of C.initial (compression C.round C.mixed C.ROUNDS C.size) value };

    ghost widths = { C.widths };

    ghost wide = { λ value. length_digest C.initial C.round C.mixed C.ROUNDS C.size C.begins value C.WIDTH C.whole };

    ghost bytes = { λ value k. digest_of_small C.initial (compression C.round C.mixed C.ROUNDS C.size) value k };

    fn digest(value: &[u8], out: &mut [u8; 32]) {
        digest_into::<C>(value, out);
    }
}
