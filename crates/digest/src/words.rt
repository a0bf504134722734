//! The functions on words that SHA-1 and SHA-256 share.
ghost use Rattle.std.specs.Prelude.{◌≡◌};
ghost use Rattle.digest.specs.Words.{ch, maj, sums as sums_of};

/// Each bit of `x` chooses the bit of `y` or of `z`.
pub fn choose(x: u32, y: u32, z: u32) -> u32
    ensures { result ≡ ch x y z }
{
    (x & y) ^ (!x & z)
}

/// Each bit is the one that two of the three words have.
pub fn majority(x: u32, y: u32, z: u32) -> u32
    ensures { result ≡ maj x y z }
{
    (x & y) ^ (x & z) ^ (y & z)
}

/// The sums of the words of `xs` and `ys`, place by place.
pub fn sums<const N: usize>(xs: [u32; N], ys: [u32; N]) -> [u32; N]
    ensures { result ≡ sums_of N xs.entry ys.entry }
{
    let mut out = [0; N];
    for (i, x) in xs.iter().enumerate() {
        out[i] = x.wrapping_add(ys[i]);
    }
    out
}
