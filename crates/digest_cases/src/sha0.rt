//! SHA-0, the withdrawn first version of SHA-1: a digest whose rounds are there for their own numbers alone.
ghost use Rattle.std.specs.Prelude.{refl};
ghost use Rattle.std.proofs.Common.{rules};
ghost use Rattle.sha1_digest.specs.Constants.{initial as first};
ghost use Rattle.sha1_digest.specs.Sha1.{round as rounded};
ghost use Rattle.digest_cases.specs.Sha0.{mixed as mixed_words, reads_sixteen};

use digest::in_range::RoundsInRange;
use digest::words::{choose, majority, sums};

const K: [u32; 4] = [0x5a827999, 0x6ed9eba1, 0x8f1bbcdc, 0xca62c1d6];

/// A SHA-0 hash value under way.
#[derive(Clone, Copy)]
pub(crate) struct Sha0 {
    words: [u32; 5],
}

impl RoundsInRange for Sha0 {
    const WIDTH: usize = 20;

    const ROUNDS: usize = 80;

    ghost WIDTH = { 20 };

    ghost ROUNDS = { 80 };

    ghost hash = { λ s. s.words };

    ghost size = { 5 };

    ghost initial = { first };

    ghost round = { rounded };

    ghost mixed = { mixed_words };

    ghost widths = { Prim.search rules };

    ghost whole = { Prim.search rules };

    ghost begins = { refl };

    ghost counts = { Prim.search rules };

    ghost reads = { reads_sixteen };

    fn start() -> Sha0 {
        Sha0 {
            words: [0x67452301, 0xefcdab89, 0x98badcfe, 0x10325476, 0xc3d2e1f0],
        }
    }

    fn later_word(window: &[u32; 16], t: usize) -> u32 {
        window[(t - 3) % 16] ^ window[(t - 8) % 16] ^ window[(t - 14) % 16] ^ window[(t - 16) % 16]
    }

    fn round(self, t: usize, w: u32) -> Sha0 {
        let [a, b, c, d, e] = self.words;
        let f = match t / 20 {
            0 => choose(b, c, d),
            2 => majority(b, c, d),
            _ => b ^ c ^ d,
        };
        let x = a
            .rotate_left(5)
            .wrapping_add(f)
            .wrapping_add(e)
            .wrapping_add(K[t / 20])
            .wrapping_add(w);
        Sha0 {
            words: [x, a, b.rotate_left(30), c, d],
        }
    }

    fn plus(self, h: Sha0) -> Sha0 {
        Sha0 {
            words: sums(self.words, h.words),
        }
    }

    fn words(&self) -> &[u32] {
        &self.words
    }
}
