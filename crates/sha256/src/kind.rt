//! SHA-256 as a digest function.
ghost use Rattle.std.specs.Prelude.{refl};
ghost use Rattle.sha256.specs.Constants.{initial as first};
ghost use Rattle.sha256.specs.Sha256.{round as rounded, mixed as mixed_words};
ghost use Rattle.sha256.specs.Schedule.{reads_sixteen};
ghost use Rattle.std.proofs.Common.{rules};

use super::constants::INITIAL;
use super::rounds::{big_sigma, constant, small_sigma};
use digest::rounds::Rounds;
use digest::words::{choose, majority, sums};

/// A SHA-256 hash value under way.
#[derive(Clone, Copy)]
pub struct Sha256 {
    words: [u32; 8],
}

impl Rounds for Sha256 {
    const WIDTH: usize = 32;

    const ROUNDS: usize = 64;

    ghost WIDTH = { 32 };

    ghost ROUNDS = { 64 };

    ghost hash = { λ s. s.words };

    ghost size = { 8 };

    ghost initial = { first };

    ghost round = { rounded };

    ghost mixed = { mixed_words };

    ghost widths = { Prim.search rules };

    ghost whole = { Prim.search rules };

    ghost begins = { refl };

    ghost counts = { Prim.search rules };

    ghost reads = { reads_sixteen };

    fn start() -> Sha256 {
        Sha256 { words: INITIAL }
    }

    fn later_word(window: &[u32; 16], t: usize) -> u32 {
        small_sigma::<17, 19, 10>(window[t.saturating_sub(2) % 16])
            .wrapping_add(window[t.saturating_sub(7) % 16])
            .wrapping_add(small_sigma::<7, 18, 3>(window[t.saturating_sub(15) % 16]))
            .wrapping_add(window[t.saturating_sub(16) % 16])
    }

    fn round(self, t: usize, w: u32) -> Sha256 {
        let [a, b, c, d, e, f, g, h] = self.words;
        let t1 = h
            .wrapping_add(big_sigma::<6, 11, 25>(e))
            .wrapping_add(choose(e, f, g))
            .wrapping_add(constant(t))
            .wrapping_add(w);
        let t2 = big_sigma::<2, 13, 22>(a).wrapping_add(majority(a, b, c));
        Sha256 {
            words: [t1.wrapping_add(t2), a, b, c, d.wrapping_add(t1), e, f, g],
        }
    }

    fn plus(self, h: Sha256) -> Sha256 {
        Sha256 {
            words: sums(self.words, h.words),
        }
    }

    fn words(&self) -> &[u32] {
        &self.words
    }
}
