//! SHA-1 as a digest function.
ghost use Rattle.std.specs.Prelude.{refl};
ghost use Rattle.sha1_digest.specs.Constants.{initial as first};
ghost use Rattle.sha1_digest.specs.Sha1.{round as rounded, mixed as mixed_words};
ghost use Rattle.sha1_digest.specs.Schedule.{reads_sixteen};
ghost use Rattle.std.proofs.Common.{rules};

use super::constants::INITIAL;
use super::rounds::{combine, constant};
use digest::rounds::Rounds;
use digest::words::sums;

/// A SHA-1 hash value under way.
#[derive(Clone, Copy)]
pub struct Sha1 {
    words: [u32; 5],
}

impl Rounds for Sha1 {
    const WIDTH: usize = 20;

    const ROUNDS: usize = 80;

    ghost WIDTH = { 20 };

    ghost ROUNDS = { 80 };

    ghost hash = { λ s. s.words };

    ghost size = { 5 };

    ghost initial = { first };

    ghost round = { rounded };

    ghost mixed = { mixed_words };

    ghost widths = { Prim.search rules };

    ghost whole = { Prim.search rules };

    ghost begins = { refl };

    ghost counts = { Prim.search rules };

    ghost reads = { reads_sixteen };

    fn start() -> Sha1 {
        Sha1 { words: INITIAL }
    }

    fn later_word(window: &[u32; 16], t: usize) -> u32 {
        let words = window[t.saturating_sub(3) % 16]
            ^ window[t.saturating_sub(8) % 16]
            ^ window[t.saturating_sub(14) % 16]
            ^ window[t.saturating_sub(16) % 16];
        words.rotate_left(1)
    }

    fn round(self, t: usize, w: u32) -> Sha1 {
        let [a, b, c, d, e] = self.words;
        let x = a
            .rotate_left(5)
            .wrapping_add(combine(t, b, c, d))
            .wrapping_add(e)
            .wrapping_add(constant(t))
            .wrapping_add(w);
        Sha1 {
            words: [x, a, b.rotate_left(30), c, d],
        }
    }

    fn plus(self, h: Sha1) -> Sha1 {
        Sha1 {
            words: sums(self.words, h.words),
        }
    }

    fn words(&self) -> &[u32] {
        &self.words
    }
}
