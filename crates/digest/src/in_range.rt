//! Rounds that are there for their own numbers alone.
ghost use Rattle.std.specs.Prelude.{◌≡◌, ℕ, ◌+◌, ◌-◌, ◌*◌, ◌%◌, ◌<◌, ◌≤◌, ◌⊎◌, List, length, slice_index};
ghost use Rattle.digest.specs.Words.{sums};
ghost use Rattle.digest.specs.Rounds.{ReadsSixteen};
ghost use Rattle.digest.specs.InRange.{in_range};

use super::rounds::Rounds;

/// A hash value under way as `Rounds` has it, but that a round need only be there for the numbers below `ROUNDS`, and a
/// later word for those from 16 on: the compression of a block uses no others. `Rounds` follows, in which the hash value
/// stays past the last round; and with it the compression and the digest, which are those of the rounds given here by the
/// laws `compression_in_range` and `digest_in_range`.
pub trait RoundsInRange: Copy {
    /// How many bytes a digest has.
    const WIDTH: usize;

    /// How many rounds compress a block.
    const ROUNDS: usize;

    ghost WIDTH: { ℕ };

    ghost ROUNDS: { ℕ };

    /// The hash value as words, and how many it has.
    ghost hash: { Self → List ℕ };

    ghost size: { ℕ };

    /// The initial hash value, a round, and the mix of the message schedule.
    ghost initial: { List ℕ };

    ghost round: { List ℕ → ℕ → ℕ → List ℕ };

    ghost mixed: { (ℕ → ℕ) → ℕ };

    fn start() -> Self
        ensures { hash result ≡ initial };

    /// The word `t` of the schedule, from the sixteen words before it.
    fn later_word(window: &[u32; 16], t: usize) -> u32
        requires { 16 ≤ t }
        ensures { result ≡ mixed (λ k. slice_index window.now ((t - k) % 16)) };

    /// The round `t` with the word `w`.
    fn round(self, t: usize, w: u32) -> Self
        requires { t < ROUNDS }
        ensures { hash result ≡ round (hash self) t w };

    /// The sums of the words of both, place by place.
    fn plus(self, h: Self) -> Self
        ensures { hash result ≡ sums size (hash self) (hash h) };

    fn words(&self) -> &[u32]
        ensures value { result.now ≡ hash self.now }
        ensures len { length result.now ≡ size };

    ghost widths: { (WIDTH ≡ 20) ⊎ (WIDTH ≡ 32) };

    ghost whole: { 4 * size ≡ WIDTH };

    ghost begins: { length initial ≡ size };

    ghost counts: { (ROUNDS ≡ 64) ⊎ (ROUNDS ≡ 80) };

    ghost reads: { ReadsSixteen mixed };
}

impl<C: RoundsInRange> Rounds for C {
    const WIDTH: usize = <C as RoundsInRange>::WIDTH;

    const ROUNDS: usize = <C as RoundsInRange>::ROUNDS;

    ghost WIDTH = { C.WIDTH };

    ghost ROUNDS = { C.ROUNDS };

    ghost hash = { C.hash };

    ghost size = { C.size };

    ghost initial = { C.initial };

    ghost round = { in_range C.ROUNDS C.round };

    ghost mixed = { C.mixed };

    ghost widths = { C.widths };

    ghost whole = { C.whole };

    ghost begins = { C.begins };

    ghost counts = { C.counts };

    ghost reads = { C.reads };

    fn start() -> C {
        <C as RoundsInRange>::start()
    }

    fn later_word(window: &[u32; 16], t: usize) -> u32 {
        if t >= 16 {
            return <C as RoundsInRange>::later_word(window, t);
        }
        <C as RoundsInRange>::later_word(&moved(window, t), 16)
    }

    fn round(self, t: usize, w: u32) -> C {
        if t < <C as RoundsInRange>::ROUNDS {
            RoundsInRange::round(self, t, w)
        } else {
            self
        }
    }

    fn plus(self, h: C) -> C {
        RoundsInRange::plus(self, h)
    }

    fn words(&self) -> &[u32] {
        RoundsInRange::words(self)
    }
}

/// The window in which the word 16 has before it what the word `t`, below 16, has before it in `window`; before the
/// first word stands the first.
fn moved(window: &[u32; 16], t: usize) -> [u32; 16]
    requires { t < 16 }
    ensures { (k : ℕ) → k < 16 → slice_index result k ≡ slice_index window.now (t + k - 16) }
{
    std::array::from_fn(|k| window[(t + k).saturating_sub(16)])
}
