//! The rounds that compress a block, over a message schedule of sixteen words.
ghost use Rattle.std.specs.Prelude.{◌≡◌, ℕ, ◌+◌, ◌-◌, ◌*◌, ◌%◌, ◌≤◌, ◌⊎◌, List, length, slice_index};
ghost use Rattle.digest.specs.Words.{sums};
ghost use Rattle.digest.specs.Rounds.{turned, step, compression, ReadsSixteen};
ghost use Rattle.digest.specs.Widths.{size_small};

use super::chain::Compression;

/// A hash value under way, which is also the working variables of its rounds: its words, its rounds and its message
/// schedule make its compression, and its digests.
// Its words are behind methods: over a `[u32; N]` the one implementation of `DigestKind` for all kinds could not name N.
pub trait Rounds: Copy {
    /// How many bytes a digest has.
    const WIDTH: usize;

    /// How many rounds compress a block.
    const ROUNDS: usize;

    ghost WIDTH: { ℕ };

    ghost ROUNDS: { ℕ };

    /// The hash value as words, and how many it has.
    ghost hash: { Self → List ℕ };

    ghost size: { ℕ };

    /// The initial hash value, a round, and the mix of the message schedule.
    ghost initial: { List ℕ };

    ghost round: { List ℕ → ℕ → ℕ → List ℕ };

    ghost mixed: { (ℕ → ℕ) → ℕ };

    fn start() -> Self
        ensures { hash result ≡ initial };

    /// The word `t` of the schedule, from the sixteen words before it.
    fn later_word(window: &[u32; 16], t: usize) -> u32
        ensures { result ≡ mixed (λ k. slice_index window.now ((t - k) % 16)) };

    /// The round `t` with the word `w`.
    fn round(self, t: usize, w: u32) -> Self
        ensures { hash result ≡ round (hash self) t w };

    /// The sums of the words of both, place by place.
    fn plus(self, h: Self) -> Self
        ensures { hash result ≡ sums size (hash self) (hash h) };

    fn words(&self) -> &[u32]
        ensures value { result.now ≡ hash self.now }
        ensures len { length result.now ≡ size };

    ghost widths: { (WIDTH ≡ 20) ⊎ (WIDTH ≡ 32) };

    ghost whole: { 4 * size ≡ WIDTH };

    ghost begins: { length initial ≡ size };

    ghost counts: { (ROUNDS ≡ 64) ⊎ (ROUNDS ≡ 80) };

    ghost reads: { ReadsSixteen mixed };
}

impl<C: Rounds> Compression for C {
    ghost hash = { C.hash };

    ghost size = { C.size };

    ghost initial = { C.initial };

    ghost compressed = { compression C.round C.mixed C.ROUNDS C.size };

    ghost small = { size_small C.size C.WIDTH C.widths C.whole };

    fn start() -> C {
        C::start()
    }

    fn compress(&mut self, words: &[u32; 16]) {
        *self = compressed(*self, words);
    }

    fn words(&self) -> &[u32] {
        Rounds::words(self)
    }
}

/// The round `t`, after which the window holds its word.
fn turn<C: Rounds>(v: C, window: &mut [u32; 16], t: usize) -> C
    ensures { (C.hash result, window.new) ≡ step C.round C.mixed (C.hash v, window.old) t }
{
    if t >= 16 {
        window[t % 16] = C::later_word(window, t);
    }
    v.round(t, window[t % 16])
}

/// The sixteen rounds from `FROM` on, written out: each then has a constant number, which takes the tests of its number
/// and the remainders away. A loop over them, even of just these sixteen, takes from 1.15 to 1.8 times as long.
fn sixteen_rounds<C: Rounds, const FROM: usize>(v: C, window: &mut [u32; 16]) -> C
    requires { FROM + 16 ≤ C.ROUNDS }
    ensures { (C.hash result, window.new) ≡ turned (λ s t. step C.round C.mixed s (FROM + t)) (C.hash v, window.old) 16 }
{
    let v = turn(v, window, FROM);
    let v = turn(v, window, FROM + 1);
    let v = turn(v, window, FROM + 2);
    let v = turn(v, window, FROM + 3);
    let v = turn(v, window, FROM + 4);
    let v = turn(v, window, FROM + 5);
    let v = turn(v, window, FROM + 6);
    let v = turn(v, window, FROM + 7);
    let v = turn(v, window, FROM + 8);
    let v = turn(v, window, FROM + 9);
    let v = turn(v, window, FROM + 10);
    let v = turn(v, window, FROM + 11);
    let v = turn(v, window, FROM + 12);
    let v = turn(v, window, FROM + 13);
    let v = turn(v, window, FROM + 14);
    turn(v, window, FROM + 15)
}

/// The hash value after a block, from the one before it.
fn compressed<C: Rounds>(h: C, words: &[u32; 16]) -> C
    ensures { C.hash result ≡ compression C.round C.mixed C.ROUNDS C.size (C.hash h) words.now }
{
    let mut window = *words;
    let v = sixteen_rounds::<C, 0>(h, &mut window);
    let v = sixteen_rounds::<C, 16>(v, &mut window);
    let v = sixteen_rounds::<C, 32>(v, &mut window);
    let mut v = sixteen_rounds::<C, 48>(v, &mut window);
    if C::ROUNDS == 80 {
        v = sixteen_rounds::<C, 64>(v, &mut window);
    }
    v.plus(h)
}
