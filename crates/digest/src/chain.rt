//! The chaining of blocks, from the first hash value to the bytes of the digest.
ghost use Rattle.std.specs.Prelude.{◌≡◌, ℕ, ◌+◌, ◌*◌, ◌/◌, ◌%◌, ◌≤◌, List, ◌++◌, length, drop};
ghost use Rattle.std.specs.List.{flat_map};
ghost use Rattle.digest.specs.Words.{be4};
ghost use Rattle.digest.specs.Rounds.{turned};
ghost use Rattle.digest.specs.Message.{ending, PaddingRight, block, digest_of};

use super::blocks::{block_words, end_words, put_length};

/// A hash value under way: the compression of one block after another into it is all that sets SHA-1 and SHA-256 apart.
pub trait Compression: Sized {
    /// The hash value as words, at most eight, and how many it has.
    ghost hash: { Self → List ℕ };

    ghost size: { ℕ };

    /// The initial hash value, and the compression of a block of sixteen words into a hash value.
    ghost initial: { List ℕ };

    ghost compressed: { List ℕ → List ℕ → List ℕ };

    fn start() -> Self
        ensures { hash result ≡ initial };

    fn compress(&mut self, words: &[u32; 16])
        ensures { hash self.new ≡ compressed (hash self.old) words.now };

    fn words(&self) -> &[u32]
        ensures value { result.now ≡ hash self.now }
        ensures len { length result.now ≡ size };

    ghost small: { size ≤ 8 };
}

/// How many bytes of the last block come before the length.
const BEFORE_LENGTH: usize = 56;

/// Compresses the blocks of a padded value of `len` bytes that the value does not fill, `rest` being what is left of it
/// there: one block, or two where the length finds no place in the block in which the value ends.
fn compress_end<C: Compression>(state: &mut C, rest: &[u8], len: usize)
    requires { length rest.now ≡ len % 64 }
    ensures { C.hash state.new ≡ turned (λ h i. C.compressed h (block (ending rest.now len) i)) (C.hash state.old) ((length rest.now + 72) / 64) }
{
    let mut words = end_words(rest);
    if rest.len() >= BEFORE_LENGTH {
        state.compress(&words);
        words = [0; 16];
    }
    put_length(&mut words, len);
    state.compress(&words);
}

/// Writes the bytes of `words` over the first bytes of `out`; the others stay.
fn write_words(words: &[u32], out: &mut [u8; 32])
    requires { length words.now ≤ 8 }
    ensures { out.new ≡ flat_map be4 words.now ++ drop (4 * length words.now) out.old }
{
    // By places: what `as_chunks_mut` lends is not known to the proof once it is back.
    for (i, word) in words.iter().enumerate() {
        out[4 * i..4 * i + 4].copy_from_slice(&word.to_be_bytes());
    }
}

/// Writes the digest of `value`, of any length, over the first bytes of `out`; the others stay.
pub fn digest_into<C: Compression + Drop>(value: &[u8], out: &mut [u8; 32])
    ensures value { out.new ≡ digest_of C.initial C.compressed value.now ++ drop (4 * C.size) out.old }
    ensures padding { PaddingRight value.now }
{
    let mut state = C::start();
    let (blocks, rest) = value.as_chunks::<64>();
    for bytes in blocks {
        state.compress(&block_words(bytes));
    }
    compress_end(&mut state, rest, value.len());
    write_words(state.words(), out);
}
