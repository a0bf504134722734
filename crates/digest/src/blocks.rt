//! The blocks of a value, as sixteen words each.
ghost use Rattle.std.specs.Prelude.{◌≡◌, ◌*◌, ◌<◌, length, slice_set};
ghost use Rattle.digest.specs.Words.{word};
ghost use Rattle.digest.specs.Message.{be8, marked, block};

/// The sixteen words of a block of bytes.
pub(crate) fn block_words(bytes: &[u8; 64]) -> [u32; 16]
    ensures { result ≡ block bytes.now 0 }
{
    let mut words = [0; 16];
    for (t, bytes) in bytes.as_chunks::<4>().0.iter().enumerate() {
        words[t] = u32::from_be_bytes(*bytes);
    }
    words
}

/// The word of the last bytes of a value, fewer than four, with the mark after them.
fn end_word(tail: &[u8]) -> u32
    requires { length tail.now < 4 }
    ensures { result ≡ word (marked tail.now) 0 }
{
    match tail {
        [] => 0x8000_0000,
        [a] => u32::from_be_bytes([*a, 0x80, 0, 0]),
        [a, b] => u32::from_be_bytes([*a, *b, 0x80, 0]),
        [a, b, c, ..] => u32::from_be_bytes([*a, *b, *c, 0x80]),
    }
}

/// The sixteen words of the block in which a value ends, `rest` being what it has there: that, the mark, and zeros.
pub(crate) fn end_words(rest: &[u8]) -> [u32; 16]
    requires { length rest.now < 64 }
    ensures { result ≡ block (marked rest.now) 0 }
{
    // By words: a copy of as many bytes as there are would be a call of C's `memcpy`, which a caller in C may not have.
    let (whole, tail) = rest.as_chunks::<4>();
    let mut words = [0; 16];
    for (t, four) in whole.iter().enumerate() {
        words[t] = u32::from_be_bytes(*four);
    }
    words[whole.len()] = end_word(tail);
    words
}

/// Writes the length in bits of a value of `len` bytes into the last two words of a block.
pub(crate) fn put_length(words: &mut [u32; 16], len: usize)
    ensures { words.new ≡ slice_set (slice_set words.old 14 (word (be8 (8 * len)) 0)) 15 (word (be8 (8 * len)) 1) }
{
    let bits = (len as u64).wrapping_mul(8);
    words[14] = (bits >> 32) as u32;
    words[15] = (bits & 0xffff_ffff) as u32;
}
