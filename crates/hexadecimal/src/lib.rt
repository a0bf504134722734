//! Bytes as hexadecimal text.
#![tactic(auto)]

ghost use Rattle.std.specs.Prelude.{◌≡◌, ◌<◌, IfOk, Decides};
ghost use Rattle.std.specs.String.{string_bytes};
ghost use Rattle.hexadecimal.specs.Hex.{hex_digit, hex};

use std::alloc::{AllocError, Global};

/// The code of a digit below 16.
fn digit(n: u8) -> u8
    requires { n < 16 }
    ensures { result ≡ hex_digit n }
{
    if n < 10 { b'0' + n } else { b'a' - 10 + n }
}

/// Two digits for each byte, the higher half first, in lower case.
pub fn encode(heap: Global, bytes: &[u8]) -> Result<String, AllocError>
    ensures { IfOk result (λ text. string_bytes text ≡ hex bytes.now) }
{
    let mut text = String::new(heap);
    for b in bytes {
        text.push(char::from(digit(*b / 16)))?;
        text.push(char::from(digit(*b % 16)))?;
    }
    Ok(text)
}

/// Whether the text is that of the bytes.
pub fn is_encoded(bytes: &[u8], text: &[u8]) -> bool
    ensures { Decides result (text.now ≡ hex bytes.now) }
{
    match (bytes, text) {
        ([], []) => true,
        ([byte, bytes @ ..], [high, low, text @ ..]) => {
            *high == digit(*byte / 16) && *low == digit(*byte % 16) && is_encoded(bytes, text)
        }
        _ => false,
    }
}
