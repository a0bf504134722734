//! A line as `sha256sum` writes and `sha256sum -c` reads it: a digest and the name of its file.
#![tactic(auto)]

ghost use Rattle.std.specs.Prelude.{◌≡◌, ◌++◌, IfOk, OnOk};
ghost use Rattle.checksum.specs.Line.{escape, escaped, has_special, is_special, line_of};

use std::alloc::{AllocError, Global};

/// Whether a byte of a name would be misread in a line.
fn is_special(b: u8) -> bool
    ensures { result ≡ is_special b }
{
    matches!(b, b'\\' | b'\n' | b'\r')
}

fn has_special(name: &[u8]) -> bool
    ensures { result ≡ has_special name.now }
{
    name.iter().any(|b| is_special(*b))
}

fn push_escaped(text: &mut Vec<u8>, b: u8) -> Result<(), AllocError>
    ensures { OnOk result (text.new.items ≡ text.old.items ++ escape b) }
{
    match b {
        b'\\' => text.extend_from_slice(b"\\\\"),
        b'\n' => text.extend_from_slice(b"\\n"),
        b'\r' => text.extend_from_slice(b"\\r"),
        other => text.extend_from_slice(&[other]),
    }
}

fn escape_name(heap: Global, name: &[u8]) -> Result<Vec<u8>, AllocError>
    ensures { IfOk result (λ text. text.items ≡ escaped name.now) }
{
    let mut text = Vec::new(heap);
    for b in name {
        push_escaped(&mut text, *b)?;
    }
    Ok(text)
}

/// The line of a digest and a name, with its line feed.
pub fn line(heap: Global, digest: &[u8], name: &[u8]) -> Result<Vec<u8>, AllocError>
    ensures { IfOk result (λ text. text.items ≡ line_of digest.now name.now) }
{
    let mut text = Vec::new(heap);
    if has_special(name) {
        text.push(b'\\')?;
    }
    let digits = hexadecimal::encode(heap, digest)?;
    text.extend_from_slice(digits.as_bytes())?;
    text.extend_from_slice(b"  ")?;
    let safe_name = escape_name(heap, name)?;
    text.extend_from_slice(safe_name.as_slice())?;
    text.push(b'\n')?;
    Ok(text)
}
