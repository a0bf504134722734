//! What an entry says of a value that is there.

ghost use Rattle.std.specs.Prelude.{◌≡◌, ◌≤◌, true};
ghost use Rattle.digest.specs.Value.{digest_bytes};
ghost use Rattle.entry.specs.Bytes.{digest_fits};

use crate::clouds::CloudSet;
use digest::value::Digest;

mod methods;

/// The longest value.
pub const LONGEST_VALUE: usize = 1024;

/// A value that is there: the clouds that hold it, its size and its digest.
// No `impl Model`: what is proved of directories reads the limits off each value that an entry has.
#[derive(Clone, Copy)]
pub struct Live {
    // At least one.
    clouds: CloudSet,
    size: u16,
    digest: Digest,
    ghost listed: { 1 ≤ clouds },
    ghost few: { clouds ≤ 127 },
    ghost sized: { size ≤ 1024 },
    ghost wide: { digest_fits (digest_bytes digest) ≡ true },
}
