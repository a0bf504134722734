//! Saves that are under way.

ghost use Rattle.std.specs.Prelude.{◌≡◌, ◌≤◌, true};
ghost use Rattle.naming.specs.Stamps.{ValidStamp};
ghost use Rattle.digest.specs.Value.{digest_bytes};
ghost use Rattle.entry.specs.Bytes.{digest_fits};

use digest::value::Digest;
use entry::clouds::CloudSet;
use naming::address::Address;
use naming::stamp::Stamp;

mod methods;

/// A save that is under way: all that its entry will have, and the clouds that have acknowledged the value so far.
// No `impl Model`: a save is copied, and what is known of its key and of its digest is not got back from what it stands for.
#[derive(Clone, Copy)]
pub struct Saving {
    at: Address,
    stamp: Stamp,
    size: u16,
    digest: Digest,
    stored: CloudSet,
    ghost known: { ValidStamp stamp },
    ghost numbered: { 1 ≤ stamp.sequence },
    ghost written: { 1 ≤ stamp.writer },
    ghost sized: { size ≤ 1024 },
    ghost wide: { digest_fits (digest_bytes digest) ≡ true },
    ghost few: { stored ≤ 127 },
}
