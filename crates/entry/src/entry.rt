//! The entry of a key.

ghost use Rattle.std.specs.Prelude.{◌≤◌};
ghost use Rattle.naming.specs.Stamps.{ValidStamp};

use crate::live::Live;
use naming::stamp::Stamp;

mod methods;

/// The last write to a key: its stamp, neither number of which is 0, and the value, or none where the key was deleted.
// No `impl Model`: what is proved of directories reads the limits off each entry that they hold.
#[derive(Clone, Copy)]
pub struct Entry {
    stamp: Stamp,
    live: Option<Live>,
    ghost known: { ValidStamp stamp },
    ghost numbered: { 1 ≤ stamp.sequence },
    ghost written: { 1 ≤ stamp.writer },
}
