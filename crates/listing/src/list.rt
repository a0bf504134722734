//! The listing of a container. The directory is walked twice, so that a buffer that is too short stays as it was.

ghost use Rattle.std.specs.Prelude.{◌≡◌, ◌+◌, ◌≤◌, ◌∷◌, ◌++◌, length, drop};
ghost use Rattle.protocol.specs.Listing.{keys_of, listing};
ghost use Rattle.listing.specs.Sizes.{listed, listed_over, measured};

use crate::keys::LiveKeys;
use directory::interface::Directory;
use naming::key::Key;
use protocol::answers::Listed;

/// Writes each live key of the container, ascending, as a length byte and the key's bytes; what follows them in the
/// buffer stays. Where they do not fit, there is no answer, and the buffer stays as it was.
pub fn list<D: Directory>(directory: &mut D, container: u8, buffer: &mut [u8]) -> Option<Listed>
    ensures answer { result ≡ listed (keys_of (D.meaning directory.old) container) buffer.old }
    ensures written { buffer.new ≡ listed_over (keys_of (D.meaning directory.old) container) buffer.old }
    ensures same { D.meaning directory.new ≡ D.meaning directory.old }
{
    let size = measure(directory, container);
    if buffer.len() < size.bytes {
        return None;
    }
    write(directory, container, buffer);
    Some(size)
}

// How many keys there are, and how many bytes their listing has.
fn measure<D: Directory>(directory: &mut D, container: u8) -> Listed
    ensures value { result ≡ measured (keys_of (D.meaning directory.old) container) }
    ensures same { D.meaning directory.new ≡ D.meaning directory.old }
{
    let mut size = Listed { count: 0, bytes: 0 };
    for key in LiveKeys::new(directory, container) {
        size.count += 1;
        size.bytes += 1 + key.len();
    }
    size
}

// Writes the listing, for which there is room.
fn write<D: Directory>(directory: &mut D, container: u8, buffer: &mut [u8])
    requires { length (listing (keys_of (D.meaning directory.old) container)) ≤ length buffer.old }
    ensures written { buffer.new ≡ listing (keys_of (D.meaning directory.old) container) ++ drop (length (listing (keys_of (D.meaning directory.old) container))) buffer.old }
    ensures same { D.meaning directory.new ≡ D.meaning directory.old }
{
    // An offset: of a slice that the loop shortens, no proof knows what was written before it.
    let mut at = 0;
    for key in LiveKeys::new(directory, container) {
        let (_, place) = buffer.split_at_mut(at);
        at += put_key(place, &key);
    }
}

// Writes a key with its length before it to the front of the place, and answers how many bytes they are.
fn put_key(place: &mut [u8], key: &Key) -> usize
    requires { 1 + length key.now.bytes ≤ length place.old }
    ensures size { result ≡ 1 + length key.now.bytes }
    ensures written { place.new ≡ length key.now.bytes ∷ (key.now.bytes ++ drop result place.old) }
{
    let size = 1 + key.len();
    place[0] = key.len() as u8;
    place[1..size].copy_from_slice(key.as_bytes());
    size
}
