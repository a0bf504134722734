//! Records written into bytes.

ghost use Rattle.std.specs.Prelude.{◌≡◌, ◌≤◌, length, nat_le};
ghost use Rattle.cloud.specs.Meaning.{longest_name, longest_value};
ghost use Rattle.log_record.specs.Records.{framed, stored, dropped, RecordsReadBack};
ghost use Rattle.log_record.specs.Written.{Written, WrittenWhere};

use crate::limits::LENGTHS;
use cloud::limits::{LONGEST_NAME, LONGEST_VALUE};

// The size of a dropped name's value: more than any value's.
const NO_SIZE: [u8; 2] = [255, 255];

/// Writes the record of a value put under a name, and answers where it ends.
pub fn write_stored(bytes: &mut [u8], at: usize, name: &[u8], value: &[u8]) -> Option<usize>
    ensures written { Written bytes.old at (stored name.now value.now) result bytes.new }
    ensures read_back { RecordsReadBack }
{
    if value.len() > LONGEST_VALUE {
        return None;
    }
    let size = (value.len() as u16).to_be_bytes();
    write_record(bytes, at, name, size, value)
}

/// Writes the record of a name dropped, and answers where it ends.
pub fn write_dropped(bytes: &mut [u8], at: usize, name: &[u8]) -> Option<usize>
    ensures { Written bytes.old at (dropped name.now) result bytes.new }
{
    write_record(bytes, at, name, NO_SIZE, &[])
}

// Writes the record of these parts, where the name is not too long and there is room.
fn write_record(
    bytes: &mut [u8],
    at: usize,
    name: &[u8],
    size: [u8; 2],
    value: &[u8],
) -> Option<usize>
    requires { length value.now ≤ longest_value }
    ensures { WrittenWhere (nat_le (length name.now) longest_name) (framed name.now size value.now) bytes.old at result bytes.new }
{
    if name.len() > LONGEST_NAME {
        return None;
    }
    let end = at.checked_add(LENGTHS + name.len() + value.len())?;
    if end > bytes.len() {
        return None;
    }
    fill(&mut bytes[at..end], name, size, value);
    Some(end)
}

// Fills the place of a record with its parts.
fn fill(place: &mut [u8], name: &[u8], size: [u8; 2], value: &[u8])
    requires short { length name.now ≤ longest_name }
    requires exact { length place.old ≡ length (framed name.now size value.now) }
    ensures { place.new ≡ framed name.now size value.now }
{
    let (length_place, rest) = place.split_at_mut(1);
    let (name_place, rest) = rest.split_at_mut(name.len());
    let (size_place, value_place) = rest.split_at_mut(2);
    length_place.copy_from_slice(&[name.len() as u8]);
    name_place.copy_from_slice(name);
    size_place.copy_from_slice(&size);
    value_place.copy_from_slice(value);
}
