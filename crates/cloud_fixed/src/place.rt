//! A place: a name and its value, in 1,066 bytes without a gap.

ghost use Rattle.std.specs.Prelude.{◌≡◌, ◌≤◌, length, take};
ghost use Rattle.cloud.specs.Meaning.{longest_name, longest_value};

use byte_strings::named::Named;
use cloud::limits::{LONGEST_NAME, LONGEST_VALUE};
use std::marker::Model;

/// Memory for one name of up to 39 bytes and its value of up to 1,024.
// The bytes stand beside lengths of one and two bytes, since the size of a place is promised.
#[derive(Drop)]
pub struct Place {
    value_len: u16,
    name_len: u8,
    name: [u8; LONGEST_NAME],
    value: [u8; LONGEST_VALUE],
}

/// Clauses see the name and the value.
impl Model for Place {
    ghost use Rattle.std.specs.Prelude.{◌≤◌, ℕ, List, take};
    ghost use Rattle.cloud.specs.Meaning.{longest_name, longest_value};

    ghost Value = { List ℕ × List ℕ };

    ghost view = { λ p. (take p.name_len p.name, take p.value_len p.value) };

    ghost invariant = { λ p. (p.name_len ≤ longest_name) × (p.value_len ≤ longest_value) };
}

impl Place {
    /// How many bytes one place takes.
    pub fn size() -> usize
        ensures { result ≡ 1066 }
    {
        size_of::<Place>()
    }

    pub(crate) fn new(name: &[u8], value: &[u8]) -> Place
        requires name { length name.now ≤ longest_name }
        requires value { length value.now ≤ longest_value }
        ensures { result ≡ (name.now, value.now) }
    {
        Place {
            value_len: value.len() as u16,
            name_len: name.len() as u8,
            name: padded(name),
            value: padded(value),
        }
    }

    pub(crate) fn value(&self) -> &[u8]
        ensures { result.now ≡ self.now.1 }
    {
        &self.value[..self.value_len as usize]
    }
}

impl Named for Place {
    ghost name = { λ p. p.0 };

    fn name(&self) -> &[u8] {
        &self.name[..self.name_len as usize]
    }
}

// The bytes at the front of an array, and zeros past them.
fn padded<const N: usize>(bytes: &[u8]) -> [u8; N]
    requires { length bytes.now ≤ N }
    ensures { take (length bytes.now) result ≡ bytes.now }
{
    let mut all = [0; N];
    all[..bytes.len()].copy_from_slice(bytes);
    all
}
