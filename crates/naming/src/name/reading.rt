//! Reading a name.

ghost use Rattle.std.specs.Prelude.{◌≡◌, ◌≤◌, length};
ghost use Rattle.naming.specs.Limits.{longest_name};

use super::Name;
use byte_strings::named::Named;

impl Name {
    /// How many bytes there are.
    pub fn len(&self) -> usize
        ensures value { result ≡ length self.now }
        ensures short { length self.now ≤ longest_name }
    {
        self.bytes.len()
    }

    /// The bytes of the name.
    pub fn as_bytes(&self) -> &[u8]
        ensures value { result.now ≡ self.now }
        ensures short { length self.now ≤ longest_name }
    {
        self.bytes.as_slice()
    }
}

/// Names are in the order of their bytes.
impl Named for Name {
    ghost name = { λ n. n };

    fn name(&self) -> &[u8] {
        self.as_bytes()
    }
}
