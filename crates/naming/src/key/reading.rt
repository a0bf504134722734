//! Reading a key.

ghost use Rattle.std.specs.Prelude.{◌≡◌, length, Decides};

use super::Key;

impl Key {
    /// How many bytes there are.
    pub fn len(&self) -> usize
        ensures { result ≡ length self.now.bytes }
    {
        self.bytes.len()
    }

    /// The bytes of the key.
    pub fn as_bytes(&self) -> &[u8]
        ensures { result.now ≡ self.now.bytes }
    {
        self.bytes.as_slice()
    }

    /// Whether both have the same bytes.
    pub fn is_same(&self, other: &Key) -> bool
        ensures { Decides result (self.now.bytes ≡ other.now.bytes) }
    {
        self == other
    }
}
