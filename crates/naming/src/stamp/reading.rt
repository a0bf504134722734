//! Reading a stamp.

ghost use Rattle.std.specs.Prelude.{◌≡◌};
ghost use Rattle.naming.specs.Stamps.{ValidStamp};

use super::Stamp;

impl Stamp {
    /// The number of the write.
    pub fn sequence(&self) -> u32
        ensures value { result ≡ self.now.sequence }
        ensures valid { ValidStamp self.now }
    {
        self.sequence
    }

    /// Who wrote.
    pub fn writer(&self) -> u8
        ensures value { result ≡ self.now.writer }
        ensures valid { ValidStamp self.now }
    {
        self.writer
    }
}
