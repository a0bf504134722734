//! Listing a container.

ghost use Rattle.protocol.specs.Events.{listed};
ghost use Rattle.locker.specs.Held.{SteppedAlone};

use super::Locker;
use digest::kind::DigestKind;
use directory::interface::Directory;
use listing::list::list;
use protocol::answers::Listed;
use refusal::Refusal;
use row::interface::Row;

impl<D: Directory, R: Row, K: DigestKind> Locker<D, R, K> {
    /// Writes the container's keys that have a value to the front of the buffer, ascending, each as its length in a byte
    /// and its bytes, and answers how many keys and bytes these are.
    pub fn list(&mut self, container: u8, buffer: &mut [u8]) -> Result<Listed, Refusal>
        ensures { SteppedAlone D.meaning R.clouds K.digested self.old (listed container buffer.old buffer.new result) self.new }
    {
        list(&mut self.directory, container, buffer).ok_or(Refusal::BufferTooShort)
    }
}
