//! Making stamps.

ghost use Rattle.std.specs.Prelude.{◌≡◌, true, false, MatchOption};
ghost use Rattle.naming.specs.Stamps.{valid_writer, no_stamp, has_next, next_stamp};

use super::Stamp;

const GREATEST_WRITER: u8 = 16;

impl Stamp {
    /// The stamp of this write, where there is such a writer.
    pub fn new(sequence: u32, writer: u8) -> Option<Stamp>
        ensures { MatchOption result (valid_writer writer ≡ false) (λ s. (valid_writer writer ≡ true) × (s ≡ record { sequence = sequence; writer = writer })) }
    {
        if writer > GREATEST_WRITER {
            return None;
        }
        Some(Stamp { sequence, writer })
    }

    /// The stamp of a key without an entry.
    pub fn none() -> Stamp
        ensures { result ≡ no_stamp }
    {
        Stamp {
            sequence: 0,
            writer: 0,
        }
    }

    /// The stamp of the next write, by this writer: none past the greatest sequence, or if there is no such writer.
    pub fn next(&self, writer: u8) -> Option<Stamp>
        ensures { MatchOption result (has_next self.now writer ≡ false) (λ s. (has_next self.now writer ≡ true) × (s ≡ next_stamp self.now writer)) }
    {
        let sequence = self.sequence.checked_add(1)?;
        Stamp::new(sequence, writer)
    }
}
