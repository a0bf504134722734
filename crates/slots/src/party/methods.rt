//! Making a party, and reading it.

ghost use Rattle.std.specs.Prelude.{◌≡◌, ◌-◌, ◌<◌, ◌≤◌, not};
ghost use Rattle.refusal.specs.declared.Refusal.TheVariants.{UnknownParty};
ghost use Rattle.protocol.specs.State.{valid_party};
ghost use Rattle.protocol.specs.Steps.{or_refused};
ghost use Rattle.slots.specs.Values.{when};

use super::Party;
use refusal::Refusal;

const LAST: u8 = 16;

/// The party of a number, 1 to 16.
impl TryFrom<u8> for Party {
    type Error = Refusal;

    ghost try_from_gives = { λ number r. r ≡ or_refused (when (not (valid_party number)) UnknownParty) number };

    fn try_from(number: u8) -> Result<Party, Refusal> {
        if number < 1 || number > LAST {
            return Err(Refusal::UnknownParty);
        }
        Ok(Party { number })
    }
}

impl Party {
    /// The party's number, 1 to 16.
    pub fn number(&self) -> u8
        ensures value { result ≡ self.now }
        ensures within { (1 ≤ self.now) × (self.now ≤ 16) }
    {
        self.number
    }

    /// Where the party's slot stands among the sixteen.
    pub(crate) fn index(&self) -> usize
        ensures value { result ≡ self.now - 1 }
        ensures within { result < 16 }
    {
        (self.number - 1) as usize
    }
}
