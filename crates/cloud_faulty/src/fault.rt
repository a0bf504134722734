//! What a call can be made to do.

ghost use Rattle.std.specs.Prelude.{Some};
ghost use Rattle.cloud_faulty.specs.Faults.{Decodes, unknown_text};

use std::error::Error;
use std::fmt;

/// What one call at a faulty cloud does.
#[derive(Clone, Copy, Debug, Default, PartialEq, Eq)]
pub enum Fault {
    /// The call is passed on, as each is after a script's last fault.
    #[default]
    Pass,
    /// No answer, and the cloud below is not asked.
    Silence,
    /// Success is claimed, and the cloud below is not asked.
    FalseSuccess,
    /// The call is passed on, and the lowest bit of the first byte that a get wrote is flipped.
    FlippedBit,
}

/// A code that is no fault's.
#[derive(Clone, Copy, Debug, PartialEq, Eq)]
pub struct UnknownFault(pub u8);

/// The codes are 0 to 3.
impl TryFrom<u8> for Fault {
    type Error = UnknownFault;

    ghost try_from_gives = { Decodes };

    fn try_from(code: u8) -> Result<Fault, UnknownFault> {
        match code {
            0 => Ok(Fault::Pass),
            1 => Ok(Fault::Silence),
            2 => Ok(Fault::FalseSuccess),
            3 => Ok(Fault::FlippedBit),
            _ => Err(UnknownFault(code)),
        }
    }
}

impl fmt::Display for UnknownFault {
    ghost output = { λ e. Some (unknown_text e) };

    fn fmt<W: fmt::Write>(&self, f: &mut fmt::Formatter<W>) -> fmt::Result {
        write!(f, "no fault has the code {}", self.0)
    }
}

impl Error for UnknownFault {}
