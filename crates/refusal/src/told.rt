//! How a cause, a fault and a refusal are told, and how a fault becomes a refusal.

ghost use Rattle.std.specs.Prelude.{◌≡◌, Some};
ghost use Rattle.refusal.specs.Told.{cause_text, fault_text, refusal_text};
ghost use Rattle.refusal.specs.declared.Refusal.TheVariants.{CloudRefused};

use crate::{Cause, CloudFault, Refusal, Rejected};
use std::error::Error;
use std::fmt;

impl fmt::Display for Cause {
    ghost output = { λ cause. Some (cause_text cause) };

    fn fmt<W: fmt::Write>(&self, f: &mut fmt::Formatter<W>) -> fmt::Result {
        write!(f, "cause {}", self.number())
    }
}

impl Error for Cause {}

impl fmt::Display for CloudFault {
    ghost output = { λ fault. Some (fault_text fault) };

    fn fmt<W: fmt::Write>(&self, f: &mut fmt::Formatter<W>) -> fmt::Result {
        write!(f, "cloud {}, {}", self.cloud, self.cause)
    }
}

impl Error for CloudFault {}

impl fmt::Display for Refusal {
    ghost output = { λ refusal. Some (refusal_text refusal) };

    fn fmt<W: fmt::Write>(&self, f: &mut fmt::Formatter<W>) -> fmt::Result {
        write!(f, "refused with {}", self.number())?;
        match self {
            Refusal::CorruptJournal { offset } => write!(f, " at {offset}"),
            Refusal::CloudRefused(fault) => write!(f, ", {fault}"),
            _ => Ok(()),
        }
    }
}

impl Error for Refusal {}

impl<T> fmt::Display for Rejected<T> {
    ghost output = { λ rejected. Some (refusal_text rejected.refusal) };

    fn fmt<W: fmt::Write>(&self, f: &mut fmt::Formatter<W>) -> fmt::Result {
        write!(f, "{}", self.refusal)
    }
}

impl<T: Drop> Error for Rejected<T> {}

/// A cloud's fault ends the call: `?` hands it on as it is.
impl From<CloudFault> for Refusal {
    ghost from_gives = { λ fault refusal. refusal ≡ CloudRefused fault };

    fn from(fault: CloudFault) -> Refusal {
        Refusal::CloudRefused(fault)
    }
}
