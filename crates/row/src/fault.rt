//! A cloud's refusal with the cloud's number, on its way up.

ghost use Rattle.std.specs.Prelude.{◌≡◌};
ghost use Rattle.row.specs.Rows.{numbered};

use refusal::{Cause, CloudFault};

/// What the cloud of this number answered; where it refused, the fault has its number, and `?` hands it on.
pub fn at_cloud<T>(cloud: usize, answer: Result<T, Cause>) -> Result<T, CloudFault>
    ensures { result ≡ numbered cloud answer }
{
    answer.map_err(|cause| CloudFault { cloud, cause })
}
