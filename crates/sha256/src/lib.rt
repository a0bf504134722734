//! SHA-256, as FIPS 180-4 defines it.
#![tactic(auto)]

ghost use Rattle.std.specs.Prelude.{◌≡◌};
ghost use Rattle.sha256.specs.Sha256.{sha256 as digested, DigestOfAbc};

use crate::kind::Sha256;
use digest::kind::DigestKind;

mod constants;
pub mod kind;
mod rounds;

/// The SHA-256 digest of `value`. That the definition is the standard's shows at its example, "abc".
// For each kind its own: the length of an array can be no constant of a trait.
pub fn sha256(value: &[u8]) -> [u8; 32]
    ensures value { result ≡ digested value.now }
    ensures example { DigestOfAbc }
{
    let mut out = [0; 32];
    Sha256::digest(value, &mut out);
    out
}
