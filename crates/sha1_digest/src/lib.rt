//! SHA-1, as FIPS 180-4 defines it.
#![tactic(auto)]

ghost use Rattle.std.specs.Prelude.{◌≡◌};
ghost use Rattle.sha1_digest.specs.Sha1.{sha1 as digested, DigestOfAbc};

use crate::kind::Sha1;
use digest::kind::DigestKind;

mod constants;
pub mod kind;
mod rounds;

/// The SHA-1 digest of `value`. That the definition is the standard's shows at its example, "abc".
// For each kind its own: the length of an array can be no constant of a trait.
pub fn sha1(value: &[u8]) -> [u8; 20]
    ensures value { result ≡ digested value.now }
    ensures example { DigestOfAbc }
{
    let mut out = [0; 32];
    Sha1::digest(value, &mut out);
    <[u8; 20]>::try_from(&out[..20]).unwrap()
}
