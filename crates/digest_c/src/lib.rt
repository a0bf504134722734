//! The digests as functions for C. A slice passes as a pointer and a length.
#![tactic(auto)]

ghost use Rattle.std.specs.Prelude.{◌≡◌};
ghost use Rattle.sha1_digest.specs.Sha1.{sha1 as sha1_of};
ghost use Rattle.sha256.specs.Sha256.{sha256 as sha256_of};

use sha1_digest::sha1;
use sha256::sha256;

/// Writes the SHA-1 digest of `value` into `out`.
#[unsafe(no_mangle)]
pub extern "C" fn locker_sha1(value: &[u8], out: &mut [u8; 20])
    ensures { out.new ≡ sha1_of value.now }
{
    *out = sha1(value);
}

/// Writes the SHA-256 digest of `value` into `out`.
#[unsafe(no_mangle)]
pub extern "C" fn locker_sha256(value: &[u8], out: &mut [u8; 32])
    ensures { out.new ≡ sha256_of value.now }
{
    *out = sha256(value);
}
