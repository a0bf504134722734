//! A digest as it is kept beside a value.
ghost use Rattle.std.specs.Prelude.{◌≡◌, ℕ, true, List, Decides};
ghost use Rattle.std.specs.Option.{option_map};
ghost use Rattle.digest.specs.Value.{digest_bytes, is_digest, as_digest};

use super::kind::DigestKind;

/// A digest of 20 or of 32 bytes. No other width can be represented.
#[derive(Clone, Copy, Debug, PartialEq, Eq)]
pub enum Digest {
    Short([u8; 20]),
    Long([u8; 32]),
}

impl Digest {
    /// The bytes of the digest, 20 or 32 of them.
    pub fn as_bytes(&self) -> &[u8]
        ensures value { result.now ≡ digest_bytes self.now }
        ensures width { is_digest result.now ≡ true }
    {
        match self {
            Digest::Short(bytes) => bytes,
            Digest::Long(bytes) => bytes,
        }
    }

    /// The digest with these bytes, if there are 20 or 32 of them.
    pub fn from_bytes(bytes: &[u8]) -> Option<Digest>
        ensures { option_map digest_bytes result ≡ as_digest bytes.now }
    {
        if let Ok(short) = <[u8; 20]>::try_from(bytes) {
            Some(Digest::Short(short))
        } else if let Ok(long) = <[u8; 32]>::try_from(bytes) {
            Some(Digest::Long(long))
        } else {
            None
        }
    }

    /// The digest of `value`.
    pub fn of<K: DigestKind>(value: &[u8]) -> Digest
        ensures { digest_bytes result ≡ K.digested value.now }
    {
        let mut out = [0; 32];
        K::digest(value, &mut out);
        Digest::from_bytes(&out[..K::WIDTH]).unwrap()
    }

    /// Whether this is the digest of `value`. A digest of another width is not.
    pub fn matches<K: DigestKind>(&self, value: &[u8]) -> bool
        ensures { Decides result (digest_bytes self.now ≡ K.digested value.now) }
    {
        self.as_bytes() == Digest::of::<K>(value).as_bytes()
    }
}
