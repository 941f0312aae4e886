//! Nonces.

ghost use Rattle.std.specs.Prelude.{◌≡◌, ℕ, List, Some, codes, length, IsTrue};

use crate::keys::key::Key;
use crate::purpose::local::Local;
use crate::version::VersionTrait;
use crate::version::v2::V2;
use std::fmt;
use std::marker::{Model, PhantomData};

/// A nonce for encrypting tokens, of a length that the version allows. Use each nonce only once under a key.
#[derive(Drop)]
pub struct PasetoNonce<'a, V: VersionTrait, P> {
    bytes: &'a [u8],
    version: PhantomData<V>,
    purpose: PhantomData<P>,
}

impl<'a, V: VersionTrait, P> Model for PasetoNonce<'a, V, P> {
    ghost Value = { List ℕ };

    ghost view = { λ nonce. nonce.bytes.now };

    ghost invariant = { λ nonce. IsTrue (V.nonce_length (length nonce.bytes.now)) };
}

impl<'a, V: VersionTrait, P> PasetoNonce<'a, V, P> {
    /// The bytes of the nonce.
    pub fn as_bytes(&self) -> &[u8]
        ensures bytes { result.now ≡ self.now }
        ensures len { IsTrue (V.nonce_length (length self.now)) }
    {
        self.bytes
    }
}

impl<'a, V: VersionTrait> From<&'a Key<32>> for PasetoNonce<'a, V, Local> {
    ghost from_gives = { λ key nonce. nonce ≡ key.now };

    fn from(key: &'a Key<32>) -> Self {
        PasetoNonce {
            bytes: key.as_bytes(),
            version: PhantomData,
            purpose: PhantomData,
        }
    }
}

/// In version 2 a nonce may also have 24 bytes.
impl<'a> From<&'a Key<24>> for PasetoNonce<'a, V2, Local> {
    ghost from_gives = { λ short nonce. nonce ≡ short.now };

    fn from(short: &'a Key<24>) -> Self {
        PasetoNonce {
            bytes: short.as_bytes(),
            version: PhantomData,
            purpose: PhantomData,
        }
    }
}

impl<V: VersionTrait, P> fmt::Debug for PasetoNonce<'_, V, P> {
    ghost debug_output = { λ _. Some (codes "PasetoNonce { .. }") };

    fn fmt<W: fmt::Write>(&self, f: &mut fmt::Formatter<W>) -> fmt::Result {
        f.write_str("PasetoNonce { .. }")
    }
}
