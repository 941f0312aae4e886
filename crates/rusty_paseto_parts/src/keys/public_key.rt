//! The key that verifies public tokens.

ghost use Rattle.std.specs.Prelude.{◌≡◌, ℕ, List, Some, codes, IsTrue};
ghost use Rattle.rusty_paseto_parts.specs.PublicKey.{ReadsPublicKey};

use crate::error::PasetoError;
use crate::keys::key::Key;
use crate::purpose::public::Public;
use crate::version::v1::V1;
use crate::version::v3::V3;
use crate::version::{V2orV4, VersionTrait};
use std::fmt;
use std::marker::{Model, PhantomData};

/// The key that verifies the public tokens of a version. It borrows its bytes.
///
/// A key of version 2 or 4 has 32 bytes. One of version 3 has 49, of which the first is 2 or 3. One of
/// version 1 may have any number of bytes.
///
/// Source: PASETO specification, "Version 1" to "Version 4".
#[derive(Drop)]
pub struct PasetoAsymmetricPublicKey<'a, V: VersionTrait, P> {
    bytes: &'a [u8],
    version: PhantomData<V>,
    purpose: PhantomData<P>,
}

impl<'a, V: VersionTrait, P> Model for PasetoAsymmetricPublicKey<'a, V, P> {
    ghost Value = { List ℕ };

    ghost view = { λ public. public.bytes.now };

    ghost invariant = { λ public. IsTrue (V.is_public_key public.bytes.now) };
}

impl<'a, V: VersionTrait, P> PasetoAsymmetricPublicKey<'a, V, P> {
    /// The key with these bytes, which a public key of the version may have.
    pub(crate) fn of(bytes: &'a [u8]) -> Self
        requires { IsTrue (V.is_public_key bytes.now) }
        ensures { result ≡ bytes.now }
    {
        PasetoAsymmetricPublicKey {
            bytes,
            version: PhantomData,
            purpose: PhantomData,
        }
    }

    /// The bytes of the key.
    pub fn as_bytes(&self) -> &[u8]
        ensures bytes { result.now ≡ self.now }
        ensures form { IsTrue (V.is_public_key self.now) }
    {
        self.bytes
    }

    /// A key that borrows the same bytes.
    pub fn clone(&self) -> Self
        ensures { result ≡ self.now }
    {
        PasetoAsymmetricPublicKey {
            bytes: self.bytes,
            version: PhantomData,
            purpose: PhantomData,
        }
    }
}

/// An RSA key's encoding, of any length. It is not checked here.
impl<'a> From<&'a [u8]> for PasetoAsymmetricPublicKey<'a, V1, Public> {
    ghost from_gives = { λ encoding public. public ≡ encoding.now };

    fn from(encoding: &'a [u8]) -> Self {
        PasetoAsymmetricPublicKey {
            bytes: encoding,
            version: PhantomData,
            purpose: PhantomData,
        }
    }
}

/// The 32 bytes of an Ed25519 key. They are not checked here.
impl<'a, V: V2orV4> From<&'a Key<32>> for PasetoAsymmetricPublicKey<'a, V, Public> {
    ghost from_gives = { λ key public. public ≡ key.now };

    fn from(key: &'a Key<32>) -> Self {
        PasetoAsymmetricPublicKey {
            bytes: key.as_bytes(),
            version: PhantomData,
            purpose: PhantomData,
        }
    }
}

/// A compressed point of P-384: a byte that is 2 or 3, and then the 48 bytes of a coordinate.
///
/// `InvalidKey` is returned if and only if the first byte is neither 2 nor 3. This does not check that the bytes are a
/// point of the curve.
impl<'a> TryFrom<&'a Key<49>> for PasetoAsymmetricPublicKey<'a, V3, Public> {
    type Error = PasetoError;

    ghost try_from_gives = { λ point answer. ReadsPublicKey point.now answer };

    fn try_from(point: &'a Key<49>) -> Result<Self, PasetoError> {
        let bytes = point.as_bytes();
        match bytes[0] {
            2 | 3 => Ok(PasetoAsymmetricPublicKey {
                bytes,
                version: PhantomData,
                purpose: PhantomData,
            }),
            _ => Err(PasetoError::InvalidKey),
        }
    }
}

impl<V: VersionTrait, P> fmt::Debug for PasetoAsymmetricPublicKey<'_, V, P> {
    ghost debug_output = { λ _. Some (codes "PasetoAsymmetricPublicKey { .. }") };

    fn fmt<W: fmt::Write>(&self, f: &mut fmt::Formatter<W>) -> fmt::Result {
        f.write_str("PasetoAsymmetricPublicKey { .. }")
    }
}
