//! The key that signs public tokens.

ghost use Rattle.std.specs.Prelude.{◌≡◌, ℕ, List, Some, codes, IsTrue};

use crate::keys::key::Key;
use crate::purpose::public::Public;
use crate::version::v1::V1;
use crate::version::v3::V3;
use crate::version::{V2orV4, VersionTrait};
use std::fmt;
use std::marker::{Model, PhantomData};

/// The key that signs the public tokens of a version. It borrows its bytes.
///
/// A key of version 3 has 48 bytes. Those of the other versions may have any number of bytes. `Debug` does not show it:
/// its debug text is the same for all keys.
///
/// Source: PASETO specification, "Version 1" to "Version 4".
#[derive(Drop)]
pub struct PasetoAsymmetricPrivateKey<'a, V: VersionTrait, P> {
    bytes: &'a [u8],
    version: PhantomData<V>,
    purpose: PhantomData<P>,
}

impl<'a, V: VersionTrait, P> Model for PasetoAsymmetricPrivateKey<'a, V, P> {
    ghost Value = { List ℕ };

    ghost view = { λ private. private.bytes.now };

    ghost invariant = { λ private. IsTrue (V.is_private_key private.bytes.now) };
}

impl<'a, V: VersionTrait, P> PasetoAsymmetricPrivateKey<'a, V, P> {
    /// The key with these bytes, which a private key of the version may have.
    pub(crate) fn of(bytes: &'a [u8]) -> Self
        requires { IsTrue (V.is_private_key bytes.now) }
        ensures { result ≡ bytes.now }
    {
        PasetoAsymmetricPrivateKey {
            bytes,
            version: PhantomData,
            purpose: PhantomData,
        }
    }

    /// The bytes of the key.
    pub fn as_bytes(&self) -> &[u8]
        ensures bytes { result.now ≡ self.now }
        ensures form { IsTrue (V.is_private_key self.now) }
    {
        self.bytes
    }

    /// A key that borrows the same bytes.
    pub fn clone(&self) -> Self
        ensures { result ≡ self.now }
    {
        PasetoAsymmetricPrivateKey {
            bytes: self.bytes,
            version: PhantomData,
            purpose: PhantomData,
        }
    }
}

/// An RSA key's encoding, of any length. It is not checked here.
impl<'a> From<&'a [u8]> for PasetoAsymmetricPrivateKey<'a, V1, Public> {
    ghost from_gives = { λ encoding private. private ≡ encoding.now };

    fn from(encoding: &'a [u8]) -> Self {
        PasetoAsymmetricPrivateKey {
            bytes: encoding,
            version: PhantomData,
            purpose: PhantomData,
        }
    }
}

/// The bytes of an Ed25519 key. They are not checked here: a key that signs has 64 bytes.
impl<'a, V: V2orV4> From<&'a [u8]> for PasetoAsymmetricPrivateKey<'a, V, Public> {
    ghost from_gives = { λ bytes private. private ≡ bytes.now };

    fn from(bytes: &'a [u8]) -> Self {
        PasetoAsymmetricPrivateKey {
            bytes,
            version: PhantomData,
            purpose: PhantomData,
        }
    }
}

/// An Ed25519 key: the 32 bytes of the secret seed, and then the 32 bytes of the public key.
impl<'a, V: V2orV4> From<&'a Key<64>> for PasetoAsymmetricPrivateKey<'a, V, Public> {
    ghost from_gives = { λ key private. private ≡ key.now };

    fn from(key: &'a Key<64>) -> Self {
        PasetoAsymmetricPrivateKey {
            bytes: key.as_bytes(),
            version: PhantomData,
            purpose: PhantomData,
        }
    }
}

/// A P-384 key: the 48 bytes of the scalar, most significant byte first.
impl<'a> From<&'a Key<48>> for PasetoAsymmetricPrivateKey<'a, V3, Public> {
    ghost from_gives = { λ scalar private. private ≡ scalar.now };

    fn from(scalar: &'a Key<48>) -> Self {
        PasetoAsymmetricPrivateKey {
            bytes: scalar.as_bytes(),
            version: PhantomData,
            purpose: PhantomData,
        }
    }
}

impl<V: VersionTrait, P> fmt::Debug for PasetoAsymmetricPrivateKey<'_, V, P> {
    ghost debug_output = { λ _. Some (codes "!!! KEY IS PRIVATE !!!") };

    fn fmt<W: fmt::Write>(&self, f: &mut fmt::Formatter<W>) -> fmt::Result {
        f.write_str("!!! KEY IS PRIVATE !!!")
    }
}
