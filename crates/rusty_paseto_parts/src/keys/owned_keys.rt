//! Keys that own their bytes.

ghost use Rattle.std.specs.Prelude.{◌≡◌, ℕ, List, Some, codes, IfOk, IsTrue};
ghost use Rattle.rusty_paseto_parts.specs.OwnedKeys.{TakesKey};

use crate::error::PasetoError;
use crate::keys::private_key::PasetoAsymmetricPrivateKey;
use crate::keys::public_key::PasetoAsymmetricPublicKey;
use crate::purpose::public::Public;
use crate::version::VersionTrait;
use std::alloc::{AllocError, Global};
use std::fmt;
use std::marker::{Model, PhantomData};

/// A private key of a version that owns its bytes. `lend` borrows the key that signs.
///
/// `Debug` does not show it: its debug text is the same for all keys. It is **not wiped**: its bytes stay in memory
/// when it is dropped.
#[derive(Drop)]
pub struct PrivateKey<V: VersionTrait> {
    bytes: Vec<u8>,
    version: PhantomData<V>,
}

impl<V: VersionTrait> Model for PrivateKey<V> {
    ghost Value = { List ℕ };

    ghost view = { λ private. private.bytes.items };

    ghost invariant = { λ private. IsTrue (V.is_private_key private.bytes.items) };
}

impl<V: VersionTrait> PrivateKey<V> {
    /// A key that owns a copy of the bytes of a borrowed one. It fails only if an allocation fails.
    pub fn copy_of(
        alloc: Global,
        key: &PasetoAsymmetricPrivateKey<'_, V, Public>,
    ) -> Result<Self, AllocError>
        ensures { IfOk result (λ own. own ≡ key.now) }
    {
        Ok(PrivateKey {
            bytes: Vec::from_slice(alloc, key.as_bytes())?,
            version: PhantomData,
        })
    }

    /// The key that signs, which borrows the bytes.
    pub fn lend(&self) -> PasetoAsymmetricPrivateKey<'_, V, Public>
        ensures { result ≡ self.now }
    {
        PasetoAsymmetricPrivateKey::of(&self.bytes)
    }
}

/// The key with these bytes, which are moved. `InvalidKey` is returned if and only if no private key of the version can
/// have them: in version 3 if there are not 48, and never in the other versions. The bytes are then dropped.
impl<V: VersionTrait> TryFrom<Vec<u8>> for PrivateKey<V> {
    type Error = PasetoError;

    ghost try_from_gives = { λ bytes answer. TakesKey (V.is_private_key bytes.items) bytes.items answer };

    fn try_from(bytes: Vec<u8>) -> Result<Self, PasetoError> {
        if !V::is_private_key(&bytes) {
            return Err(PasetoError::InvalidKey);
        }
        Ok(PrivateKey {
            bytes,
            version: PhantomData,
        })
    }
}

impl<V: VersionTrait> fmt::Debug for PrivateKey<V> {
    ghost debug_output = { λ _. Some (codes "!!! KEY IS PRIVATE !!!") };

    fn fmt<W: fmt::Write>(&self, f: &mut fmt::Formatter<W>) -> fmt::Result {
        f.write_str("!!! KEY IS PRIVATE !!!")
    }
}

/// A public key of a version that owns its bytes. `lend` borrows the key that verifies.
#[derive(Drop)]
pub struct PublicKey<V: VersionTrait> {
    bytes: Vec<u8>,
    version: PhantomData<V>,
}

impl<V: VersionTrait> Model for PublicKey<V> {
    ghost Value = { List ℕ };

    ghost view = { λ public. public.bytes.items };

    ghost invariant = { λ public. IsTrue (V.is_public_key public.bytes.items) };
}

impl<V: VersionTrait> PublicKey<V> {
    /// A key that owns a copy of the bytes of a borrowed one. It fails only if an allocation fails.
    pub fn copy_of(
        alloc: Global,
        key: &PasetoAsymmetricPublicKey<'_, V, Public>,
    ) -> Result<Self, AllocError>
        ensures { IfOk result (λ own. own ≡ key.now) }
    {
        Ok(PublicKey {
            bytes: Vec::from_slice(alloc, key.as_bytes())?,
            version: PhantomData,
        })
    }

    /// The key that verifies, which borrows the bytes.
    pub fn lend(&self) -> PasetoAsymmetricPublicKey<'_, V, Public>
        ensures { result ≡ self.now }
    {
        PasetoAsymmetricPublicKey::of(&self.bytes)
    }
}

/// The key with these bytes, which are moved. `InvalidKey` is returned if and only if no public key of the version can
/// have them: in versions 2 and 4 if there are not 32, in version 3 if there are not 49 or the first of them is neither
/// 2 nor 3, and never in version 1. The bytes are then dropped.
impl<V: VersionTrait> TryFrom<Vec<u8>> for PublicKey<V> {
    type Error = PasetoError;

    ghost try_from_gives = { λ bytes answer. TakesKey (V.is_public_key bytes.items) bytes.items answer };

    fn try_from(bytes: Vec<u8>) -> Result<Self, PasetoError> {
        if !V::is_public_key(&bytes) {
            return Err(PasetoError::InvalidKey);
        }
        Ok(PublicKey {
            bytes,
            version: PhantomData,
        })
    }
}

impl<V: VersionTrait> fmt::Debug for PublicKey<V> {
    ghost debug_output = { λ _. Some (codes "PublicKey { .. }") };

    fn fmt<W: fmt::Write>(&self, f: &mut fmt::Formatter<W>) -> fmt::Result {
        f.write_str("PublicKey { .. }")
    }
}
