//! A key of any version and type.

ghost use Rattle.std.specs.Prelude.{◌≡◌, ◌⊎◌, IsOkAnd, MatchResult, false, true};
ghost use Rattle.rusty_paseto_parts.specs.Error.{IsMemory};
ghost use Rattle.rusty_paseto_paserk.specs.declared.header.PaserkType.TheVariants.{Local as LocalKey, Public as PublicKeys, Secret};
ghost use Rattle.paseto_keys.specs.AnyKey.{is_key, parts_of, key_parts};

use rusty_paseto_core::{
    Key, Local, PasetoError, PasetoSymmetricKey, PrivateKey, PublicKey, V1, V2, V3, V4,
    VersionTrait,
};
use rusty_paseto_paserk::{PaserkType, PaserkVersion};
use std::alloc::Global;

/// A key of any version and type, which is bound to both: it reads and writes no other tokens.
///
/// Source: PASETO specification, "Algorithm Lucidity"; PASERK specification, types `local`, `secret` and `public`.
#[derive(Drop)]
pub enum AnyKey {
    /// The key for local tokens of version 1.
    V1Local(PasetoSymmetricKey<V1, Local>),
    /// The key for local tokens of version 2.
    V2Local(PasetoSymmetricKey<V2, Local>),
    /// The key for local tokens of version 3.
    V3Local(PasetoSymmetricKey<V3, Local>),
    /// The key for local tokens of version 4.
    V4Local(PasetoSymmetricKey<V4, Local>),
    /// The private key of version 1, of RSA, which signs.
    V1Secret(PrivateKey<V1>),
    /// The private key of version 2, of Ed25519, which signs.
    V2Secret(PrivateKey<V2>),
    /// The private key of version 3, of P-384, which signs.
    V3Secret(PrivateKey<V3>),
    /// The private key of version 4, of Ed25519, which signs.
    V4Secret(PrivateKey<V4>),
    /// The public key of version 1, of RSA, which verifies.
    V1Public(PublicKey<V1>),
    /// The public key of version 2, of Ed25519, which verifies.
    V2Public(PublicKey<V2>),
    /// The public key of version 3, of P-384, which verifies.
    V3Public(PublicKey<V3>),
    /// The public key of version 4, of Ed25519, which verifies.
    V4Public(PublicKey<V4>),
}

impl AnyKey {
    /// The key of a type and a version with these bytes, which are copied.
    ///
    /// A key for local tokens has 32 bytes. In versions 2 and 4 a private key has 64 bytes, and a public key 32. In
    /// version 3 a private key has 48 bytes, and a public key 49, of which the first is 2 or 3. In version 1 the bytes
    /// of key pairs are DER and may be any here: `read` and `write` refuse what is no key. `InvalidKey` is returned for
    /// other bytes. Otherwise it fails only if an allocation fails.
    pub fn from_bytes(
        alloc: Global,
        kind: PaserkType,
        version: PaserkVersion,
        bytes: &[u8],
    ) -> Result<AnyKey, PasetoError>
        ensures { MatchResult result
            (λ key. (parts_of key ≡ key_parts kind version bytes.now)
            × (is_key kind version bytes.now ≡ true))
            (λ error. IsMemory error ⊎ ((error ≡ PasetoError.InvalidKey)
            × (is_key kind version bytes.now ≡ false))) }
    {
        if !is_key(kind, version, bytes) {
            return Err(PasetoError::InvalidKey);
        }
        match kind {
            PaserkType::Local => Ok(local_key(version, Key::from_slice(bytes))),
            PaserkType::Secret => private_key(version, Vec::from_slice(alloc, bytes)?),
            PaserkType::Public => public_key(version, Vec::from_slice(alloc, bytes)?),
        }
    }

    /// The type of the key.
    pub fn kind(&self) -> PaserkType
        ensures { result ≡ (parts_of self.now).kind }
    {
        match self {
            AnyKey::V1Local(_) | AnyKey::V2Local(_) | AnyKey::V3Local(_) | AnyKey::V4Local(_) =>
                PaserkType::Local,
            AnyKey::V1Secret(_) | AnyKey::V2Secret(_) | AnyKey::V3Secret(_) | AnyKey::V4Secret(_) =>
                PaserkType::Secret,
            AnyKey::V1Public(_) | AnyKey::V2Public(_) | AnyKey::V3Public(_) | AnyKey::V4Public(_) =>
                PaserkType::Public,
        }
    }

    /// The version of the key.
    pub fn version(&self) -> PaserkVersion
        ensures { result ≡ (parts_of self.now).version }
    {
        match self {
            AnyKey::V1Local(_) | AnyKey::V1Secret(_) | AnyKey::V1Public(_) => PaserkVersion::V1,
            AnyKey::V2Local(_) | AnyKey::V2Secret(_) | AnyKey::V2Public(_) => PaserkVersion::V2,
            AnyKey::V3Local(_) | AnyKey::V3Secret(_) | AnyKey::V3Public(_) => PaserkVersion::V3,
            AnyKey::V4Local(_) | AnyKey::V4Secret(_) | AnyKey::V4Public(_) => PaserkVersion::V4,
        }
    }
}

// Whether a key of a type and a version may have these bytes.
fn is_key(kind: PaserkType, version: PaserkVersion, bytes: &[u8]) -> bool
    ensures { result ≡ is_key kind version bytes.now }
{
    match (kind, version) {
        (PaserkType::Local, _) => bytes.len() == 32,
        (PaserkType::Secret, PaserkVersion::V1) => true,
        (PaserkType::Secret, PaserkVersion::V3) => bytes.len() == 48,
        (PaserkType::Secret, _) => bytes.len() == 64,
        (PaserkType::Public, PaserkVersion::V1) => true,
        (PaserkType::Public, PaserkVersion::V3) => V3::is_public_key(bytes),
        (PaserkType::Public, _) => bytes.len() == 32,
    }
}

/// The key for local tokens of a version.
pub(crate) fn local_key(version: PaserkVersion, key: Key<32>) -> AnyKey
    ensures { parts_of result ≡ key_parts LocalKey version key }
{
    match version {
        PaserkVersion::V1 => AnyKey::V1Local(PasetoSymmetricKey::from(key)),
        PaserkVersion::V2 => AnyKey::V2Local(PasetoSymmetricKey::from(key)),
        PaserkVersion::V3 => AnyKey::V3Local(PasetoSymmetricKey::from(key)),
        PaserkVersion::V4 => AnyKey::V4Local(PasetoSymmetricKey::from(key)),
    }
}

// The private key of a version.
fn private_key(version: PaserkVersion, bytes: Vec<u8>) -> Result<AnyKey, PasetoError>
    requires { is_key Secret version bytes.items ≡ true }
    ensures { IsOkAnd result (λ key. parts_of key ≡ key_parts Secret version bytes.items) }
{
    Ok(match version {
        PaserkVersion::V1 => AnyKey::V1Secret(PrivateKey::try_from(bytes)?),
        PaserkVersion::V2 => AnyKey::V2Secret(PrivateKey::try_from(bytes)?),
        PaserkVersion::V3 => AnyKey::V3Secret(PrivateKey::try_from(bytes)?),
        PaserkVersion::V4 => AnyKey::V4Secret(PrivateKey::try_from(bytes)?),
    })
}

// The public key of a version.
fn public_key(version: PaserkVersion, bytes: Vec<u8>) -> Result<AnyKey, PasetoError>
    requires { is_key PublicKeys version bytes.items ≡ true }
    ensures { IsOkAnd result (λ key. parts_of key ≡ key_parts PublicKeys version bytes.items) }
{
    Ok(match version {
        PaserkVersion::V1 => AnyKey::V1Public(PublicKey::try_from(bytes)?),
        PaserkVersion::V2 => AnyKey::V2Public(PublicKey::try_from(bytes)?),
        PaserkVersion::V3 => AnyKey::V3Public(PublicKey::try_from(bytes)?),
        PaserkVersion::V4 => AnyKey::V4Public(PublicKey::try_from(bytes)?),
    })
}
