//! The public halves of private keys.

ghost use Rattle.std.specs.Prelude.{◌≡◌, ◌⊎◌, IfErr, IfOk};
ghost use Rattle.paseto_ed25519.specs.Ed25519.{IsOwn, partner};
ghost use Rattle.paseto_p384.specs.P384.{IsPrivate, p384_public};
ghost use Rattle.paseto_rsa.specs.Forms.{IsPublic as IsRsaPublic};
ghost use Rattle.paseto_rsa.specs.Keys.{IsPrivate as IsRsaPrivate, rsa_public};
ghost use Rattle.rusty_paseto_paserk.specs.Error.{IsMemory};
ghost use Rattle.paseto_keys.specs.AnyKey.{parts_of};
ghost use Rattle.paseto_keys.specs.PublicHalf.{GivesHalf, IsEd25519};

use crate::any_key::AnyKey;
use paseto_ed25519::Ed25519;
use paseto_p384::P384;
use paseto_rsa::public_key_of;
use rusty_paseto_core::{
    CompressedKey, Key, PasetoAsymmetricPublicKey, PrivateKey, PublicKey, V1, V2orV4, V3,
};
use rusty_paseto_paserk::PaserkError;
use std::alloc::Global;

impl AnyKey {
    /// The public key of a private key, which verifies what this key signs.
    ///
    /// `OtherType` is returned for a key of another type, and `InvalidKey` for a private key without a public half of its
    /// own: in versions 2 and 4 if it does not have 64 bytes or the last 32 belong to another seed, in version 3 if it
    /// is 0 or not below the order of P-384, and in version 1 if it is not one of RSA of 2048 bits. Otherwise it fails
    /// only with `Memory`.
    pub fn public_half(&self, alloc: Global) -> Result<AnyKey, PaserkError>
        ensures { GivesHalf (parts_of self.now) result }
    {
        match self {
            AnyKey::V1Secret(key) => Ok(AnyKey::V1Public(rsa_half(alloc, key)?)),
            AnyKey::V2Secret(key) => Ok(AnyKey::V2Public(ed25519_half(alloc, key)?)),
            AnyKey::V3Secret(key) => Ok(AnyKey::V3Public(p384_half(alloc, key)?)),
            AnyKey::V4Secret(key) => Ok(AnyKey::V4Public(ed25519_half(alloc, key)?)),
            other => Err(PaserkError::OtherType(other.kind())),
        }
    }
}

// The public key of a private key of version 1.
fn rsa_half(alloc: Global, key: &PrivateKey<V1>) -> Result<PublicKey<V1>, PaserkError>
    ensures ok { IfOk result (λ half. IsRsaPrivate key.now × IsRsaPublic (rsa_public key.now)
        × (half ≡ rsa_public key.now)) }
    ensures err { IfErr result (λ error. IsMemory error
        ⊎ ((error ≡ PaserkError.InvalidKey) × ¬ IsRsaPrivate key.now)) }
{
    let Some(half) = public_key_of(key.lend().as_bytes()) else {
        return Err(PaserkError::InvalidKey);
    };
    match PublicKey::<V1>::try_from(Vec::from_slice(alloc, &half)?) {
        Ok(half) => Ok(half),
        Err(_) => Err(PaserkError::InvalidKey),
    }
}

// The public key of a private key of version 2 or 4.
fn ed25519_half<V: V2orV4>(alloc: Global, key: &PrivateKey<V>) -> Result<PublicKey<V>, PaserkError>
    ensures ok { IfOk result (λ half. IsEd25519 key.now × (half ≡ partner key.now)) }
    ensures err { IfErr result (λ error. IsMemory error
        ⊎ ((error ≡ PaserkError.InvalidKey) × ¬ IsEd25519 key.now)) }
{
    let lent = key.lend();
    let bytes = lent.as_bytes();
    if bytes.len() != 64 {
        return Err(PaserkError::InvalidKey);
    }
    own_half(alloc, &Key::<64>::from_slice(bytes))
}

// The last 32 bytes of a private key, which have to be the public key of the seed in front of them.
fn own_half<V: V2orV4>(alloc: Global, private: &Key<64>) -> Result<PublicKey<V>, PaserkError>
    ensures ok { IfOk result (λ half. IsOwn private.now × (half ≡ partner private.now)) }
    ensures err { IfErr result (λ error. IsMemory error
        ⊎ ((error ≡ PaserkError.InvalidKey) × ¬ IsOwn private.now)) }
{
    let Ok(_signer) = Ed25519::with_key(private) else {
        return Err(PaserkError::InvalidKey);
    };
    let half = Key::<32>::from_slice(&private.as_bytes()[32..]);
    Ok(PublicKey::copy_of(alloc, &PasetoAsymmetricPublicKey::from(&half))?)
}

// The public key of a private key of version 3.
fn p384_half(alloc: Global, key: &PrivateKey<V3>) -> Result<PublicKey<V3>, PaserkError>
    ensures ok { IfOk result (λ half. IsPrivate key.now × (half ≡ p384_public key.now)) }
    ensures err { IfErr result (λ error. IsMemory error
        ⊎ ((error ≡ PaserkError.InvalidKey) × ¬ IsPrivate key.now)) }
{
    let Ok(half) = P384.public_key(alloc, key.lend().as_bytes()) else {
        return Err(PaserkError::InvalidKey);
    };
    match PublicKey::<V3>::try_from(Vec::from_slice(alloc, &half)?) {
        Ok(half) => Ok(half),
        Err(_) => Err(PaserkError::InvalidKey),
    }
}
