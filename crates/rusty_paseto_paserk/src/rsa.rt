//! The texts and the ids of key pairs of version 1, which are RSA keys of 2048 bits.
//!
//! In memory a private key is a PrivateKeyInfo of PKCS #8, and a public key an RSAPublicKey of PKCS #1, as `RsaPss` of
//! `paseto_rsa` takes them. In a text stand an RSAPrivateKey of PKCS #1, and a SubjectPublicKeyInfo.

ghost use Rattle.std.specs.Prelude.{◌≡◌, ◌⊎◌, ℕ, List, IfErr, IfOk};
ghost use Rattle.rusty_paseto_paserk.specs.Error.{IsMemory};
ghost use Rattle.rusty_paseto_paserk.specs.Rsa.{IsPublicForm, IsSecretForm, ReadsForm, Writes, public_id, public_text, secret_id, secret_text};
ghost use Rattle.rusty_paseto_paserk.specs.declared.error.PaserkError.TheVariants.{InvalidKey};
ghost use Rattle.rusty_paseto_paserk.specs.declared.header.PaserkType.TheVariants.{Public as PublicKeys, Secret};
ghost use Rattle.paseto_rsa.specs.Forms.{IsPublic};
ghost use Rattle.paseto_rsa.specs.Keys.{IsPrivate};

use crate::error::PaserkError;
use crate::header::{PaserkType, PaserkVersion};
use crate::id::id_of;
use crate::text::{read_bytes, write_key};
use paseto_rsa::{
    is_private_key, private_key_from_pkcs1, private_key_to_pkcs1, public_key_from_info,
    public_key_to_info,
};
use rusty_paseto_parts::{
    PasetoAsymmetricPrivateKey, PasetoAsymmetricPublicKey, PrivateKey, Public, PublicKey, V1,
};
use std::alloc::Global;

/// The text of the private key of a key pair of version 1: `k1.secret.` and the base64url encoding of its RSAPrivateKey.
///
/// `InvalidKey` is returned if and only if the key is no private key of `RsaPss`: the PrivateKeyInfo of an RSA key of 2048
/// bits, in DER.
///
/// Source: PASERK specification, type `secret`; RFC 8017, appendix A.1.2.
pub fn rsa_secret_to_paserk(
    alloc: Global,
    key: &PasetoAsymmetricPrivateKey<'_, V1, Public>,
) -> Result<String, PaserkError>
    ensures { Writes IsPrivate secret_text key.now result }
{
    match private_key_to_pkcs1(key.as_bytes()) {
        Some(inner) => write_key(alloc, PaserkVersion::V1, PaserkType::Secret, inner),
        None => Err(PaserkError::InvalidKey),
    }
}

// The private key that stands in a text.
fn private_key_of(alloc: Global, octets: Vec<u8>) -> Result<Vec<u8>, PaserkError>
    ensures found { IfOk result (λ key. IsSecretForm octets.items key.items) }
    ensures refused { IfErr result (λ error. IsMemory error
        ⊎ ((error ≡ InvalidKey) × ((key : List ℕ) → ¬ IsSecretForm octets.items key))) }
{
    if is_private_key(&octets) {
        return Ok(octets);
    }
    match private_key_from_pkcs1(alloc, &octets)? {
        Some(key) => Ok(key),
        None => Err(PaserkError::InvalidKey),
    }
}

/// The private key of version 1 with this text, a PrivateKeyInfo of PKCS #8, which owns its bytes.
///
/// The text may be that of an RSAPrivateKey of PKCS #1, as `rsa_secret_to_paserk` writes it, or that of a PrivateKeyInfo.
/// The errors are those of `local_from_paserk`; `InvalidKey` is also returned if what follows the header is neither of an
/// RSA key of 2048 bits whose public exponent is 65537 and whose modulus is the product of its factors.
///
/// Source: PASERK specification, type `secret`; RFC 8017, appendix A.1.2; RFC 5208, section 5.
pub fn rsa_private_key_from_paserk(alloc: Global, text: &str) -> Result<PrivateKey<V1>, PaserkError>
    ensures { ReadsForm Secret IsSecretForm text.now result }
{
    let octets = read_bytes(alloc, PaserkVersion::V1, PaserkType::Secret, text)?;
    match PrivateKey::try_from(private_key_of(alloc, octets)?) {
        Ok(key) => Ok(key),
        Err(_) => Err(PaserkError::InvalidKey),
    }
}

/// The text of the public key of a key pair of version 1: `k1.public.` and the base64url encoding of its
/// SubjectPublicKeyInfo.
///
/// `InvalidKey` is returned if and only if the key is no public key of `RsaPss`: the RSAPublicKey of an RSA key of 2048
/// bits with the exponent 65537, in DER.
///
/// Source: PASERK specification, type `public`; RFC 5280, section 4.1.
pub fn rsa_public_to_paserk(
    alloc: Global,
    key: &PasetoAsymmetricPublicKey<'_, V1, Public>,
) -> Result<String, PaserkError>
    ensures { Writes IsPublic public_text key.now result }
{
    match public_key_to_info(key.as_bytes()) {
        Some(info) => write_key(alloc, PaserkVersion::V1, PaserkType::Public, &info),
        None => Err(PaserkError::InvalidKey),
    }
}

/// The public key of version 1 with this text, an RSAPublicKey of PKCS #1, which owns its bytes.
///
/// The errors are those of `local_from_paserk`; `InvalidKey` is also returned if what follows the header is not the
/// SubjectPublicKeyInfo of an RSA key of 2048 bits with the exponent 65537.
///
/// Source: PASERK specification, type `public`; RFC 5280, section 4.1.
pub fn rsa_public_key_from_paserk(alloc: Global, text: &str) -> Result<PublicKey<V1>, PaserkError>
    ensures { ReadsForm PublicKeys IsPublicForm text.now result }
{
    let octets = read_bytes(alloc, PaserkVersion::V1, PaserkType::Public, text)?;
    let Some(key) = public_key_from_info(&octets) else {
        return Err(PaserkError::InvalidKey);
    };
    match PublicKey::try_from(Vec::from_slice(alloc, key)?) {
        Ok(key) => Ok(key),
        Err(_) => Err(PaserkError::InvalidKey),
    }
}

/// The id of the private key of a key pair of version 1, `k1.sid.` and 44 characters. `InvalidKey` is returned as from
/// `rsa_secret_to_paserk`.
///
/// Source: PASERK specification, type `sid`.
pub fn rsa_secret_id(
    alloc: Global,
    key: &PasetoAsymmetricPrivateKey<'_, V1, Public>,
) -> Result<String, PaserkError>
    ensures { Writes IsPrivate secret_id key.now result }
{
    let text = rsa_secret_to_paserk(alloc, key)?;
    id_of(alloc, PaserkVersion::V1, PaserkType::Secret, text.as_str())
}

/// The id of the public key of a key pair of version 1, `k1.pid.` and 44 characters. `InvalidKey` is returned as from
/// `rsa_public_to_paserk`.
///
/// Source: PASERK specification, type `pid`.
pub fn rsa_public_id(
    alloc: Global,
    key: &PasetoAsymmetricPublicKey<'_, V1, Public>,
) -> Result<String, PaserkError>
    ensures { Writes IsPublic public_id key.now result }
{
    let text = rsa_public_to_paserk(alloc, key)?;
    id_of(alloc, PaserkVersion::V1, PaserkType::Public, text.as_str())
}
