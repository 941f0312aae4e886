//! Keys in the forms that texts of keys have (RFC 8017, appendix A.1; RFC 5208, section 5; RFC 5280, section 4.1).

ghost use Rattle.std.specs.Prelude.{◌≡◌, ◌↔◌, ◌++◌, ◌∷◌, ◌<◌, ◌≤◌, List, ℕ, length, IfOk, IsTrue, MatchOption, OnOk};
ghost use Rattle.paseto_der.specs.Element.{der_length};
ghost use Rattle.paseto_montgomery.specs.Octets.{i2osp};
ghost use Rattle.paseto_montgomery.specs.Words.{value};
ghost use Rattle.paseto_rsa.specs.Forms.{IsPublic, IsRsaPrivateKey, is_public, private_key_info, public_key_info};
ghost use Rattle.paseto_rsa.specs.Keys.{IsPrivate, rsa_private, rsa_public};

use crate::private_key::PrivateKey;
use crate::private_reading::{inner_key, is_private_key, key_front};
use crate::public_key::PublicKey;
use paseto_montgomery::to_octets;
use std::alloc::{AllocError, Global};

// The tag of a SEQUENCE.
const SEQUENCE: u8 = 0x30;

// The tag of an OCTET STRING.
const OCTET_STRING: u8 = 0x04;

// How many octets an RSAPrivateKey has at least.
const SHORTEST: usize = 256;

// The first length that no RSAPrivateKey has.
const TOO_LONG: usize = 65_000;

// How many octets stand in front of an RSAPrivateKey, behind the tag and the length of a PrivateKeyInfo: those before the
// key, and the tag and the length of the key.
const FRONT_LENGTH: usize = 22;

// How many octets an RSAPublicKey has.
const PUBLIC_KEY: usize = 270;

// How many octets stand before it in a SubjectPublicKeyInfo.
const PUBLIC_FRONT: usize = 24;

// What stands before the octets of a modulus of 2048 bits in an RSAPublicKey: the tags and the lengths of the key and of
// the modulus, and an octet for its sign.
const PUBLIC_BEFORE: [u8; 9] = [0x30, 0x82, 0x01, 0x0a, 0x02, 0x82, 0x01, 0x01, 0x00];

// What stands behind them: the exponent 65537.
const PUBLIC_BEHIND: [u8; 5] = [0x02, 0x03, 0x01, 0x00, 0x01];

/// The RSAPrivateKey of PKCS #1 in a private key of `RsaPss`, which is a PrivateKeyInfo of PKCS #8. `None` if and only if
/// the octets are no private key. Does not allocate.
///
/// Source: RFC 5208, section 5; RFC 8017, appendix A.1.2.
pub fn private_key_to_pkcs1(key: &[u8]) -> Option<&[u8]>
    ensures { MatchOption result (¬ IsPrivate key.now)
        (λ inner. IsPrivate key.now × (inner.now ≡ rsa_private key.now)) }
{
    let inner = inner_key(key)?;
    if !is_private_key(key) {
        return None;
    }
    Some(inner)
}

// Appends the tag and the length of an element whose length takes two octets.
fn push_front(tag: u8, length: usize, out: &mut Vec<u8>) -> Result<(), AllocError>
    requires long { 256 ≤ length }
    requires short { length < 65536 }
    ensures { OnOk result (out.new.items ≡ out.old.items ++ tag ∷ der_length length) }
{
    out.extend_from_slice(&[tag, 0x82, (length / 256) as u8, (length % 256) as u8])?;
    Ok(())
}

// The PrivateKeyInfo of an RSAPrivateKey.
fn write_private_info(alloc: Global, inner: &[u8]) -> Result<Vec<u8>, AllocError>
    requires long { 256 ≤ length inner.now }
    requires short { length inner.now < 65000 }
    ensures { IfOk result (λ info. info.items ≡ private_key_info inner.now) }
{
    let length = inner.len() + FRONT_LENGTH;
    let mut info = Vec::with_capacity(alloc, length + 4)?;
    push_front(SEQUENCE, length, &mut info)?;
    info.extend_from_slice(&key_front())?;
    push_front(OCTET_STRING, inner.len(), &mut info)?;
    info.extend_from_slice(inner)?;
    Ok(info)
}

/// The private key of `RsaPss`, a PrivateKeyInfo of PKCS #8, of an RSAPrivateKey of PKCS #1. `None` if and only if the
/// octets are not one of a private key as `RsaPss` takes it. It fails only if an allocation does.
///
/// Source: RFC 5208, section 5; RFC 8017, appendix A.1.2.
pub fn private_key_from_pkcs1(alloc: Global, inner: &[u8]) -> Result<Option<Vec<u8>>, AllocError>
    ensures { IfOk result (λ found. MatchOption found (¬ IsRsaPrivateKey inner.now)
        (λ key. IsRsaPrivateKey inner.now × (key.items ≡ private_key_info inner.now))) }
{
    if inner.len() < SHORTEST {
        return Ok(None);
    }
    if inner.len() >= TOO_LONG {
        return Ok(None);
    }
    let key = write_private_info(alloc, inner)?;
    if !is_private_key(&key) {
        return Ok(None);
    }
    Ok(Some(key))
}

/// Whether octets are a public key of `RsaPss`: the RSAPublicKey of an RSA key of 2048 bits with the exponent 65537, in
/// DER. Does not allocate.
///
/// Source: RFC 8017, appendix A.1.1.
pub fn is_public_key(key: &[u8]) -> bool
    ensures valid { IsTrue result ↔ IsPublic key.now }
    ensures decided { result ≡ is_public key.now }
{
    if key.len() != PUBLIC_KEY {
        return false;
    }
    match PublicKey::from_der(key) {
        Some(_) => true,
        None => false,
    }
}

// What stands before a public key in a SubjectPublicKeyInfo: the algorithm, and the beginning of the BIT STRING.
fn public_front() -> [u8; 24]
    ensures { (key : List ℕ) → length key ≡ 270 → public_key_info key ≡ result ++ key }
{
    [
        0x30, 0x82, 0x01, 0x22, 0x30, 0x0d, 0x06, 0x09, 0x2a, 0x86, 0x48, 0x86, 0xf7, 0x0d, 0x01,
        0x01, 0x01, 0x05, 0x00, 0x03, 0x82, 0x01, 0x0f, 0x00,
    ]
}

/// The SubjectPublicKeyInfo of a public key of `RsaPss`, which is an RSAPublicKey of PKCS #1. `None` if and only if the
/// octets are no public key. Does not allocate.
///
/// Source: RFC 5280, section 4.1; RFC 8017, appendix A.1.
pub fn public_key_to_info(key: &[u8]) -> Option<[u8; 294]>
    ensures { MatchOption result (¬ IsPublic key.now)
        (λ info. IsPublic key.now × (info ≡ public_key_info key.now)) }
{
    if !is_public_key(key) {
        return None;
    }
    let mut info = [0; 294];
    let (front, back) = info.split_at_mut(PUBLIC_FRONT);
    front.copy_from_slice(&public_front());
    back.copy_from_slice(key);
    Some(info)
}

/// The public key of `RsaPss`, an RSAPublicKey of PKCS #1, in a SubjectPublicKeyInfo. `None` if and only if the octets are
/// not that of a public key. Does not allocate.
///
/// Source: RFC 5280, section 4.1; RFC 8017, appendix A.1.
pub fn public_key_from_info(info: &[u8]) -> Option<&[u8]>
    ensures { MatchOption result
        ((key : List ℕ) → IsPublic key → info.now ≡ public_key_info key → ⊥)
        (λ key. IsPublic key.now × (info.now ≡ public_key_info key.now)) }
{
    let key = info.strip_prefix(&public_front())?;
    if !is_public_key(key) {
        return None;
    }
    Some(key)
}

// The RSAPublicKey of a modulus of 2048 bits and the exponent 65537.
fn write_public(n: &[u64; 32]) -> [u8; 270]
    ensures { result ≡ PUBLIC_BEFORE ++ (i2osp (value n.now 32) 256 ++ PUBLIC_BEHIND) }
{
    let mut key = [0; 270];
    let (front, rest) = key.split_at_mut(PUBLIC_BEFORE.len());
    let (modulus, exponent) = rest.split_at_mut(256);
    front.copy_from_slice(&PUBLIC_BEFORE);
    to_octets(n, modulus);
    exponent.copy_from_slice(&PUBLIC_BEHIND);
    key
}

/// The public key of a private key of `RsaPss`, which is a PrivateKeyInfo of PKCS #8: the RSAPublicKey of PKCS #1 of its
/// modulus and its public exponent. `None` if and only if the octets are no private key. Does not allocate.
///
/// Source: RFC 8017, appendix A.1.1.
pub fn public_key_of(key: &[u8]) -> Option<[u8; 270]>
    ensures { MatchOption result (¬ IsPrivate key.now)
        (λ public. IsPrivate key.now × IsPublic public × (public ≡ rsa_public key.now)) }
{
    let private = PrivateKey::from_der(key)?;
    Some(write_public(&private.public.modulus.words))
}
