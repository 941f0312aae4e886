//! Keys of RSA (RFC 8017), of version 1.

ghost use Rattle.std.specs.Prelude.{◌≡◌, ◌↔◌, ℕ, ◌<◌, ◌≤◌, length, IfErr, IfOk, IsTrue, MatchOption};
ghost use Rattle.paseto_der.specs.Element.{element};
ghost use Rattle.paseto_rsa.specs.Keys.{IsPrivate, rsa_public};
ghost use Rattle.paseto_pem.specs.Algorithm.{rsa};
ghost use Rattle.paseto_pem.specs.Key.{ReadsContents, WritesContents};
ghost use Rattle.paseto_pem.specs.Rsa.{HasOtherModulus, HasOtherPublicSize, HasOtherSize, IsForm, IsFormFault, IsHeld, IsHeldFault, IsInnerFault, IsPrivateFault, IsPrivateOf, IsPrivateWritten, IsPublicFault, IsPublicOf, IsPublicWritten, IsSizeFault, modulus_size};
ghost use Rattle.paseto_pem.specs.Info.{IsHalf, lent, private_key_info, public_key_info};
ghost use Rattle.paseto_pem.specs.declared.label.Label.TheVariants.{PrivateKey as PrivateLabel, PublicKey as PublicLabel};

use crate::algorithm::{algorithm_of, rsa};
use crate::error::PemError;
use crate::found::Algorithm;
use crate::info::{
    read_private_info, read_public_info, whole_element, write_private_info, write_public_info,
};
use crate::label::Label;
use paseto_der::read_element;
use paseto_rsa::{is_private_key, is_public_key};
use std::alloc::{AllocError, Global};

const INTEGER: u8 = 0x02;

const SEQUENCE: u8 = 0x30;

// How many bits a modulus has.
const MODULUS: usize = 2048;

// How many octets the RSAPrivateKey of a key has at most: nine INTEGERs, each of at most 257 octets.
const MOST_INNER: usize = 2400;

// An RSAPrivateKey, and the public key beside it, if there is one.
#[derive(Drop)]
struct Pair<'a> {
    inner: &'a [u8],
    public: Option<&'a [u8]>,
}

// How many bits a modulus has, rounded up to whole octets, if it is not longer than any that is read.
fn modulus_size(modulus: &[u8]) -> Option<usize>
    ensures { MatchOption result (65536 ≤ length modulus.now)
        (λ size. (length modulus.now < 65536) × (size ≡ modulus_size modulus.now)) }
{
    if modulus.len() >= 65536 {
        return None;
    }
    match modulus {
        [0, rest @ ..] => Some(8 * rest.len()),
        _ => Some(8 * modulus.len()),
    }
}

// How many bits the first INTEGER has, if it is no modulus of 2048 bits by its length.
fn other_modulus(integers: &[u8]) -> Option<usize>
    ensures { MatchOption result ((size : ℕ) → ¬ HasOtherModulus size integers.now)
        (λ size. HasOtherModulus size integers.now) }
{
    let modulus = read_element(INTEGER, integers)?;
    let size = modulus_size(modulus.contents)?;
    if size == MODULUS {
        return None;
    }
    Some(size)
}

// How many bits the modulus of an RSAPrivateKey has, if these are not 2048.
fn other_size(inner: &[u8]) -> Option<usize>
    ensures { MatchOption result ((size : ℕ) → ¬ HasOtherSize size inner.now)
        (λ size. HasOtherSize size inner.now) }
{
    let integers = whole_element(SEQUENCE, inner)?;
    let version = read_element(INTEGER, integers)?;
    other_modulus(version.behind)
}

// The RSAPrivateKey in a OneAsymmetricKey.
fn pair_in_info(contents: &[u8]) -> Result<Pair<'_>, PemError>
    ensures found { IfOk result (λ pair.
        IsForm PrivateLabel contents.now pair.inner.now (lent pair.public)) }
    ensures refused { IfErr result (IsFormFault PrivateLabel contents.now) }
{
    let Some(info) = read_private_info(contents) else {
        return Err(PemError::InvalidDer);
    };
    match algorithm_of(info.algorithm) {
        Algorithm::Rsa => Ok(Pair {
            inner: info.key,
            public: info.public,
        }),
        other => Err(PemError::OtherAlgorithm(other)),
    }
}

// The RSAPrivateKey that contents under a label are.
fn pair_of(label: Label, contents: &[u8]) -> Result<Pair<'_>, PemError>
    ensures found { IfOk result (λ pair.
        IsForm label contents.now pair.inner.now (lent pair.public)) }
    ensures refused { IfErr result (IsFormFault label contents.now) }
{
    match label {
        Label::PrivateKey => pair_in_info(contents),
        Label::RsaPrivateKey => Ok(Pair {
            inner: contents,
            public: None,
        }),
        _ => Err(PemError::other_label(label)),
    }
}

// The contents of the RSAPublicKey of an RSAPrivateKey: the INTEGERs of its modulus and of its public exponent.
fn public_integers(inner: &[u8]) -> Option<&[u8]>
    ensures { MatchOption result (¬ IsPrivate (private_key_info rsa inner.now))
        (λ integers. element 0x30 integers.now ≡ rsa_public (private_key_info rsa inner.now)) }
{
    let integers = whole_element(SEQUENCE, inner)?;
    let version = read_element(INTEGER, integers)?;
    let modulus = read_element(INTEGER, version.behind)?;
    let exponent = read_element(INTEGER, modulus.behind)?;
    Some(&version.behind[..version.behind.len() - exponent.behind.len()])
}

// Whether octets are the RSAPublicKey of an RSAPrivateKey.
fn is_public_of(public: &[u8], inner: &[u8]) -> bool
    requires { IsPrivate (private_key_info rsa inner.now) }
    ensures { IsTrue result ↔ (public.now ≡ rsa_public (private_key_info rsa inner.now)) }
{
    match (whole_element(SEQUENCE, public), public_integers(inner)) {
        (Some(integers), Some(own)) => integers == own,
        _ => false,
    }
}

// Whether the public key beside an RSAPrivateKey is its own, if there is one.
fn is_own_half(pair: &Pair<'_>) -> bool
    requires { IsPrivate (private_key_info rsa pair.now.inner.now) }
    ensures { IsTrue result
        ↔ IsHalf (lent pair.now.public) (rsa_public (private_key_info rsa pair.now.inner.now)) }
{
    match pair.public {
        Some(public) => is_public_of(public, pair.inner),
        None => true,
    }
}

// The PrivateKeyInfo of an RSAPrivateKey, if it is a key of 2048 bits.
fn key_of_inner(alloc: Global, inner: &[u8]) -> Result<Option<Vec<u8>>, AllocError>
    ensures { IfOk result (λ found. MatchOption found
        (¬ IsPrivate (private_key_info rsa inner.now))
        (λ key. (key.items ≡ private_key_info rsa inner.now) × IsPrivate key.items)) }
{
    if MOST_INNER < inner.len() {
        return Ok(None);
    }
    let key = write_private_info(alloc, &rsa(), inner)?;
    if !is_private_key(&key) {
        return Ok(None);
    }
    Ok(Some(key))
}

// Why an RSAPrivateKey is refused that is none of 2048 bits.
fn inner_refusal(inner: &[u8]) -> PemError
    requires { ¬ IsPrivate (private_key_info rsa inner.now) }
    ensures { IsInnerFault inner.now result }
{
    match other_size(inner) {
        Some(size) => PemError::OtherSize(size),
        None => PemError::InvalidKey,
    }
}

/// The private key that contents are.
pub(crate) fn read_private(
    alloc: Global,
    label: Label,
    contents: &[u8],
) -> Result<Vec<u8>, PemError>
    ensures { ReadsContents IsPrivateOf IsPrivateFault label contents.now result }
{
    let pair = pair_of(label, contents)?;
    let Some(key) = key_of_inner(alloc, pair.inner)? else {
        return Err(inner_refusal(pair.inner));
    };
    if !is_own_half(&pair) {
        return Err(PemError::OtherHalf);
    }
    Ok(key)
}

/// The contents of the text of a private key.
pub(crate) fn write_private(alloc: Global, key: &[u8]) -> Result<Vec<u8>, PemError>
    ensures { WritesContents IsPrivateWritten PrivateLabel key.now result }
{
    if !is_private_key(key) {
        return Err(PemError::InvalidKey);
    }
    Ok(Vec::from_slice(alloc, key)?)
}

// What stands for the key in a SubjectPublicKeyInfo.
fn held_in_info(contents: &[u8]) -> Result<&[u8], PemError>
    ensures found { IfOk result (λ key. contents.now ≡ public_key_info rsa key.now) }
    ensures refused { IfErr result (IsHeldFault PublicLabel contents.now) }
{
    let Some(info) = read_public_info(contents) else {
        return Err(PemError::InvalidDer);
    };
    match algorithm_of(info.algorithm) {
        Algorithm::Rsa => Ok(info.key),
        other => Err(PemError::OtherAlgorithm(other)),
    }
}

// What stands in contents for an RSAPublicKey, whatever it is.
fn held(label: Label, contents: &[u8]) -> Result<&[u8], PemError>
    ensures found { IfOk result (λ key. IsHeld label contents.now key.now) }
    ensures refused { IfErr result (IsHeldFault label contents.now) }
{
    match label {
        Label::RsaPublicKey => Ok(contents),
        Label::PublicKey => held_in_info(contents),
        _ => Err(PemError::other_label(label)),
    }
}

// How many bits the modulus of an RSAPublicKey has, if these are not 2048.
fn other_public_size(key: &[u8]) -> Option<usize>
    ensures { MatchOption result ((size : ℕ) → ¬ HasOtherPublicSize size key.now)
        (λ size. HasOtherPublicSize size key.now) }
{
    other_modulus(whole_element(SEQUENCE, key)?)
}

// Why an RSAPublicKey is refused.
fn public_refusal(key: &[u8]) -> PemError
    ensures { IsSizeFault key.now result }
{
    match other_public_size(key) {
        Some(size) => PemError::OtherSize(size),
        None => PemError::InvalidKey,
    }
}

/// The public key that contents are.
pub(crate) fn read_public(alloc: Global, label: Label, contents: &[u8]) -> Result<Vec<u8>, PemError>
    ensures { ReadsContents IsPublicOf IsPublicFault label contents.now result }
{
    let key = held(label, contents)?;
    if !is_public_key(key) {
        return Err(public_refusal(key));
    }
    Ok(Vec::from_slice(alloc, key)?)
}

/// The contents of the text of a public key.
pub(crate) fn write_public(alloc: Global, key: &[u8]) -> Result<Vec<u8>, PemError>
    ensures { WritesContents IsPublicWritten PublicLabel key.now result }
{
    if !is_public_key(key) {
        return Err(PemError::InvalidKey);
    }
    Ok(write_public_info(alloc, &rsa(), key)?)
}
