//! Keys of Ed25519 (RFC 8410), of versions 2 and 4.

ghost use Rattle.std.specs.Prelude.{◌≡◌, ◌≢◌, ◌↔◌, Option, ℕ, List, length, IfErr, IfOk, IsTrue, MatchOption};
ghost use Rattle.paseto_der.specs.Element.{element};
ghost use Rattle.paseto_ed25519.specs.Ed25519.{ed25519_public};
ghost use Rattle.paseto_pem.specs.Algorithm.{ed25519};
ghost use Rattle.paseto_pem.specs.Ed25519.{IsPrivateFault, IsPrivateOf, IsPrivateRefusal, IsPrivateWritten, IsPublicFault, IsPublicOf, IsPublicRefusal, IsSeed};
ghost use Rattle.paseto_pem.specs.Info.{IsHalf, lent, public_key_info};
ghost use Rattle.paseto_pem.specs.Key.{ReadsContents, WritesContents};
ghost use Rattle.paseto_pem.specs.declared.label.Label.TheVariants.{PrivateKey as PrivateLabel, PublicKey as PublicLabel};

use crate::algorithm::{algorithm_of, ed25519};
use crate::error::PemError;
use crate::found::Algorithm;
use crate::info::{
    is_half, push_element, read_private_info, read_public_info, whole_element, write_private_info,
    write_public_info,
};
use crate::label::Label;
use paseto_ed25519::Ed25519;
use rusty_paseto_parts::Key;
use std::alloc::Global;

const OCTET_STRING: u8 = 0x04;

// How many octets a seed and a public key have.
const HALF: usize = 32;

// A seed, and the public key beside it, if there is one.
#[derive(Drop)]
struct Seed<'a> {
    seed: &'a [u8],
    public: Option<&'a [u8]>,
}

// The seed of 32 octets in the key of a OneAsymmetricKey.
fn seed_in(key: &[u8]) -> Option<&[u8]>
    ensures { MatchOption result
        ((seed : List ℕ) → length seed ≡ 32 → key.now ≢ element 0x04 seed)
        (λ seed. (length seed.now ≡ 32) × (key.now ≡ element 0x04 seed.now)) }
{
    let seed = whole_element(OCTET_STRING, key)?;
    if seed.len() != HALF {
        return None;
    }
    Some(seed)
}

// The seed in contents that are a OneAsymmetricKey.
fn seed_of(contents: &[u8]) -> Result<Seed<'_>, PemError>
    ensures found { IfOk result (λ found. IsSeed found.seed.now (lent found.public) contents.now) }
    ensures refused { IfErr result (IsPrivateRefusal contents.now) }
{
    let Some(info) = read_private_info(contents) else {
        return Err(PemError::InvalidDer);
    };
    match algorithm_of(info.algorithm) {
        Algorithm::Ed25519 => {}
        other => return Err(PemError::OtherAlgorithm(other)),
    }
    match seed_in(info.key) {
        Some(seed) => Ok(Seed {
            seed,
            public: info.public,
        }),
        None => Err(PemError::InvalidKey),
    }
}

// The key in contents that are a SubjectPublicKeyInfo.
fn public_of(contents: &[u8]) -> Result<&[u8], PemError>
    ensures found { IfOk result (λ key. (length key.now ≡ 32)
        × (contents.now ≡ public_key_info ed25519 key.now)) }
    ensures refused { IfErr result (IsPublicRefusal contents.now) }
{
    let Some(info) = read_public_info(contents) else {
        return Err(PemError::InvalidDer);
    };
    match algorithm_of(info.algorithm) {
        Algorithm::Ed25519 => {}
        other => return Err(PemError::OtherAlgorithm(other)),
    }
    if info.key.len() != HALF {
        return Err(PemError::InvalidKey);
    }
    Ok(info.key)
}

// The public key of a seed.
fn public_key(seed: &[u8]) -> [u8; 32]
    requires { length seed.now ≡ 32 }
    ensures { result ≡ ed25519_public seed.now }
{
    Ed25519::public_key(Key::<32>::from_slice(seed).as_bytes())
}

/// The private key that contents are.
pub(crate) fn read_private(
    alloc: Global,
    label: Label,
    contents: &[u8],
) -> Result<Vec<u8>, PemError>
    ensures { ReadsContents IsPrivateOf IsPrivateFault label contents.now result }
{
    let Label::PrivateKey = label else {
        return Err(PemError::other_label(label));
    };
    let found = seed_of(contents)?;
    let own = public_key(found.seed);
    if !is_half(found.public, &own) {
        return Err(PemError::OtherHalf);
    }
    let mut key = Vec::from_slice(alloc, found.seed)?;
    key.extend_from_slice(&own)?;
    Ok(key)
}

/// The public key that contents are.
pub(crate) fn read_public(alloc: Global, label: Label, contents: &[u8]) -> Result<Vec<u8>, PemError>
    ensures { ReadsContents IsPublicOf IsPublicFault label contents.now result }
{
    let Label::PublicKey = label else {
        return Err(PemError::other_label(label));
    };
    let key = public_of(contents)?;
    Ok(Vec::from_slice(alloc, key)?)
}

/// The contents of the text of a private key.
pub(crate) fn write_private(alloc: Global, key: &[u8]) -> Result<Vec<u8>, PemError>
    ensures { WritesContents IsPrivateWritten PrivateLabel key.now result }
{
    if key.len() != 2 * HALF {
        return Err(PemError::InvalidKey);
    }
    let (seed, public) = key.split_at(HALF);
    if public_key(seed).as_slice() != public {
        return Err(PemError::InvalidKey);
    }
    let mut string = Vec::new(alloc);
    push_element(OCTET_STRING, seed, &mut string)?;
    Ok(write_private_info(alloc, &ed25519(), &string)?)
}

/// The contents of the text of a public key.
pub(crate) fn write_public(alloc: Global, key: &[u8]) -> Result<Vec<u8>, PemError>
    ensures { WritesContents IsPublicOf PublicLabel key.now result }
{
    if key.len() != HALF {
        return Err(PemError::InvalidKey);
    }
    Ok(write_public_info(alloc, &ed25519(), key)?)
}
