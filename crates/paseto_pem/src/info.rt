//! Keys with their algorithm, in DER.

ghost use Rattle.std.specs.Prelude.{◌≡◌, ◌≢◌, ◌↔◌, ◌∷◌, ◌++◌, ◌+◌, ◌<◌, [], ℕ, List, Option, length, IfOk, IsTrue, MatchOption, OnOk};
ghost use Rattle.paseto_der.specs.Element.{der_length, element};
ghost use Rattle.paseto_pem.specs.Info.{AreAttributes, IsHalf, IsNoPrivateInfo, IsNoPublicInfo, IsPrivateInfo, lent, private_key_info, public_key_info, public_of, version_of};

use paseto_der::read_element;
use std::alloc::{AllocError, Global};

// The tags of what keys are made of.
const INTEGER: u8 = 0x02;

const BIT_STRING: u8 = 0x03;

const OCTET_STRING: u8 = 0x04;

const SEQUENCE: u8 = 0x30;

const ATTRIBUTES: u8 = 0xa0;

const PUBLIC_KEY: u8 = 0x81;

/// An algorithm, and a public key of it.
#[derive(Drop)]
pub(crate) struct PublicInfo<'a> {
    pub(crate) algorithm: &'a [u8],
    pub(crate) key: &'a [u8],
}

/// An algorithm, a private key of it, and its public key, if it is there.
#[derive(Drop)]
pub(crate) struct PrivateInfo<'a> {
    pub(crate) algorithm: &'a [u8],
    pub(crate) key: &'a [u8],
    pub(crate) public: Option<&'a [u8]>,
}

// The INTEGER 0, which is the version that is written.
fn version() -> [u8; 3]
    ensures { result ≡ element 0x02 (0 ∷ []) }
{
    [0x02, 0x01, 0x00]
}

/// The contents of the element with this tag that octets are.
pub(crate) fn whole_element(tag: u8, octets: &[u8]) -> Option<&[u8]>
    ensures { MatchOption result ((contents : List ℕ) → octets.now ≡ element tag contents → ⊥)
        (λ contents. octets.now ≡ element tag contents.now) }
{
    let element = read_element(tag, octets)?;
    if !element.behind.is_empty() {
        return None;
    }
    Some(element.contents)
}

// What stands behind the attributes of a key, if it has any.
fn behind_attributes(octets: &[u8]) -> &[u8]
    ensures split { (attributes : List ℕ) × AreAttributes attributes
        × (octets.now ≡ attributes ++ result.now) }
    ensures only { (attributes : List ℕ) (public : Option (List ℕ)) → AreAttributes attributes
        → octets.now ≡ attributes ++ public_of public → result.now ≡ public_of public }
{
    match read_element(ATTRIBUTES, octets) {
        Some(attributes) => attributes.behind,
        None => octets,
    }
}

// The public key in octets that are one, tagged.
fn tagged_public(octets: &[u8]) -> Option<&[u8]>
    ensures { MatchOption result ((key : List ℕ) → octets.now ≢ element 0x81 (0 ∷ key))
        (λ key. octets.now ≡ element 0x81 (0 ∷ key.now)) }
{
    let bits = whole_element(PUBLIC_KEY, octets)?;
    bits.strip_prefix(&[0])
}

// The public key that stands behind a private one, by the version.
fn public_half<'a>(version: &[u8], behind: &'a [u8]) -> Option<Option<&'a [u8]>>
    ensures { MatchOption result
        ((public : Option (List ℕ)) → version.now ≡ version_of public ∷ []
        → behind.now ≢ public_of public)
        (λ public. (version.now ≡ version_of (lent public) ∷ [])
        × (behind.now ≡ public_of (lent public))) }
{
    match version {
        [0] if behind.is_empty() => Some(None),
        [1] => Some(Some(tagged_public(behind)?)),
        _ => None,
    }
}

/// The algorithm and the keys of a OneAsymmetricKey.
pub(crate) fn read_private_info(octets: &[u8]) -> Option<PrivateInfo<'_>>
    ensures { MatchOption result (IsNoPrivateInfo octets.now)
        (λ info. IsPrivateInfo info.algorithm.now info.key.now (lent info.public) octets.now) }
{
    let contents = whole_element(SEQUENCE, octets)?;
    let version = read_element(INTEGER, contents)?;
    let algorithm = read_element(SEQUENCE, version.behind)?;
    let key = read_element(OCTET_STRING, algorithm.behind)?;
    let public = public_half(version.contents, behind_attributes(key.behind))?;
    Some(PrivateInfo {
        algorithm: algorithm.contents,
        key: key.contents,
        public,
    })
}

/// Whether the public key beside a private one is this one, if there is one.
pub(crate) fn is_half(public: Option<&[u8]>, own: &[u8]) -> bool
    ensures { IsTrue result ↔ IsHalf (lent public.entry) own.now }
{
    match public {
        Some(public) => public == own,
        None => true,
    }
}

/// The algorithm and the key of a SubjectPublicKeyInfo.
pub(crate) fn read_public_info(octets: &[u8]) -> Option<PublicInfo<'_>>
    ensures { MatchOption result
        (IsNoPublicInfo octets.now)
        (λ info. octets.now ≡ public_key_info info.algorithm.now info.key.now) }
{
    let contents = whole_element(SEQUENCE, octets)?;
    let algorithm = read_element(SEQUENCE, contents)?;
    let bits = whole_element(BIT_STRING, algorithm.behind)?;
    let key = bits.strip_prefix(&[0])?;
    Some(PublicInfo {
        algorithm: algorithm.contents,
        key,
    })
}

// Appends the octets of a length, as few as there can be.
fn push_length(length: usize, out: &mut Vec<u8>) -> Result<(), AllocError>
    requires { length < 65536 }
    ensures { OnOk result (out.new.items ≡ out.old.items ++ der_length length) }
{
    if length < 128 {
        out.extend_from_slice(&[length as u8])?;
        return Ok(());
    }
    if length < 256 {
        out.extend_from_slice(&[0x81, length as u8])?;
        return Ok(());
    }
    out.extend_from_slice(&[0x82, (length / 256) as u8, (length % 256) as u8])?;
    Ok(())
}

/// Appends an element.
pub(crate) fn push_element(tag: u8, contents: &[u8], out: &mut Vec<u8>) -> Result<(), AllocError>
    requires { length contents.now < 65536 }
    ensures { OnOk result (out.new.items ≡ out.old.items ++ element tag contents.now) }
{
    out.extend_from_slice(&[tag])?;
    push_length(contents.len(), out)?;
    out.extend_from_slice(contents)?;
    Ok(())
}

/// The PrivateKeyInfo of a key.
pub(crate) fn write_private_info(
    alloc: Global,
    algorithm: &[u8],
    key: &[u8],
) -> Result<Vec<u8>, AllocError>
    requires { length algorithm.now + length key.now < 65000 }
    ensures { IfOk result (λ info. info.items ≡ private_key_info algorithm.now key.now) }
{
    let mut contents = Vec::from_slice(alloc, &version())?;
    push_element(SEQUENCE, algorithm, &mut contents)?;
    push_element(OCTET_STRING, key, &mut contents)?;
    let mut info = Vec::new(alloc);
    push_element(SEQUENCE, &contents, &mut info)?;
    Ok(info)
}

/// The SubjectPublicKeyInfo of a key.
pub(crate) fn write_public_info(
    alloc: Global,
    algorithm: &[u8],
    key: &[u8],
) -> Result<Vec<u8>, AllocError>
    requires { length algorithm.now + length key.now < 65000 }
    ensures { IfOk result (λ info. info.items ≡ public_key_info algorithm.now key.now) }
{
    let mut bits = Vec::from_slice(alloc, &[0])?;
    bits.extend_from_slice(key)?;
    let mut contents = Vec::new(alloc);
    push_element(SEQUENCE, algorithm, &mut contents)?;
    push_element(BIT_STRING, &bits, &mut contents)?;
    let mut info = Vec::new(alloc);
    push_element(SEQUENCE, &contents, &mut info)?;
    Ok(info)
}
