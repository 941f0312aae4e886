//! Keys of P-384 (RFC 5480, RFC 5915), of version 3.

ghost use Rattle.std.specs.Prelude.{◌≡◌, ◌↔◌, ◌⊎◌, ◌∷◌, ◌++◌, ◌<◌, [], ℕ, List, length, IfErr, IfOk, IsTrue, MatchOption};
ghost use Rattle.paseto_der.specs.Element.{element};
ghost use Rattle.paseto_pem.specs.Info.{lent, private_key_info, public_key_info};
ghost use Rattle.paseto_pem.specs.Key.{ReadsContents, WritesContents};
ghost use Rattle.paseto_pem.specs.Algorithm.{secp384r1};
ghost use Rattle.paseto_pem.specs.P384.{AreHalves, IsAlgorithmFault, IsAloneFault, IsBehindCurve, IsCurveFault, IsForm, IsFormFault, IsInfoFault, IsNumber, IsPoint, IsPointOf, IsPrivateFault, IsPrivateOf, IsPrivateWritten, IsPublicFault, IsPublicOf, IsPublicWritten, IsPublicRefusal, IsSpelled, compressed, ec_private_key, p384, parameters, public_part};
ghost use Rattle.paseto_pem.specs.declared.label.Label.TheVariants.{EcPrivateKey as EcLabel, PrivateKey as PrivateLabel, PublicKey as PublicLabel};

use crate::algorithm::{algorithm_of, curve_of, ec_public_key, secp384r1};
use crate::error::PemError;
use crate::info::{
    is_half, push_element, read_private_info, read_public_info, whole_element, write_private_info,
    write_public_info,
};
use crate::label::Label;
use paseto_der::read_element;
use paseto_p384::P384;
use rusty_paseto_core::CompressedKey;
use rusty_paseto_parts::Key;
use std::alloc::{AllocError, Global};

// The tags of what keys are made of.
const BIT_STRING: u8 = 0x03;

const OCTET_STRING: u8 = 0x04;

const SEQUENCE: u8 = 0x30;

const PARAMETERS: u8 = 0xa0;

const PUBLIC_PART: u8 = 0xa1;

// How many octets a coordinate and a private key have.
const NUMBER: usize = 48;

// The number of an ECPrivateKey, and what stands behind it.
#[derive(Drop)]
struct EcKey<'a> {
    number: &'a [u8],
    rest: &'a [u8],
}

// The number of an ECPrivateKey of the curve, what stands for the public key in it, and the public key beside it.
#[derive(Drop)]
struct CurveKey<'a> {
    number: &'a [u8],
    rest: &'a [u8],
    public: Option<&'a [u8]>,
}

// The algorithm with the curve.
fn algorithm() -> [u8; 16]
    ensures { result ≡ p384 }
{
    [
        0x06, 0x07, 0x2a, 0x86, 0x48, 0xce, 0x3d, 0x02, 0x01, 0x06, 0x05, 0x2b, 0x81, 0x04, 0x00,
        0x22,
    ]
}

// The INTEGER 1, which is the version of an ECPrivateKey.
fn version() -> [u8; 3]
    ensures { result ≡ element 0x02 (1 ∷ []) }
{
    [0x02, 0x01, 0x01]
}

// Why an algorithm that is not this one is refused.
fn algorithm_refusal(algorithm: &[u8]) -> PemError
    requires { ¬ (algorithm.now ≡ p384) }
    ensures { IsAlgorithmFault algorithm.now result }
{
    match algorithm.strip_prefix(&ec_public_key()) {
        Some(curve) => PemError::OtherCurve(curve_of(curve)),
        None => PemError::OtherAlgorithm(algorithm_of(algorithm)),
    }
}

// The parts of an ECPrivateKey.
fn read_ec(octets: &[u8]) -> Option<EcKey<'_>>
    ensures { MatchOption result
        ((number rest : List ℕ) → octets.now ≡ ec_private_key number rest → ⊥)
        (λ key. octets.now ≡ ec_private_key key.number.now key.rest.now) }
{
    let contents = whole_element(SEQUENCE, octets)?;
    let behind = contents.strip_prefix(&version())?;
    let number = read_element(OCTET_STRING, behind)?;
    Some(EcKey {
        number: number.contents,
        rest: number.behind,
    })
}

// What stands behind the parameters of the curve, if it has any.
fn behind_curve(behind: &[u8]) -> Result<&[u8], PemError>
    ensures found { IfOk result (λ rest. IsBehindCurve behind.now rest.now) }
    ensures refused { IfErr result (IsCurveFault behind.now) }
{
    let Some(named) = read_element(PARAMETERS, behind) else {
        return Ok(behind);
    };
    if named.contents != secp384r1().as_slice() {
        return Err(PemError::OtherCurve(curve_of(named.contents)));
    }
    Ok(named.behind)
}

// The ECPrivateKey in a OneAsymmetricKey.
fn key_in_info(contents: &[u8]) -> Result<CurveKey<'_>, PemError>
    ensures found { IfOk result (λ key.
        IsForm PrivateLabel contents.now key.number.now key.rest.now (lent key.public)) }
    ensures refused { IfErr result (IsInfoFault contents.now) }
{
    let Some(info) = read_private_info(contents) else {
        return Err(PemError::InvalidDer);
    };
    if info.algorithm != algorithm().as_slice() {
        return Err(algorithm_refusal(info.algorithm));
    }
    let Some(key) = read_ec(info.key) else {
        return Err(PemError::InvalidKey);
    };
    let rest = behind_curve(key.rest)?;
    Ok(CurveKey {
        number: key.number,
        rest,
        public: info.public,
    })
}

// The ECPrivateKey that stands alone.
fn key_alone(contents: &[u8]) -> Result<CurveKey<'_>, PemError>
    ensures found { IfOk result (λ key.
        IsForm EcLabel contents.now key.number.now key.rest.now (lent key.public)) }
    ensures refused { IfErr result (IsAloneFault contents.now) }
{
    let Some(key) = read_ec(contents) else {
        return Err(PemError::InvalidDer);
    };
    let Some(named) = read_element(PARAMETERS, key.rest) else {
        return Err(PemError::InvalidDer);
    };
    if named.contents != secp384r1().as_slice() {
        return Err(PemError::OtherCurve(curve_of(named.contents)));
    }
    Ok(CurveKey {
        number: key.number,
        rest: named.behind,
        public: None,
    })
}

// The ECPrivateKey that contents under a label are.
fn key_of(label: Label, contents: &[u8]) -> Result<CurveKey<'_>, PemError>
    ensures found { IfOk result (λ key.
        IsForm label contents.now key.number.now key.rest.now (lent key.public)) }
    ensures refused { IfErr result (IsFormFault label contents.now) }
{
    match label {
        Label::PrivateKey => key_in_info(contents),
        Label::EcPrivateKey => key_alone(contents),
        _ => Err(PemError::other_label(label)),
    }
}

// The octets of a number, behind the 0 that may stand before those of a private key.
fn without_zero(number: &[u8]) -> &[u8]
    ensures told { IsNumber number.now result.now }
    ensures only { (key : List ℕ) → length key ≡ 48 → IsNumber number.now key → key ≡ result.now }
{
    match number {
        [0, key @ ..] if key.len() == NUMBER => key,
        _ => number,
    }
}

// The coordinates of the public key of a private key, if it is one.
fn point_of(alloc: Global, private: &[u8]) -> Option<[u8; 96]>
    ensures { MatchOption result ((xy : List ℕ) → ¬ IsPointOf private.now xy)
        (λ xy. IsPointOf private.now xy) }
{
    match P384.public_key(alloc, private) {
        Ok(public) => P384::coordinates(&public),
        Err(_) => None,
    }
}

// The public key in an ECPrivateKey.
fn public_part(alloc: Global, xy: &[u8; 96]) -> Result<Vec<u8>, AllocError>
    ensures { IfOk result (λ part. part.items ≡ public_part xy.now) }
{
    let mut bits = Vec::from_slice(alloc, &[0, 4])?;
    bits.extend_from_slice(xy)?;
    let mut string = Vec::new(alloc);
    push_element(BIT_STRING, &bits, &mut string)?;
    let mut part = Vec::new(alloc);
    push_element(PUBLIC_PART, &string, &mut part)?;
    Ok(part)
}

// Whether octets are no public key, or that of these coordinates.
fn is_part(alloc: Global, xy: &[u8; 96], rest: &[u8]) -> Result<bool, AllocError>
    ensures { IfOk result (λ is. IsTrue is
        ↔ ((rest.now ≡ []) ⊎ (rest.now ≡ public_part xy.now))) }
{
    if rest.is_empty() {
        return Ok(true);
    }
    let part = public_part(alloc, xy)?;
    Ok(part.as_slice() == rest)
}

// The octets of a point without compression.
fn point(xy: &[u8; 96]) -> [u8; 97]
    ensures { result ≡ 4 ∷ xy.now }
{
    let mut octets = [4u8; 97];
    let (_form, rest) = octets.split_at_mut(1);
    rest.copy_from_slice(xy);
    octets
}

// Whether each public key beside a private one has these coordinates.
fn are_halves(alloc: Global, key: &CurveKey<'_>, xy: &[u8; 96]) -> Result<bool, AllocError>
    ensures { IfOk result (λ are. IsTrue are
        ↔ AreHalves key.now.rest.now (lent key.now.public) xy.now) }
{
    if !is_half(key.public, &point(xy)) {
        return Ok(false);
    }
    is_part(alloc, xy, key.rest)
}

/// The private key that contents are.
pub(crate) fn read_private(
    alloc: Global,
    label: Label,
    contents: &[u8],
) -> Result<Vec<u8>, PemError>
    ensures { ReadsContents IsPrivateOf IsPrivateFault label contents.now result }
{
    let key = key_of(label, contents)?;
    let number = without_zero(key.number);
    let Some(xy) = point_of(alloc, number) else {
        return Err(PemError::InvalidKey);
    };
    if !are_halves(alloc, &key, &xy)? {
        return Err(PemError::OtherHalf);
    }
    Ok(Vec::from_slice(alloc, number)?)
}

// The ECPrivateKey of a number of 48 octets, with its public key.
fn write_ec(alloc: Global, number: &[u8], xy: &[u8; 96]) -> Result<Vec<u8>, AllocError>
    requires { length number.now ≡ 48 }
    ensures { IfOk result (λ key. (key.items ≡ ec_private_key number.now (public_part xy.now))
        × (length key.items < 1000)) }
{
    let mut contents = Vec::from_slice(alloc, &version())?;
    push_element(OCTET_STRING, number, &mut contents)?;
    let part = public_part(alloc, xy)?;
    contents.extend_from_slice(&part)?;
    let mut key = Vec::new(alloc);
    push_element(SEQUENCE, &contents, &mut key)?;
    Ok(key)
}

/// The contents of the text of a private key.
pub(crate) fn write_private(alloc: Global, key: &[u8]) -> Result<Vec<u8>, PemError>
    ensures { WritesContents IsPrivateWritten PrivateLabel key.now result }
{
    let Some(xy) = point_of(alloc, key) else {
        return Err(PemError::InvalidKey);
    };
    let inner = write_ec(alloc, key, &xy)?;
    Ok(write_private_info(alloc, &algorithm(), &inner)?)
}

// The compressed form of coordinates.
fn compressed(xy: &[u8]) -> [u8; 49]
    requires { length xy.now ≡ 96 }
    ensures { result ≡ compressed xy.now }
{
    let mut key = [0u8; 49];
    let (first, rest) = key.split_at_mut(1);
    first[0] = 2 + xy[95] % 2;
    let (x, _y) = xy.split_at(NUMBER);
    rest.copy_from_slice(x);
    key
}

// The coordinates of the point that a public key is.
fn coordinates_of(key: &[u8]) -> Option<[u8; 96]>
    ensures { MatchOption result ((xy : List ℕ) → ¬ IsPoint key.now xy) (λ xy. IsPoint key.now xy) }
{
    if key.len() != 49 {
        return None;
    }
    let xy = P384::coordinates(Key::<49>::from_slice(key).as_bytes())?;
    if compressed(&xy).as_slice() != key {
        return None;
    }
    Some(xy)
}

// The octets of a public key in a SubjectPublicKeyInfo.
fn octets_of(contents: &[u8]) -> Result<&[u8], PemError>
    ensures found { IfOk result (λ octets. contents.now ≡ public_key_info p384 octets.now) }
    ensures refused { IfErr result (IsPublicRefusal contents.now) }
{
    let Some(info) = read_public_info(contents) else {
        return Err(PemError::InvalidDer);
    };
    if info.algorithm != algorithm().as_slice() {
        return Err(algorithm_refusal(info.algorithm));
    }
    Ok(info.key)
}

// The public key that octets without compression are.
fn uncompressed(octets: &[u8]) -> Option<[u8; 49]>
    ensures { MatchOption result ((key xy : List ℕ) → IsPoint key xy → octets.now ≡ 4 ∷ xy → ⊥)
        (λ key. (xy : List ℕ) × IsPoint key xy × (octets.now ≡ 4 ∷ xy)) }
{
    if octets.len() != 97 {
        return None;
    }
    let (first, rest) = octets.split_at(1);
    if first[0] != 4 {
        return None;
    }
    let key = compressed(rest);
    let xy = coordinates_of(&key)?;
    if xy.as_slice() != rest {
        return None;
    }
    Some(key)
}

// The public key that octets are.
fn public_of(octets: &[u8]) -> Option<[u8; 49]>
    ensures { MatchOption result
        ((key xy : List ℕ) → IsPoint key xy → IsSpelled octets.now key xy → ⊥)
        (λ key. (xy : List ℕ) × IsPoint key xy × IsSpelled octets.now key xy) }
{
    if octets.len() == 49 {
        return match coordinates_of(octets) {
            Some(_) => Some(*Key::<49>::from_slice(octets).as_bytes()),
            None => None,
        };
    }
    uncompressed(octets)
}

/// The public key that contents are.
pub(crate) fn read_public(alloc: Global, label: Label, contents: &[u8]) -> Result<Vec<u8>, PemError>
    ensures { ReadsContents IsPublicOf IsPublicFault label contents.now result }
{
    let Label::PublicKey = label else {
        return Err(PemError::other_label(label));
    };
    let octets = octets_of(contents)?;
    let Some(key) = public_of(octets) else {
        return Err(PemError::InvalidKey);
    };
    Ok(Vec::from_slice(alloc, &key)?)
}

/// The contents of the text of a public key.
pub(crate) fn write_public(alloc: Global, key: &[u8]) -> Result<Vec<u8>, PemError>
    ensures { WritesContents IsPublicWritten PublicLabel key.now result }
{
    let Some(xy) = coordinates_of(key) else {
        return Err(PemError::InvalidKey);
    };
    let mut octets = Vec::from_slice(alloc, &[4])?;
    octets.extend_from_slice(&xy)?;
    Ok(write_public_info(alloc, &algorithm(), &octets)?)
}
