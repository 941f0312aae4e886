//! Keys that C reads from texts, makes and writes.

ghost use Rattle.std.specs.Prelude.{◌≡◌, ◌⊎◌, IfErr, MatchResult, None, Some};
ghost use Rattle.paseto_keys.specs.AnyKey.{KeyParts};
ghost use Rattle.paseto_keys.specs.Unlock.{UnlocksKey};
ghost use Rattle.paseto_calls.specs.HeldKey.{Fits, IsHeld, type_by, version_by};
ghost use Rattle.paseto_calls.specs.KeyCalls.{IsOpeningFault, generating, halving, key_reading, kind_fault, line_writing, naming, new_length, pem_writing, protecting, protecting_length, sealing, sealing_length, unlocking, unwrapping, wrapping};
ghost use Rattle.paseto_calls.specs.Request.{IsKeyMade, IsKeyMadeWhole, IsMade, IsMadeWhole};

use crate::arguments::str_of;
use crate::fault::Fault;
use crate::given::Given;
use crate::held_key::{HeldKey, front, type_of, version_of};
use crate::key_forms::{pem_of, protected, same_version, sealed, wrapped};
use crate::refusal::Refusal;
use crate::wanted::Wanted;
use paseto_key_files::Openers;
use paseto_keys::AnyKey;
use rusty_paseto_paserk::{PaserkType, PaserkVersion};
use std::alloc::Global;

/// The key of a text in PASERK or PEM, which nothing has to open.
pub fn read_key(alloc: Global, text: &[u8]) -> Result<HeldKey, Refusal>
    ensures made { IsKeyMade (key_reading text.now) result }
    ensures whole { IsKeyMadeWhole (key_reading text.now) result }
{
    let text = str_of(text)?;
    let openers = Openers {
        password: None,
        key: None,
    };
    opened(alloc, &openers, text)
}

/// The key of a text that may be under a password.
pub fn unlock(alloc: Global, text: &[u8], password: &[u8]) -> Result<HeldKey, Refusal>
    ensures made { IsKeyMade (unlocking text.now password.now) result }
    ensures whole { IsKeyMadeWhole (unlocking text.now password.now) result }
{
    let text = str_of(text)?;
    let openers = Openers {
        password: Some(password),
        key: None,
    };
    opened(alloc, &openers, text)
}

/// The key of a text that may be wrapped or sealed by another key.
pub fn unwrap(alloc: Global, text: &[u8], opener: &HeldKey) -> Result<HeldKey, Refusal>
    ensures made { IsKeyMade (unwrapping text.now opener.now) result }
    ensures whole { IsKeyMadeWhole (unwrapping text.now opener.now) result }
{
    let opener = opener.take(alloc, Wanted::Writers)?;
    let text = str_of(text)?;
    let line = opener.to_line(alloc)?;
    let openers = Openers {
        password: None,
        key: Some(line.as_str()),
    };
    opened(alloc, &openers, text)
}

// The key of a text, with what opens it.
fn opened(alloc: Global, openers: &Openers<'_>, text: &str) -> Result<HeldKey, Refusal>
    ensures made { MatchResult result
        (λ held. (key : KeyParts) × UnlocksKey openers.now text.now key × Fits key × IsHeld key held)
        (λ refusal. IsOpeningFault openers.now text.now refusal) }
    ensures whole { (key : KeyParts) → UnlocksKey openers.now text.now key → Fits key
        → IfErr result (λ refusal. refusal ≡ Refusal.Memory) }
{
    let key = AnyKey::unlock(alloc, openers, text)?;
    HeldKey::of(&key)
}

/// The public half of a private key.
pub fn public_half(alloc: Global, key: &HeldKey) -> Result<HeldKey, Refusal>
    ensures made { IsKeyMade (halving key.now) result }
    ensures whole { IsKeyMadeWhole (halving key.now) result }
{
    let key = key.take(alloc, Wanted::SecretKeys)?;
    let half = key.public_half(alloc)?;
    HeldKey::of(&half)
}

/// The text of a key in PASERK.
pub fn text(alloc: Global, key: &HeldKey) -> Result<String, Fault>
    ensures made { IsMade (line_writing key.now) result }
    ensures whole { IsMadeWhole (line_writing key.now) result }
{
    let key = key.take(alloc, Wanted::AllKeys)?;
    Ok(key.to_line(alloc)?)
}

/// The text of a key in PEM.
pub fn pem(alloc: Global, key: &HeldKey) -> Result<String, Fault>
    ensures made { IsMade (pem_writing key.now) result }
    ensures whole { IsMadeWhole (pem_writing key.now) result }
{
    let key = key.take(alloc, Wanted::Pairs)?;
    Ok(pem_of(alloc, &key)?)
}

/// The id of a key.
pub fn id(alloc: Global, key: &HeldKey) -> Result<String, Fault>
    ensures made { IsMade (naming key.now) result }
    ensures whole { IsMadeWhole (naming key.now) result }
{
    let key = key.take(alloc, Wanted::AllKeys)?;
    Ok(key.id(alloc)?)
}

/// A new key of a version and a type, of the first of what was drawn for it.
pub fn generate(alloc: Global, version: u8, kind: u8, drawn: &[u8]) -> Result<HeldKey, Refusal>
    ensures made { IsKeyMade (generating version kind drawn.now) result }
    ensures whole { IsKeyMadeWhole (generating version kind drawn.now) result }
{
    let (kind, version) = kind_of(version, kind)?;
    let mut given = Given {
        bytes: front(drawn, new_length(kind, version))?,
    };
    let key = AnyKey::generate(alloc, kind, version, &mut given)?;
    HeldKey::of(&key)
}

// The type and the version of numbers, if such keys are generated.
fn kind_of(version: u8, kind: u8) -> Result<(PaserkType, PaserkVersion), Refusal>
    ensures { MatchResult result (λ found. (found.0 ≡ type_by kind) × (found.1 ≡ version_by version)
        × (kind_fault version kind ≡ None))
        (λ refusal. kind_fault version kind ≡ Some refusal) }
{
    let Some(kind) = type_of(kind) else {
        return Err(Refusal::InvalidKey);
    };
    let version = version_of(version);
    match (kind, version) {
        (PaserkType::Public, _) => Err(Refusal::OtherType),
        (_, None) => Err(Refusal::InvalidKey),
        (PaserkType::Secret, Some(PaserkVersion::V1)) => Err(Refusal::OtherVersion),
        (_, Some(version)) => Ok((kind, version)),
    }
}

// How many random bytes a new key takes.
fn new_length(kind: PaserkType, version: PaserkVersion) -> usize
    ensures { result ≡ new_length kind version }
{
    match (kind, version) {
        (PaserkType::Secret, PaserkVersion::V3) => 48,
        _ => 32,
    }
}

/// The text of a key under a password, with the first of what was drawn for it.
pub fn protect(alloc: Global, key: &HeldKey, password: &[u8], drawn: &[u8]) -> Result<String, Fault>
    ensures made { IsMade (protecting key.now password.now drawn.now) result }
    ensures whole { IsMadeWhole (protecting key.now password.now drawn.now) result }
{
    let key = key.take(alloc, Wanted::Writers)?;
    let given = front(drawn, protecting_length(key.version()))?;
    // A private key of version 1 that is not valid has no line.
    key.to_line(alloc)?;
    Ok(protected(alloc, &key, password, given)?)
}

// How many random bytes a text under a password takes.
fn protecting_length(version: PaserkVersion) -> usize
    ensures { result ≡ protecting_length version }
{
    match version {
        PaserkVersion::V1 | PaserkVersion::V3 => 48,
        PaserkVersion::V2 | PaserkVersion::V4 => 40,
    }
}

/// The text of a key under a wrapping key, with the first of what was drawn for it.
pub fn wrap(alloc: Global, key: &HeldKey, other: &HeldKey, drawn: &[u8]) -> Result<String, Fault>
    ensures made { IsMade (wrapping key.now other.now drawn.now) result }
    ensures whole { IsMadeWhole (wrapping key.now other.now drawn.now) result }
{
    let key = key.take(alloc, Wanted::Writers)?;
    let other = other.take(alloc, Wanted::LocalKeys)?;
    let nonce = front(drawn, 32)?;
    // A private key of version 1 that is not valid has no line.
    key.to_line(alloc)?;
    if !same_version(key.version(), other.version()) {
        return Err(Fault::Refused(Refusal::OtherVersion));
    }
    Ok(wrapped(alloc, &key, &other, nonce)?)
}

/// The text of a key that is sealed to a public key, with the first of what was drawn for it.
pub fn seal(alloc: Global, key: &HeldKey, other: &HeldKey, drawn: &[u8]) -> Result<String, Fault>
    ensures made { IsMade (sealing key.now other.now drawn.now) result }
    ensures whole { IsMadeWhole (sealing key.now other.now drawn.now) result }
{
    let key = key.take(alloc, Wanted::LocalKeys)?;
    let other = other.take(alloc, Wanted::PublicKeys)?;
    let ephemeral = front(drawn, sealing_length(key.version()))?;
    Ok(sealed(alloc, &key, &other, ephemeral)?)
}

// How many random bytes a sealed text takes.
fn sealing_length(version: PaserkVersion) -> usize
    ensures { result ≡ sealing_length version }
{
    match version {
        PaserkVersion::V3 => 48,
        _ => 32,
    }
}
