//! Keys as C holds them.

ghost use Rattle.std.specs.Prelude.{◌≡◌, ◌⊎◌, ◌≤◌, ◌<◌, ◌++◌, MatchOption, MatchResult, None, Some, drop, false, length, replicate, take, true};
ghost use Rattle.paseto_keys.specs.AnyKey.{key_parts, parts_of};
ghost use Rattle.paseto_calls.specs.HeldKey.{Fits, IsHeld, assertion_fault, bound_fault, bytes_in, drawn_fault, is_type, is_version, key_fault, named_by, names_key, type_by, type_number, version_by, version_number};

use crate::answer::lay;
use crate::refusal::Refusal;
use crate::wanted::Wanted;
use paseto_keys::{AnyKey, TokenKey};
use rusty_paseto_core::PasetoError;
use rusty_paseto_paserk::{PaserkType, PaserkVersion};
use std::alloc::Global;

/// How many bytes a key may have: no private key of RSA of 2048 bits has more than 1,220.
const ROOM: usize = 1244;

/// A key as C holds it: `struct paseto_key` of `c/paseto.h`. It may hold anything.
#[repr(C)]
#[derive(Clone, Copy)]
pub struct HeldKey {
    /// The version, from 1 to 4.
    pub version: u8,
    /// The type: 1 for a key for local tokens, 2 for a private key, 3 for a public one.
    pub kind: u8,
    /// How many bytes it has.
    pub length: u16,
    /// The bytes, and zeros behind them in keys that the library made.
    pub bytes: [u8; 1244],
}

impl HeldKey {
    /// What holds no key: zeros.
    pub fn nothing() -> HeldKey
        ensures { result ≡ record { version = 0; kind = 0; length = 0; bytes = replicate 1244 0 } }
    {
        HeldKey {
            version: 0,
            kind: 0,
            length: 0,
            bytes: [0; 1244],
        }
    }

    /// What C holds of a key, or `InvalidKey` for one that is too long, which no key is that can be used.
    pub fn of(key: &AnyKey) -> Result<HeldKey, Refusal>
        ensures { MatchResult result
            (λ held. Fits (parts_of key.now) × IsHeld (parts_of key.now) held)
            (λ refusal. (refusal ≡ Refusal.InvalidKey) × ¬ Fits (parts_of key.now)) }
    {
        let (kind, version) = (key.kind(), key.version());
        match key {
            AnyKey::V1Local(key) => held(kind, version, key.as_bytes().as_slice()),
            AnyKey::V2Local(key) => held(kind, version, key.as_bytes().as_slice()),
            AnyKey::V3Local(key) => held(kind, version, key.as_bytes().as_slice()),
            AnyKey::V4Local(key) => held(kind, version, key.as_bytes().as_slice()),
            AnyKey::V1Secret(key) => held(kind, version, key.lend().as_bytes()),
            AnyKey::V2Secret(key) => held(kind, version, key.lend().as_bytes()),
            AnyKey::V3Secret(key) => held(kind, version, key.lend().as_bytes()),
            AnyKey::V4Secret(key) => held(kind, version, key.lend().as_bytes()),
            AnyKey::V1Public(key) => held(kind, version, key.lend().as_bytes()),
            AnyKey::V2Public(key) => held(kind, version, key.lend().as_bytes()),
            AnyKey::V3Public(key) => held(kind, version, key.lend().as_bytes()),
            AnyKey::V4Public(key) => held(kind, version, key.lend().as_bytes()),
        }
    }

    /// The key, if it is of a type that is wanted: otherwise `OtherType`, whatever else it is, and `InvalidKey` for what
    /// is no key.
    pub(crate) fn take(&self, alloc: Global, wanted: Wanted) -> Result<AnyKey, Refusal>
        ensures { MatchResult result
            (λ key. (parts_of key ≡ named_by self.now) × (key_fault wanted self.now ≡ None))
            (λ refusal. (refusal ≡ Refusal.Memory) ⊎ (key_fault wanted self.now ≡ Some refusal)) }
    {
        let Some(kind) = type_of(self.kind) else {
            return Err(Refusal::InvalidKey);
        };
        if !wanted.has(kind) {
            return Err(Refusal::OtherType);
        }
        let (Some(version), Some(bytes)) = (version_of(self.version), self.lent()) else {
            return Err(Refusal::InvalidKey);
        };
        match AnyKey::from_bytes(alloc, kind, version, bytes) {
            Ok(found) => Ok(found),
            Err(PasetoError::Memory(_)) => Err(Refusal::Memory),
            Err(_) => Err(Refusal::InvalidKey),
        }
    }

    /// The same with an implicit assertion, or none if it is empty: `NoAssertion` if one is given and the version has
    /// none.
    pub(crate) fn take_bound(
        &self,
        alloc: Global,
        wanted: Wanted,
        assertion: &[u8],
    ) -> Result<AnyKey, Refusal>
        ensures { MatchResult result
            (λ key. (parts_of key ≡ named_by self.now)
            × (bound_fault wanted self.now assertion.now ≡ None))
            (λ refusal. (refusal ≡ Refusal.Memory)
            ⊎ (bound_fault wanted self.now assertion.now ≡ Some refusal)) }
    {
        let key = self.take(alloc, wanted)?;
        if !assertion.is_empty() && !key.binds() {
            return Err(Refusal::NoAssertion);
        }
        Ok(key)
    }

    // The bytes, if so many fit.
    fn lent(&self) -> Option<&[u8]>
        ensures { MatchOption result (1244 < self.now.length)
            (λ bytes. (bytes.now ≡ bytes_in self.now) × (self.now.length ≤ 1244)) }
    {
        let length = self.length as usize;
        if length > ROOM {
            return None;
        }
        Some(&self.bytes[..length])
    }
}

// What C holds of a key of a type and a version with these bytes.
fn held(kind: PaserkType, version: PaserkVersion, bytes: &[u8]) -> Result<HeldKey, Refusal>
    ensures { MatchResult result (λ held. Fits (key_parts kind version bytes.now)
        × IsHeld (key_parts kind version bytes.now) held)
        (λ refusal. (refusal ≡ Refusal.InvalidKey) × ¬ Fits (key_parts kind version bytes.now)) }
{
    if bytes.len() > ROOM {
        return Err(Refusal::InvalidKey);
    }
    Ok(HeldKey {
        version: version_number(version),
        kind: type_number(kind),
        length: bytes.len() as u16,
        bytes: padded(bytes),
    })
}

// The bytes, and zeros behind them.
fn padded(bytes: &[u8]) -> [u8; 1244]
    requires { length bytes.now ≤ 1244 }
    ensures { result ≡ bytes.now ++ drop (length bytes.now) (replicate 1244 0) }
{
    let mut room = [0; 1244];
    lay(bytes, &mut room);
    room
}

/// The version of a number.
pub(crate) fn version_of(number: u8) -> Option<PaserkVersion>
    ensures { MatchOption result (is_version number ≡ false)
        (λ version. (version ≡ version_by number) × (is_version number ≡ true)) }
{
    match number {
        1 => Some(PaserkVersion::V1),
        2 => Some(PaserkVersion::V2),
        3 => Some(PaserkVersion::V3),
        4 => Some(PaserkVersion::V4),
        _ => None,
    }
}

/// The type of a number.
pub(crate) fn type_of(number: u8) -> Option<PaserkType>
    ensures { MatchOption result (is_type number ≡ false)
        (λ kind. (kind ≡ type_by number) × (is_type number ≡ true)) }
{
    match number {
        1 => Some(PaserkType::Local),
        2 => Some(PaserkType::Secret),
        3 => Some(PaserkType::Public),
        _ => None,
    }
}

/// The number of a version.
pub(crate) fn version_number(version: PaserkVersion) -> u8
    ensures { result ≡ version_number version }
{
    match version {
        PaserkVersion::V1 => 1,
        PaserkVersion::V2 => 2,
        PaserkVersion::V3 => 3,
        PaserkVersion::V4 => 4,
    }
}

/// The number of a type.
pub(crate) fn type_number(kind: PaserkType) -> u8
    ensures { result ≡ type_number kind }
{
    match kind {
        PaserkType::Local => 1,
        PaserkType::Secret => 2,
        PaserkType::Public => 3,
    }
}

/// The first of the random bytes that C drew, as many as are taken, or `InvalidNonce` if there are fewer.
pub(crate) fn front(drawn: &[u8], count: usize) -> Result<&[u8], Refusal>
    ensures { MatchResult result
        (λ front. (front.now ≡ take count drawn.now) × (length front.now ≡ count)
        × (drawn_fault count drawn.now ≡ None))
        (λ refusal. drawn_fault count drawn.now ≡ Some refusal) }
{
    if drawn.len() < count {
        return Err(Refusal::InvalidNonce);
    }
    Ok(&drawn[..count])
}
