//! Which key the footer of a token names.

ghost use Rattle.std.specs.Prelude.{◌≡◌, ◌⊎◌, ℕ, List, Some, Err, IfOk, IfErr, MatchResult, string_bytes};
ghost use Rattle.serde_json.specs.View.{view};
ghost use Rattle.rusty_paseto_parts.specs.Section.{HasCount, sections};
ghost use Rattle.rusty_paseto_parts.specs.declared.error.PasetoError.TheVariants.{IncorrectSize};
ghost use Rattle.rusty_paseto.specs.KeyRing.{HasFooter, IsHandedOn, IsMemory, IsNamingFault, IsObject, IsUntrustedFault, Names, kid_footer};
ghost use Rattle.rusty_paseto.specs.declared.error.KeyRingError.TheVariants.{NotAnObject, Untrusted};

use crate::error::KeyRingError;
use rusty_paseto_core::{Footer, PasetoError};
use serde_json::{Map, Value};
use std::alloc::{AllocError, Global};

/// The footer that names a key, by which a ring finds it: a compact JSON object with the id under `kid`, such as
/// `{"kid":"2026-11"}`. The id may be any text; it is escaped as JSON requires. It fails only if an allocation fails.
///
/// ```rust
/// use anyhow::Result;
/// use jiff::Timestamp;
/// use rand_core::TryRng;
/// use rusty_paseto::prelude::*;
/// use std::alloc::Global;
///
/// /// A token under the key of this id, which a ring with the key opens.
/// pub fn issue_under<R: TryRng>(
///     alloc: Global,
///     now: Timestamp,
///     rng: &mut R,
///     id: &str,
///     key: &PasetoSymmetricKey<V4, Local>,
/// ) -> Result<String> {
///     let footer = key_footer(alloc, id)?;
///     let mut builder = PasetoBuilder::<V4, Local>::try_default(alloc, now)?;
///     builder.set_footer(Footer::from(footer.as_str()));
///     Ok(builder.build(rng, key)?)
/// }
/// ```
pub fn key_footer(alloc: Global, id: &str) -> Result<String, AllocError>
    ensures text { IfOk result (λ footer. string_bytes footer ≡ kid_footer id.now) }
    ensures names { IfOk result (λ footer. Names (string_bytes footer) id.now) }
{
    let mut members = Map::new(alloc);
    serde_json::put(&mut members, alloc, "kid", Value::try_from_str(alloc, id)?)?;
    Value::Object(members).to_string(alloc)
}

/// The text of a token's footer, before any of the token can be trusted.
///
/// The errors: `Untrusted` of `IncorrectSize` unless there are three or four sections, and of `PayloadBase64Decode` or
/// `Utf8Error` for a fourth section that does not encode a text; and `NoFooter` where there is none. `Memory` may be
/// returned in place of any result but `IncorrectSize`.
pub fn footer_of(alloc: Global, token: &str) -> Result<String, KeyRingError>
    ensures ok { IfOk result (λ footer. HasFooter token.now (Some (string_bytes footer))) }
    ensures count { ¬ HasCount (sections token.now) → result ≡ Err (Untrusted IncorrectSize) }
    ensures read { (footer : List ℕ) → HasFooter token.now (Some footer) → MatchResult result
        (λ found. string_bytes found ≡ footer) IsMemory }
    ensures err { IfErr result (λ error. IsMemory error ⊎ IsUntrustedFault token.now error) }
{
    match Footer::try_from_token(alloc, token) {
        Ok(Some(footer)) => Ok(footer),
        Ok(None) => Err(KeyRingError::NoFooter),
        Err(source) => Err(untrusted(source)),
    }
}

/// The id that a footer names as its key's, as in one that `key_footer` makes: the text under `kid` of a JSON object.
///
/// The errors: `NotAnObject` for a footer that is no JSON object, and `NoKeyId` for an object without such a text.
/// `Memory` may be returned in place of any result.
pub fn key_id(alloc: Global, footer: &str) -> Result<String, KeyRingError>
    ensures ok { IfOk result (λ id. Names footer.now (string_bytes id)) }
    ensures read { (id : List ℕ) → Names footer.now id → MatchResult result
        (λ found. string_bytes found ≡ id) IsMemory }
    ensures err { IfErr result (λ error. IsMemory error ⊎ IsNamingFault footer.now error) }
{
    let value = read_object(alloc, footer)?;
    match value.get("kid") {
        Some(Value::String(id)) => Ok(String::from_str(alloc, id.as_str())?),
        _ => Err(KeyRingError::NoKeyId),
    }
}

// The object that a footer is as JSON.
fn read_object(alloc: Global, footer: &str) -> Result<Value, KeyRingError>
    ensures ok { IfOk result (λ value. IsObject footer.now (view value)) }
    ensures err { IfErr result (λ error. IsMemory error
        ⊎ ((error ≡ NotAnObject) × IsNamingFault footer.now NotAnObject)) }
{
    match Value::from_str(alloc, footer) {
        Ok(value) if value.is_object() => Ok(value),
        Err(source) if source.is_memory() => Err(KeyRingError::Memory(AllocError)),
        _ => Err(KeyRingError::NotAnObject),
    }
}

// An allocation failure stays one.
fn untrusted(source: PasetoError) -> KeyRingError
    ensures { IsHandedOn source (Untrusted source) result }
{
    match source {
        PasetoError::Memory(refused) => KeyRingError::Memory(refused),
        refusal => KeyRingError::Untrusted(refusal),
    }
}
