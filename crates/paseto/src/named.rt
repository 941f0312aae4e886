//! The key of a ring that the footer of a token names.

ghost use Rattle.std.specs.Prelude.{◌≡◌, ℕ, List, IfErr, IfOk, MatchBool, MatchOption, MatchResult, false, string_bytes};
ghost use Rattle.rusty_paseto.specs.KeyRing.{IsMemory};
ghost use Rattle.rusty_paseto_paserk.specs.Error.{IsMemory as IsNoIdMemory};
ghost use Rattle.paseto_keys.specs.AnyKey.{parts_of};
ghost use Rattle.paseto.specs.Named.{AreWithout, IsFirstWith, IsIdOf, IsIdOfHalf, IsNoUnknown, IsUnknown, IsWithoutHalfId, NamesNone, NamesUnknown, SaysUnknown, TokenNames};

use paseto_keys::AnyKey;
use rusty_paseto::{KeyRingError, footer_of, key_id};
use rusty_paseto_paserk::PaserkError;
use std::alloc::{AllocError, Global};
use std::str;

/// The first key whose id the footer of a token names, and the footer. Nothing of the token is verified.
///
/// The errors are those of a key ring: `Untrusted` for a footer that is not read, `NoFooter`,
/// `NotAnObject`, `NoKeyId`, and `UnknownKey` if no key has the id.
pub fn named_in<'k>(
    alloc: Global,
    keys: &'k [AnyKey],
    token: &str,
) -> Result<(String, &'k AnyKey), KeyRingError>
    ensures found { IfOk result (λ found. (id : List ℕ) × TokenNames token.now
        (string_bytes found.0) id × IsFirstWith id keys.now found.1.now) }
    ensures none { IfErr result (NamesNone keys.now token.now) }
    ensures unknown { (id : List ℕ) → NamesUnknown keys.now token.now id
        → MatchResult result (λ found. ⊥) IsNoUnknown }
{
    let footer = footer_of(alloc, token)?;
    let id = key_id(alloc, footer.as_str())?;
    match with_id(alloc, keys, id.as_str())? {
        Some(key) => Ok((footer, key)),
        None => Err(KeyRingError::UnknownKey(id)),
    }
}

/// Whether an input is a token whose footer names a key that is not among these.
pub fn is_unknown(alloc: Global, keys: &[AnyKey], input: &[u8]) -> Result<bool, AllocError>
    ensures { IfOk result (λ unknown. MatchBool unknown (IsUnknown keys.now input.now)
        (¬ IsUnknown keys.now input.now)) }
{
    let Ok(text) = str::from_utf8(input) else {
        return Ok(false);
    };
    match named_in(alloc, keys, text.trim()) {
        Ok(_) => Ok(false),
        Err(error) => says_unknown(error),
    }
}

/// Whether an error says that a key is unknown.
fn says_unknown(error: KeyRingError) -> Result<bool, AllocError>
    ensures { IfOk result (λ says. MatchBool says (SaysUnknown error) (¬ IsNoUnknown error)) }
{
    match error {
        KeyRingError::Memory(refused) => Err(refused),
        KeyRingError::UnknownKey(_) => Ok(true),
        KeyRingError::Untrusted(_)
        | KeyRingError::NoFooter
        | KeyRingError::NotAnObject
        | KeyRingError::NoKeyId
        | KeyRingError::Token(_) => Ok(false),
    }
}

/// The first key that has an id.
fn with_id<'k>(
    alloc: Global,
    keys: &'k [AnyKey],
    id: &str,
) -> Result<Option<&'k AnyKey>, AllocError>
    ensures { IfOk result (λ found. MatchOption found (AreWithout id.now keys.now)
        (λ key. IsFirstWith id.now keys.now key.now)) }
{
    let [key, rest @ ..] = keys else {
        return Ok(None);
    };
    if has_id(alloc, key, id)? {
        return Ok(Some(key));
    }
    with_id(alloc, rest, id)
}

/// Whether a key has this id. A key that is not valid has none.
fn has_id(alloc: Global, key: &AnyKey, id: &str) -> Result<bool, AllocError>
    ensures { IfOk result (λ has. MatchBool has (IsIdOf (parts_of key.now) id.now)
        (¬ IsIdOf (parts_of key.now) id.now)) }
{
    match key.id(alloc) {
        Ok(own) => Ok(own.as_str() == id),
        Err(error) => without_id(error),
    }
}

/// What is so of a key for whose id an error is returned: it has none, unless memory was refused.
fn without_id(error: PaserkError) -> Result<bool, AllocError>
    ensures { IfOk result (λ has. (has ≡ false) × ¬ IsNoIdMemory error) }
{
    match error {
        PaserkError::Memory(refused) => Err(refused),
        PaserkError::NoKey
        | PaserkError::OtherVersion(_)
        | PaserkError::OtherType(_)
        | PaserkError::InvalidKey => Ok(false),
    }
}

/// The id of the public half of a private key.
pub fn public_id(alloc: Global, key: &AnyKey) -> Result<String, PaserkError>
    ensures id { IfOk result (λ id. IsIdOfHalf (parts_of key.now) (string_bytes id)) }
    ensures fault { IfErr result (IsWithoutHalfId (parts_of key.now)) }
{
    let half = key.public_half(alloc)?;
    half.id(alloc)
}
