//! Claims by name, as the arguments give them.

ghost use Rattle.std.specs.Prelude.{◌≡◌, ◌≢◌, ◌⊎◌, ◌++◌, ◌<◌, ◌∷◌, ◌||◌, [], ℕ, List, IfErr, IfOk, IfSome, MatchOption, None, OnOk, Some, codes, false, length, not, option_map, string_bytes, true};
ghost use Rattle.std.specs.Option.{option_map_or};
ghost use Rattle.serde_json.specs.View.{view};
ghost use Rattle.serde_json.specs.Read.{read};
ghost use Rattle.rusty_paseto_claims.specs.Claim.{gives, one_member};
ghost use Rattle.paseto_tasks.specs.Arguments.{texts};
ghost use Rattle.paseto.specs.Claims.{AreClaims, IsClaimOf, IsFirstOf, all_named, is_time, named, value_under};
ghost use Rattle.paseto_tasks.specs.Error.{IsOfWords, IsOutside, Lacks};

use paseto_tasks::{ProgramError, UsageError};
use rusty_paseto::prelude::{PasetoClaim, PasetoClaimError};
use serde_json::{Map, Value};
use std::alloc::{AllocError, Global};

/// A claim with any name except that of a time.
#[derive(Drop)]
pub struct NamedClaim {
    name: String,
    value: Value,
}

impl PasetoClaim for NamedClaim {
    ghost key = { λ claim. string_bytes claim.name };

    ghost json = { λ claim. gives (one_member (string_bytes claim.name) (view claim.value)) };

    fn get_key(&self) -> &str {
        self.name.as_str()
    }

    fn to_json(&self, alloc: Global) -> Result<Value, PasetoClaimError> {
        let mut members = Map::new(alloc);
        let value = self.value.clone()?;
        serde_json::put(&mut members, alloc, self.name.as_str(), value)?;
        Ok(Value::Object(members))
    }
}

impl NamedClaim {
    /// Parses the claim of an argument `NAME=TEXT` or `NAME:=JSON`.
    fn parse(alloc: Global, word: &str) -> Result<NamedClaim, ProgramError>
        ensures found { IfOk result (λ claim. IsClaimOf word.now (named claim)) }
        ensures none { IfErr result (Lacks (λ claim. IsClaimOf word.now claim)) }
        ensures of_words { IfErr result IsOfWords }
    {
        let Some((front, text)) = word.split_once('=') else {
            return Err(ProgramError::Usage(UsageError::Claim));
        };
        match without_colon(front) {
            Some(name) => NamedClaim::of(alloc, name, json_of(alloc, text)?),
            None => NamedClaim::of(alloc, front, Value::try_from_str(alloc, text)?),
        }
    }

    fn of(alloc: Global, name: &str, value: Value) -> Result<NamedClaim, ProgramError>
        ensures made { IfOk result (λ claim. (string_bytes claim.name ≡ name.now)
            × (view claim.value ≡ view value)) }
        ensures named { OnOk result ((name.now ≢ []) × (is_time name.now ≡ false)) }
        ensures refused { IfErr result (λ error. IsOutside error
            ⊎ ((name.now ≡ []) ⊎ (is_time name.now ≡ true))) }
        ensures of_words { IfErr result IsOfWords }
    {
        if name.is_empty() {
            return Err(ProgramError::Usage(UsageError::Claim));
        }
        if is_time(name) {
            return Err(ProgramError::Usage(UsageError::TimeClaim));
        }
        let name = String::from_str(alloc, name)?;
        Ok(NamedClaim { name, value })
    }
}

/// What is in front of a colon at the end of a text, if there is one.
fn without_colon(text: &str) -> Option<&str>
    ensures { MatchOption result ((other : List ℕ) → text.now ≢ other ++ codes ":")
        (λ name. text.now ≡ name.now ++ codes ":") }
{
    text.strip_suffix(":")
}

/// Parses a text as JSON.
fn json_of(alloc: Global, text: &str) -> Result<Value, ProgramError>
    ensures read { IfOk result (λ value. read text.now ≡ Some (view value)) }
    ensures refused { IfErr result (λ error. IsOutside error ⊎ (read text.now ≡ None)) }
    ensures of_words { IfErr result IsOfWords }
{
    match Value::from_str(alloc, text) {
        Ok(value) => Ok(value),
        Err(source) if source.is_memory() => Err(ProgramError::from(AllocError)),
        Err(_) => Err(ProgramError::Usage(UsageError::Claim)),
    }
}

/// Whether the name is that of a claim that is a time.
fn is_time(name: &str) -> bool
    ensures { result ≡ is_time name.now }
{
    matches!(name, "exp" | "nbf" | "iat")
}

/// The value of the last claim with a name.
pub fn value_under<'c>(claims: &'c [NamedClaim], name: &str) -> Option<&'c Value>
    ensures { option_map (λ value. view value.now) result ≡ value_under name.now (all_named claims.now) }
{
    let [claim, rest @ ..] = claims else {
        return None;
    };
    match value_under(rest, name) {
        Some(value) => Some(value),
        None if claim.name.as_str() == name => Some(&claim.value),
        None => None,
    }
}

/// Parses the claims of the arguments, in order.
pub fn claims_of(alloc: Global, words: &[&str]) -> Result<Vec<NamedClaim>, ProgramError>
    ensures found { IfOk result (λ claims. AreClaims (texts words.now) (all_named claims.items)) }
    ensures none { IfErr result (Lacks (λ claims. AreClaims (texts words.now) claims)) }
    ensures of_words { IfErr result IsOfWords }
{
    let [word, rest @ ..] = words else {
        return Ok(Vec::new(alloc));
    };
    match claims_of(alloc, rest) {
        Ok(claims) => with_claim(alloc, word, claims),
        Err(error) => Err(error),
    }
}

/// The claim of an argument, and others after it.
fn with_claim(
    alloc: Global,
    word: &str,
    claims: Vec<NamedClaim>,
) -> Result<Vec<NamedClaim>, ProgramError>
    ensures found { IfOk result (λ found. IsFirstOf word.now claims.items found.items) }
    ensures none { IfErr result (Lacks (λ claim. IsClaimOf word.now claim)) }
    ensures of_words { IfErr result IsOfWords }
{
    let mut claims = claims;
    claims.insert(0, NamedClaim::parse(alloc, word)?)?;
    Ok(claims)
}
