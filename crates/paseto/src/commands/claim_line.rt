//! The program's messages for claims that are refused.

ghost use Rattle.std.specs.Prelude.{◌≡◌, IfOk, codes, string_bytes};
ghost use Rattle.serde_json.specs.Data.{null};
ghost use Rattle.serde_json.specs.View.{view};
ghost use Rattle.rusty_paseto_generic.specs.Parsers.Verdicts.{entry};
ghost use Rattle.paseto_tasks.specs.Error.{BlamesNone, IsNoUsage, Says};
ghost use Rattle.paseto.specs.Answers.{IsToldLine, one_line};
ghost use Rattle.paseto.specs.ClaimLine.{IsLineOf, IsUnlikeLine, early_line, expired_line, mismatch_text, text_under};
ghost use Rattle.paseto.specs.Claims.{all_named};

use crate::commands::answers::{one_line_of, told};
use crate::commands::claims::{NamedClaim, value_under};
use crate::commands::times::between;
use jiff::Timestamp;
use paseto_tasks::ProgramError;
use rusty_paseto::prelude::PasetoClaimError;
use serde_json::Value;
use std::alloc::{AllocError, Global};

/// The error for claims that are refused at a moment, of which some values are required.
pub fn by_claim(
    alloc: Global,
    demands: &[NamedClaim],
    claims: &Value,
    at: Timestamp,
    source: PasetoClaimError,
) -> ProgramError
    ensures no_usage { IsNoUsage result }
    ensures blames { BlamesNone result }
    ensures tells { IsToldLine result }
    ensures said { Says (IsLineOf (all_named demands.now) (view claims.now) at source) result }
{
    match source {
        PasetoClaimError::Expired => told(expired(alloc, text_under(claims, "exp"), at)),
        PasetoClaimError::UseBeforeAvailable(text) => told(early(alloc, text.as_str(), at)),
        PasetoClaimError::Invalid(key, found, wanted) => mismatch(
            alloc,
            key.as_str(),
            found.as_str(),
            wanted.as_str(),
        ),
        PasetoClaimError::Unexpected(key) => unexpected(alloc, demands, claims, at, key),
        source => told(one_line_of(alloc, format!(in alloc; "{source}"))),
    }
}

/// The error for a claim that does not have the required value, or the type that it has by its name.
fn unexpected(
    alloc: Global,
    demands: &[NamedClaim],
    claims: &Value,
    at: Timestamp,
    key: String,
) -> ProgramError
    ensures no_usage { IsNoUsage result }
    ensures blames { BlamesNone result }
    ensures tells { IsToldLine result }
    ensures said { Says (IsLineOf (all_named demands.now) (view claims.now) at
        (PasetoClaimError.Unexpected key)) result }
{
    let null = Value::Null;
    match value_under(demands, key.as_str()) {
        Some(wanted) => told(unlike_line(
            alloc,
            key.as_str(),
            entry_or(claims, key.as_str(), &null),
            wanted,
        )),
        None => {
            let source = PasetoClaimError::Unexpected(key);
            told(one_line_of(alloc, format!(in alloc; "{source}")))
        }
    }
}

/// The claim with a name, or what stands for one if there is none.
fn entry_or<'v>(claims: &'v Value, name: &str, absent: &'v Value) -> &'v Value
    requires { view absent.now ≡ null }
    ensures { view result.now ≡ entry name.now (view claims.now) }
{
    match claims.get(name) {
        Some(found) => found,
        None => absent,
    }
}

/// Why a claim is refused whose value is not the required one: `The claim 'seats' is 4, and not 5`.
fn unlike_line(
    alloc: Global,
    name: &str,
    found: &Value,
    wanted: &Value,
) -> Result<String, AllocError>
    ensures { IfOk result (λ line. IsUnlikeLine name.now (view found.now) (view wanted.now)
        (string_bytes line)) }
{
    let (found, wanted) = (found.to_string(alloc)?, wanted.to_string(alloc)?);
    one_line_of(
        alloc,
        format!(in alloc; "The claim '{name}' is {found}, and not {wanted}"),
    )
}

/// The error for a claim whose text is not the required one.
fn mismatch(alloc: Global, key: &str, found: &str, wanted: &str) -> ProgramError
    ensures no_usage { IsNoUsage result }
    ensures blames { BlamesNone result }
    ensures tells { IsToldLine result }
    ensures said { Says (λ line. line ≡ one_line (mismatch_text key.now found.now wanted.now)) result }
{
    told(one_line_of(
        alloc,
        format!(in alloc; "The claim '{key}' is '{found}', and not '{wanted}'"),
    ))
}

/// The text of the claim with a name, or an empty text if there is none.
pub fn text_under<'c>(claims: &'c Value, name: &str) -> &'c str
    ensures { result.now ≡ text_under name.now (view claims.now) }
{
    match claims.get(name) {
        Some(value) => value.as_str().unwrap_or(""),
        None => "",
    }
}

/// Why a token that has expired is refused: `expired 3 minutes ago, at 2026-11-22T10:00:00Z`.
pub fn expired(alloc: Global, text: &str, at: Timestamp) -> Result<String, AllocError>
    ensures { IfOk result (λ line. string_bytes line ≡ expired_line text.now at) }
{
    match text.parse::<Timestamp>() {
        Ok(moment) => {
            let ago = between(alloc, moment, at)?;
            format!(in alloc; "expired {ago} ago, at {text}")
        }
        Err(_) => String::from_str(alloc, "expired"),
    }
}

/// Why a token that may not be used yet is refused: `not valid before 2026-11-22T10:00:00Z, in 3 minutes`.
pub fn early(alloc: Global, text: &str, at: Timestamp) -> Result<String, AllocError>
    ensures { IfOk result (λ line. string_bytes line ≡ early_line text.now at) }
{
    match text.parse::<Timestamp>() {
        Ok(moment) => {
            let wait = between(alloc, at, moment)?;
            format!(in alloc; "not valid before {text}, in {wait}")
        }
        Err(_) => String::from_str(alloc, "not valid yet"),
    }
}
