//! What is said of a text whose times are not checked.

ghost use Rattle.std.specs.Prelude.{◌≡◌, IfOk, int_le, option_map, string_bytes};
ghost use Rattle.serde_json.specs.View.{view};
ghost use Rattle.paseto.specs.Warning.{has_passed, is_to_come, line_of_claims, line_of_text};

use crate::commands::claim_line::{early, expired, text_under};
use jiff::Timestamp;
use serde_json::Value;
use std::alloc::{AllocError, Global};

/// Why a text would be refused at a moment if its times were checked: it is an object of claims that
/// has expired, or that may not be used yet.
pub fn line_of_text(alloc: Global, text: &str, at: Timestamp) -> Result<Option<String>, AllocError>
    ensures { IfOk result (λ line. option_map string_bytes line ≡ line_of_text text.now at) }
{
    match Value::from_str(alloc, text) {
        Ok(claims) => line_of_claims(alloc, &claims, at),
        Err(source) if source.is_memory() => Err(AllocError),
        Err(_) => Ok(None),
    }
}

/// Why claims would be refused at a moment.
fn line_of_claims(
    alloc: Global,
    claims: &Value,
    at: Timestamp,
) -> Result<Option<String>, AllocError>
    ensures { IfOk result (λ line. option_map string_bytes line
        ≡ line_of_claims (view claims.now) at) }
{
    let (expiry, begin) = (text_under(claims, "exp"), text_under(claims, "nbf"));
    if has_passed(expiry, at) {
        return Ok(Some(expired(alloc, expiry, at)?));
    }
    if is_to_come(begin, at) {
        return Ok(Some(early(alloc, begin, at)?));
    }
    Ok(None)
}

/// Whether a text is a moment that has passed.
fn has_passed(text: &str, at: Timestamp) -> bool
    ensures { result ≡ has_passed text.now at }
{
    match text.parse::<Timestamp>() {
        Ok(moment) => is_over(moment, at),
        Err(_) => false,
    }
}

/// Whether a moment is not later than another.
pub fn is_over(moment: Timestamp, at: Timestamp) -> bool
    ensures { result ≡ int_le moment.nanosecond at.nanosecond }
{
    moment.as_nanosecond() <= at.as_nanosecond()
}

/// Whether a text is a moment that has not come.
fn is_to_come(text: &str, at: Timestamp) -> bool
    ensures { result ≡ is_to_come text.now at }
{
    match text.parse::<Timestamp>() {
        Ok(moment) => is_over(at, moment),
        Err(_) => false,
    }
}
