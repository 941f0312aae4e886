//! From a text that a token holds to the value that a parser returns: read as JSON, and checked.

ghost use Rattle.std.specs.Prelude.{◌⊎◌, IfOk, IfErr, OnOk};
ghost use Rattle.serde_json.specs.View.{view};
ghost use Rattle.rusty_paseto_generic.specs.Error.Parser.{IsMemory};
ghost use Rattle.rusty_paseto_generic.specs.Parsers.Held.{verdicts_of};
ghost use Rattle.rusty_paseto_generic.specs.Parsers.Parsing.{IsCheckFault, IsOpenedAnswer, IsReadAs, IsReadingFault, IsTextFault, IsValueOf};
ghost use Rattle.rusty_paseto_generic.specs.Parsers.Verdicts.{PassesAll};

use crate::error::GenericParserError;
use crate::parsers::check_all::check_all;
use crate::parsers::checks::Checks;
use crate::parsers::times::Times;
use crate::validator::ValidatorFn;
use rusty_paseto_claims::{PasetoClaimError, odd_key};
use rusty_paseto_core::PasetoError;
use serde_json::Value;
use std::alloc::Global;

/// The value that a text is as JSON, nested at most 127 deep, whose numbers are 64-bit integers.
///
/// `PayloadJsonError` is returned for a text that is not such JSON, and `ClaimError` of `Unexpected` for one that holds
/// another number, with the first key in byte order under which it does.
fn read_value(alloc: Global, text: &str) -> Result<Value, GenericParserError>
    ensures ok { IfOk result (λ value. IsReadAs text.now (view value)) }
    ensures err { IfErr result (λ error. IsMemory error ⊎ IsReadingFault text.now error) }
{
    let value = Value::from_str(alloc, text)?;
    if let Some(key) = odd_key(&value) {
        let fault = PasetoClaimError::Unexpected(String::from_str(alloc, key)?);
        return Err(GenericParserError::ClaimError { source: fault });
    }
    Ok(value)
}

/// Checks a value, or returns `ClaimError` for the first key in byte order that fails its check.
pub(crate) fn check_value(
    checks: &Checks<ValidatorFn>,
    times: &Times,
    value: &Value,
) -> Result<(), GenericParserError>
    ensures ok { OnOk result (PassesAll (verdicts_of (λ b. verdict b) times.now checks.now)
        (view value.now)) }
    ensures err { IfErr result (λ error. IsMemory error
        ⊎ IsCheckFault (verdicts_of (λ b. verdict b) times.now checks.now) (view value.now) error) }
{
    check_all(checks.allocator(), times, checks, value)?;
    Ok(())
}

/// The value of a text, which passes all checks. Otherwise it returns the first of these errors: `PayloadJsonError` for
/// a text that is not JSON, `ClaimError` of `Unexpected` for a number that is not a 64-bit integer, and `ClaimError`
/// for the first key in byte order that fails its check.
pub(crate) fn parse_text(
    checks: &Checks<ValidatorFn>,
    times: &Times,
    text: &str,
) -> Result<Value, GenericParserError>
    ensures ok { IfOk result (λ value. IsValueOf
        (verdicts_of (λ b. verdict b) times.now checks.now) text.now (view value)) }
    ensures err { IfErr result (λ error. IsMemory error
        ⊎ IsTextFault (verdicts_of (λ b. verdict b) times.now checks.now) text.now error) }
{
    let value = read_value(checks.allocator(), text)?;
    check_value(checks, times, &value)?;
    Ok(value)
}

/// The value of the text that was opened or verified, which passes all checks, or why it was refused.
///
/// What a token's own parsing adds is here, once for all versions and purposes.
pub(crate) fn parse_opened(
    checks: &Checks<ValidatorFn>,
    times: &Times,
    opened: Result<String, PasetoError>,
) -> Result<Value, GenericParserError>
    ensures { IsOpenedAnswer (verdicts_of (λ b. verdict b) times.now checks.now) opened result }
{
    let text = opened?;
    parse_text(checks, times, text.as_str())
}
