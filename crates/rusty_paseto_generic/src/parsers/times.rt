//! The checks of when a token may be used.

ghost use Rattle.std.specs.Prelude.{◌≡◌, ℕ, ℤ, List, Option, Some, None, Ok, IfOk, IfErr, IsErr, OnOk, MatchOption};
ghost use Rattle.jiff.specs.Words.{parse_timestamp};
ghost use Rattle.serde_json.specs.Data.{null, string};
ghost use Rattle.serde_json.specs.View.{view};
ghost use Rattle.rusty_paseto_claims.specs.Error.{Fault, malformed_date};
ghost use Rattle.rusty_paseto_generic.specs.Validator.{IfFault, IsFound};
ghost use Rattle.rusty_paseto_generic.specs.Parsers.Times.{expires_at, expiry, not_before, time_fault, usable_at};

use jiff::Timestamp;
use rusty_paseto_claims::PasetoClaimError;
use serde_json::Value;
use std::alloc::Global;

/// How many nanoseconds a second has.
const SECOND: i128 = 1_000_000_000;

/// When the times of a token are checked: at the moment, but `exp` by the leeway earlier, and `nbf` by it later.
#[derive(Clone, Copy)]
pub(crate) struct Times {
    pub(crate) moment: Timestamp,
    // In seconds.
    pub(crate) leeway: u32,
}

impl Times {
    // When the expiration is checked, in nanoseconds.
    fn expires_at(self) -> i128
        ensures { result ≡ expires_at self }
    {
        self.moment.as_nanosecond() - self.leeway as i128 * SECOND
    }

    // When the first moment of use is checked, in nanoseconds.
    fn usable_at(self) -> i128
        ensures { result ≡ usable_at self }
    {
        self.moment.as_nanosecond() + self.leeway as i128 * SECOND
    }
}

/// Checks when a token expires: it is `Expired` where the instant is at or before the moment, less the leeway. A
/// null value is skipped. Another one that is not text is `Unexpected` with the key, and a text from which `jiff` reads
/// no `Timestamp` is `RFC3339Date` with the text.
pub(crate) fn check_expiry(
    alloc: Global,
    times: &Times,
    key: &str,
    found: &Value,
) -> Result<(), PasetoClaimError>
    ensures ok { OnOk result (expiry times.now key.now (view found.now) ≡ None) }
    ensures err { IfErr result (IsFound (expiry times.now key.now (view found.now))) }
{
    let Some(text) = text_of(alloc, key, found)? else {
        return Ok(());
    };
    let instant = instant_of(alloc, text)?;
    if instant.as_nanosecond() <= times.expires_at() {
        return Err(PasetoClaimError::Expired);
    }
    Ok(())
}

/// Checks from when on a token may be used: it is `UseBeforeAvailable`, with the text, where the instant is at
/// or after the moment and the leeway. The rest is as in `check_expiry`.
pub(crate) fn check_not_before(
    alloc: Global,
    times: &Times,
    key: &str,
    found: &Value,
) -> Result<(), PasetoClaimError>
    ensures ok { OnOk result (not_before times.now key.now (view found.now) ≡ None) }
    ensures err { IfErr result (IsFound (not_before times.now key.now (view found.now))) }
{
    let Some(text) = text_of(alloc, key, found)? else {
        return Ok(());
    };
    let instant = instant_of(alloc, text)?;
    if times.usable_at() <= instant.as_nanosecond() {
        let text = String::from_str(alloc, text)?;
        return Err(PasetoClaimError::UseBeforeAvailable(text));
    }
    Ok(())
}

// The text that a value is, and none for null.
fn text_of<'v>(
    alloc: Global,
    key: &str,
    found: &'v Value,
) -> Result<Option<&'v str>, PasetoClaimError>
    ensures ok { IfOk result (λ text. MatchOption text (view found.now ≡ null)
        (λ text. view found.now ≡ string text.now)) }
    ensures err { IfErr result (IfFault (λ found_fault. (fault : List ℕ → ℤ → Option Fault)
        → time_fault fault key.now (view found.now) ≡ Some found_fault)) }
{
    match found {
        Value::Null => Ok(None),
        Value::String(text) => Ok(Some(text.as_str())),
        _ => Err(PasetoClaimError::Unexpected(String::from_str(alloc, key)?)),
    }
}

// The instant that is read from a text.
fn instant_of(alloc: Global, text: &str) -> Result<Timestamp, PasetoClaimError>
    ensures ok { IfOk result (λ instant. parse_timestamp text.now ≡ Ok instant.nanosecond) }
    ensures err { IfErr result (IfFault (λ fault. (fault ≡ malformed_date text.now)
        × IsErr (parse_timestamp text.now))) }
{
    match text.parse::<Timestamp>() {
        Ok(instant) => Ok(instant),
        Err(_) => Err(PasetoClaimError::RFC3339Date(String::from_str(alloc, text)?)),
    }
}
