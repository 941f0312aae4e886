//! What checks the value under a key.

ghost use Rattle.std.specs.Prelude.{◌≡◌, None, IfOk, IfErr, OnOk};
ghost use Rattle.serde_json.specs.Data.{null};
ghost use Rattle.serde_json.specs.View.{view};
ghost use Rattle.rusty_paseto_claims.specs.Error.{IsFault};
ghost use Rattle.rusty_paseto_claims.specs.Same.{IsSame};
ghost use Rattle.rusty_paseto_generic.specs.Validator.{IfFault, IsFound};
ghost use Rattle.rusty_paseto_generic.specs.Parsers.Verdicts.{Fails, IsMismatch, Matches, Meets, Misses, Passes, entry, mismatch as mismatch_fault};
ghost use Rattle.rusty_paseto_generic.specs.Parsers.Held.{rule_of, checked, stored_json, verdict_of};

use crate::parsers::checks::{Check, Checker};
use crate::parsers::stored::Stored;
use crate::parsers::times::{Times, check_expiry, check_not_before};
use crate::validator::ValidatorFn;
use rusty_paseto_claims::{PasetoClaimError, same_value};
use serde_json::Value;
use std::alloc::{AllocError, Global};

/// Checks what a token's value has under a key, null where it has none: null fails where the key is required; then
/// by the checker alone, if there is one, and else by the stored value.
pub(crate) fn check_entry(
    alloc: Global,
    times: &Times,
    key: &str,
    check: &Check<ValidatorFn>,
    value: &Value,
) -> Result<(), PasetoClaimError>
    ensures ok { OnOk result (Passes (checked (λ b. verdict b) times.now (rule_of key.now check.now))
        key.now (entry key.now (view value.now))) }
    ensures err { IfErr result (IfFault (Fails
        (checked (λ b. verdict b) times.now (rule_of key.now check.now)) key.now
        (entry key.now (view value.now)))) }
{
    let null = Value::Null;
    let found = entry_or(value, key, &null);
    if check.required && found.is_null() {
        return Err(PasetoClaimError::Missing(String::from_str(alloc, key)?));
    }
    check_found(alloc, times, key, check, found)
}

// Checks the value that was found under a key.
fn check_found(
    alloc: Global,
    times: &Times,
    key: &str,
    check: &Check<ValidatorFn>,
    found: &Value,
) -> Result<(), PasetoClaimError>
    ensures ok { OnOk result (Meets (checked (λ b. verdict b) times.now (rule_of key.now check.now)) key.now
        (view found.now)) }
    ensures err { IfErr result (IfFault (Misses
        (checked (λ b. verdict b) times.now (rule_of key.now check.now)) key.now (view found.now))) }
{
    if let Some(checker) = &check.checker {
        return decide(alloc, times, key, checker, found);
    }
    match &check.stored {
        Some(stored) => compare(alloc, key, stored, found),
        None => Ok(()),
    }
}

// Checks the value by a checker alone.
fn decide(
    alloc: Global,
    times: &Times,
    key: &str,
    checker: &Checker<ValidatorFn>,
    found: &Value,
) -> Result<(), PasetoClaimError>
    ensures ok { OnOk result (verdict_of (λ b. verdict b) times.now checker.now key.now
        (view found.now) ≡ None) }
    ensures err { IfErr result (IsFound (verdict_of (λ b. verdict b) times.now checker.now key.now
        (view found.now))) }
{
    match checker {
        Checker::Boxed(validator) => validator.validate(alloc, key, found),
        Checker::Expiry => check_expiry(alloc, times, key, found),
        Checker::NotBefore => check_not_before(alloc, times, key, found),
    }
}

// Whether the value is there, and is what is stored under the key.
fn compare(alloc: Global, key: &str, stored: &Stored, found: &Value) -> Result<(), PasetoClaimError>
    ensures ok { OnOk result (Matches key.now (stored_json key.now stored.now) (view found.now)) }
    ensures err { IfErr result (IfFault
        (IsMismatch key.now (stored_json key.now stored.now) (view found.now))) }
{
    if found.is_null() {
        return Err(PasetoClaimError::Missing(String::from_str(alloc, key)?));
    }
    let null = Value::Null;
    match stored {
        Stored::Entry(expected) => expect(alloc, key, found, expected),
        Stored::Whole(json) => expect(alloc, key, found, entry_or(json, key, &null)),
        Stored::DefaultDate => {
            let date = Value::try_from_str(alloc, "2019-01-01T00:00:00+00:00")?;
            expect(alloc, key, found, &date)
        }
    }
}

// Whether the value is the expected one.
fn expect(alloc: Global, key: &str, found: &Value, expected: &Value) -> Result<(), PasetoClaimError>
    ensures ok { OnOk result (IsSame (view found.now) (view expected.now)) }
    ensures err { IfErr result (IfFault (λ fault. (¬ IsSame (view found.now) (view expected.now))
        × (fault ≡ mismatch_fault key.now (view found.now) (view expected.now)))) }
{
    if same_value(found, expected) {
        return Ok(());
    }
    Err(mismatch(alloc, key, found, expected)?)
}

// The entry of a value under a key, or what stands for one where there is none or the value is no object.
fn entry_or<'v>(value: &'v Value, key: &str, absent: &'v Value) -> &'v Value
    requires { view absent.now ≡ null }
    ensures { view result.now ≡ entry key.now (view value.now) }
{
    match value.get(key) {
        Some(found) => found,
        None => absent,
    }
}

// The fault of a value that is not the expected one.
fn mismatch(
    alloc: Global,
    key: &str,
    found: &Value,
    expected: &Value,
) -> Result<PasetoClaimError, AllocError>
    ensures { IfOk result (IsFault (mismatch_fault key.now (view found.now) (view expected.now))) }
{
    let key = String::from_str(alloc, key)?;
    match (found.as_str(), expected.as_str()) {
        (Some(found), Some(expected)) => Ok(PasetoClaimError::Invalid(
            key,
            String::from_str(alloc, found)?,
            String::from_str(alloc, expected)?,
        )),
        _ => Ok(PasetoClaimError::Unexpected(key)),
    }
}
