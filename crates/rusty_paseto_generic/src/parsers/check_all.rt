//! The walk over all keys with a check.

ghost use Rattle.std.specs.Prelude.{IfErr, OnOk};
ghost use Rattle.serde_json.specs.View.{view};
ghost use Rattle.rusty_paseto_generic.specs.Validator.{IfFault};
ghost use Rattle.rusty_paseto_generic.specs.Parsers.Held.{verdicts_of};
ghost use Rattle.rusty_paseto_generic.specs.Parsers.Verdicts.{IsFirstFailing, PassesAll};

use crate::parsers::check_entry::check_entry;
use crate::parsers::checks::Checks;
use crate::parsers::times::Times;
use crate::validator::ValidatorFn;
use rusty_paseto_claims::PasetoClaimError;
use serde_json::Value;
use std::alloc::Global;

/// Checks what a token's value has under each key with a check, in byte order of the keys, up to the first that
/// fails.
pub(crate) fn check_all(
    alloc: Global,
    times: &Times,
    checks: &Checks<ValidatorFn>,
    value: &Value,
) -> Result<(), PasetoClaimError>
    ensures ok { OnOk result (PassesAll (verdicts_of (λ b. verdict b) times.now checks.now)
        (view value.now)) }
    ensures err { IfErr result (IfFault (IsFirstFailing
        (verdicts_of (λ b. verdict b) times.now checks.now) (view value.now))) }
{
    for (key, check) in checks.entries.iter() {
        check_entry(alloc, times, key.as_str(), check, value)?;
    }
    Ok(())
}
