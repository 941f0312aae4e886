//! How the ready-made validators refuse.

ghost use Rattle.std.specs.Prelude.{◌≡◌, IfErr, None, OnOk, Some};
ghost use Rattle.rusty_paseto_claims.specs.Error.{IsFault, missing, unexpected};
ghost use Rattle.rusty_paseto_generic.specs.Validator.{IfFault, IsFound};
ghost use Rattle.serde_json.specs.Data.{null};
ghost use Rattle.serde_json.specs.View.{view};
ghost use Rattle.rusty_paseto.specs.Validators.{allowed, unfit};

use rusty_paseto_generic::PasetoClaimError;
use serde_json::Value;
use std::alloc::Global;

/// Returns `Ok` if the value is allowed under the key, and otherwise `CustomValidation` with the key.
pub(super) fn allow(alloc: Global, key: &str, test: bool) -> Result<(), PasetoClaimError>
    ensures ok { OnOk result (allowed test key.now ≡ None) }
    ensures err { IfErr result (IsFound (allowed test key.now)) }
{
    if test {
        return Ok(());
    }
    Err(PasetoClaimError::CustomValidation(String::from_str(alloc, key)?))
}

/// Why a value is not of the kind that is expected: `Missing` with the key for null, and else `Unexpected`.
pub(super) fn refuse(alloc: Global, key: &str, value: &Value) -> PasetoClaimError
    ensures { IfFault (λ fault. fault ≡ unfit key.now (view value.now)) result }
{
    match String::from_str(alloc, key) {
        Ok(key) if value.is_null() => PasetoClaimError::Missing(key),
        Ok(key) => PasetoClaimError::Unexpected(key),
        Err(refused) => PasetoClaimError::Memory(refused),
    }
}
