//! Validators: a caller's own checks of claims.

ghost use Rattle.std.specs.Prelude.{◌≡◌, None, IfErr, OnOk};
ghost use Rattle.serde_json.specs.View.{view};
ghost use Rattle.rusty_paseto_generic.specs.Validator.{IsFound, Verdict};

use rusty_paseto_claims::PasetoClaimError;
use serde_json::Value;
use std::alloc::Global;
use std::collections::BTreeMap;

/// A caller's own check of the value under a key.
///
/// Its result depends only on the validator, the key and the value: two calls return the same, unless an allocation
/// fails.
pub trait Validator: Drop {
    // The fault of a value under a key, or none.
    ghost verdict: { Self → Verdict };

    /// Returns `Ok` if the value is allowed under the key; the value is null if the token has none. Otherwise it
    /// returns an error of the validator's choice. It may return `Memory` instead if an allocation fails.
    fn validate(&self, alloc: Global, key: &str, value: &Value) -> Result<(), PasetoClaimError>
        ensures ok { OnOk result (verdict self.now key.now (view value.now) ≡ None) }
        ensures err { IfErr result (IsFound (verdict self.now key.now (view value.now))) };
}

/// A validator of any type, boxed.
pub type ValidatorFn = Box<dyn Validator>;

/// Validators by the keys that they check.
pub type ValidatorMap = BTreeMap<String, ValidatorFn>;
