//! Validators.

ghost use Rattle.std.specs.Prelude.{None};
ghost use Rattle.test_cases.specs.Validators.{refused_null, told};

use rusty_paseto_claims::{PasetoClaimError, is_whole};
use rusty_paseto_generic::Validator;
use serde_json::Value;
use std::alloc::Global;

/// A validator that lets each value pass.
#[derive(Drop)]
pub(crate) struct Accepts;

impl Validator for Accepts {
    ghost verdict = { λ _ key value. None };

    fn validate(&self, _alloc: Global, _key: &str, _value: &Value) -> Result<(), PasetoClaimError> {
        Ok(())
    }
}

/// A validator that refuses null.
#[derive(Drop)]
pub(crate) struct RefusesNull;

impl Validator for RefusesNull {
    ghost verdict = { λ _ key value. refused_null key value };

    fn validate(&self, alloc: Global, key: &str, value: &Value) -> Result<(), PasetoClaimError> {
        if value.is_null() {
            let key = String::from_str(alloc, key)?;
            return Err(PasetoClaimError::CustomValidation(key));
        }
        Ok(())
    }
}

/// A validator that refuses each value, and tells it as JSON.
#[derive(Drop)]
pub(crate) struct Tells;

impl Validator for Tells {
    ghost verdict = { λ _ key value. told key value };

    fn validate(&self, alloc: Global, key: &str, value: &Value) -> Result<(), PasetoClaimError> {
        let key = String::from_str(alloc, key)?;
        if !is_whole(value) {
            return Err(PasetoClaimError::Unexpected(key));
        }
        let text = value.to_string(alloc)?;
        Err(PasetoClaimError::Invalid(key, String::new(alloc), text))
    }
}
