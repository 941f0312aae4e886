//! A claim that must be present.

ghost use Rattle.rusty_paseto.specs.Validators.{present};

use rusty_paseto_generic::{PasetoClaimError, Validator};
use serde_json::Value;
use std::alloc::Global;

/// Accepts any value but null.
#[derive(Drop)]
pub struct Present;

impl Validator for Present {
    ghost verdict = { λ _. present };

    fn validate(&self, alloc: Global, key: &str, value: &Value) -> Result<(), PasetoClaimError> {
        match value {
            Value::Null => Err(PasetoClaimError::Missing(String::from_str(alloc, key)?)),
            _ => Ok(()),
        }
    }
}
