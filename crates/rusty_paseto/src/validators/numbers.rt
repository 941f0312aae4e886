//! Integers within bounds.

ghost use Rattle.std.specs.Prelude.{◌≡◌, ℤ, Bool, IfErr, IfOk, Some, int_le};
ghost use Rattle.rusty_paseto_generic.specs.Validator.{IfFault};
ghost use Rattle.serde_json.specs.View.{view};
ghost use Rattle.rusty_paseto.specs.Validators.{allowed, at_least, at_most, of_number, within};

use crate::validators::refusing::{allow, refuse};
use rusty_paseto_generic::{PasetoClaimError, Validator};
use serde_json::Value;
use std::alloc::Global;

/// Accepts an integer up to this one.
#[derive(Drop)]
pub struct AtMost(pub i64);

impl Validator for AtMost {
    ghost verdict = { λ bound. at_most bound.0 };

    fn validate(&self, alloc: Global, key: &str, value: &Value) -> Result<(), PasetoClaimError> {
        let number = number_in(alloc, key, value)?;
        allow(alloc, key, number <= self.0 as i128)
    }
}

/// Accepts an integer from this one on.
#[derive(Drop)]
pub struct AtLeast(pub i64);

impl Validator for AtLeast {
    ghost verdict = { λ bound. at_least bound.0 };

    fn validate(&self, alloc: Global, key: &str, value: &Value) -> Result<(), PasetoClaimError> {
        let number = number_in(alloc, key, value)?;
        allow(alloc, key, number >= self.0 as i128)
    }
}

/// Accepts an integer from the lower to the upper bound, both included.
#[derive(Drop)]
pub struct Within {
    pub least: i64,
    pub most: i64,
}

impl Validator for Within {
    ghost verdict = { λ bounds. within bounds.least bounds.most };

    fn validate(&self, alloc: Global, key: &str, value: &Value) -> Result<(), PasetoClaimError> {
        let number = number_in(alloc, key, value)?;
        allow(
            alloc,
            key,
            self.least as i128 <= number && number <= self.most as i128,
        )
    }
}

// The whole number that a value is.
fn number_in(alloc: Global, key: &str, value: &Value) -> Result<i128, PasetoClaimError>
    ensures ok { IfOk result (λ number. (test : ℤ → Bool) → of_number test key.now (view value.now)
        ≡ allowed (test number) key.now) }
    ensures err { IfErr result (IfFault (λ fault. (test : ℤ → Bool)
        → of_number test key.now (view value.now) ≡ Some fault)) }
{
    if let Some(number) = value.as_i64() {
        return Ok(number as i128);
    }
    match value.as_u64() {
        Some(number) => Ok(number as i128),
        None => Err(refuse(alloc, key, value)),
    }
}
