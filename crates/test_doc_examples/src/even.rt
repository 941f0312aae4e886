//! Of `validators`: one of one's own.

ghost use Rattle.test_doc_examples.specs.Even.{even};

use rusty_paseto::prelude::*;
use serde_json::Value;
use std::alloc::Global;

/// Lets an even number pass, and nothing else.
#[derive(Drop)]
pub struct Even;

impl Validator for Even {
    ghost verdict = { λ _ key value. even key value };

    fn validate(&self, alloc: Global, key: &str, value: &Value) -> Result<(), PasetoClaimError> {
        match value.as_u64() {
            Some(number) if number % 2 == 0 => Ok(()),
            _ => Err(PasetoClaimError::CustomValidation(String::from_str(alloc, key)?)),
        }
    }
}
