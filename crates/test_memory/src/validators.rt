//! A validator that refuses each value, and takes memory for it.

ghost use Rattle.std.specs.Prelude.{Some};
ghost use Rattle.rusty_paseto_claims.specs.Error.{custom_validation};

use anyhow::Result;
use rusty_paseto::prelude::{PasetoClaimError, Validator, ValidatorFn, ValidatorMap};
use serde_json::Value;
use std::alloc::Global;
use std::collections::BTreeMap;

/// A validator that refuses each value, with a copy of its key.
#[derive(Drop)]
pub struct Refuses;

impl Validator for Refuses {
    ghost verdict = { λ _ key value. Some (custom_validation key) };

    fn validate(&self, alloc: Global, key: &str, _value: &Value) -> Result<(), PasetoClaimError> {
        let key = String::from_str(alloc, key)?;
        Err(PasetoClaimError::CustomValidation(key))
    }
}

/// Such validators of three keys, the last of which a parser of the cases checks already.
macro_rules! validators {
    ($alloc:expr) => {{
        let [first, second, third] = $crate::validators::boxes_of($alloc)?;
        $crate::validators::validators_of($alloc, [first, second, third])?
    }};
}

pub(crate) use validators;

/// The validators of three keys, for `validators!`.
pub fn boxes_of(alloc: Global) -> Result<[Box<Refuses>; 3]> {
    let (first, second) = (Box::new(alloc, Refuses)?, Box::new(alloc, Refuses)?);
    Ok([first, second, Box::new(alloc, Refuses)?])
}

/// The same by their keys.
pub fn validators_of(alloc: Global, boxes: [ValidatorFn; 3]) -> Result<ValidatorMap> {
    let (mut map, [first, second, third]) = (BTreeMap::new(alloc), boxes);
    drop(map.insert(String::from_str(alloc, "a")?, first)?);
    drop(map.insert(String::from_str(alloc, "aud")?, second)?);
    drop(map.insert(String::from_str(alloc, "seats")?, third)?);
    Ok(map)
}
