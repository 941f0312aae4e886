//! The values that a custom claim may have.

ghost use Rattle.std.specs.Prelude.{◌≡◌, IfOk, IfErr, string_bytes};
ghost use Rattle.serde_json.specs.Data.{boolean, number, string, unsigned};
ghost use Rattle.serde_json.specs.Find.{of_integer};
ghost use Rattle.serde_json.specs.View.{view};
ghost use Rattle.rusty_paseto_claims.specs.Claim.{Answer, IsRefusal, gives};

use crate::error::PasetoClaimError;
use serde_json::Value;
use std::alloc::Global;

/// A value that can be written as JSON.
pub trait ClaimValue {
    // What `to_value` answers, memory aside.
    ghost written: { Self → Answer };

    /// The value as JSON, which depends only on the value, unless an allocation fails.
    ///
    /// For the types of this library it fails only if an allocation fails. A caller's own type may return an error of
    /// its choice.
    fn to_value(&self, alloc: Global) -> Result<Value, PasetoClaimError>
        ensures ok { IfOk result (λ value. written self.now ≡ gives (view value)) }
        ensures err { IfErr result (IsRefusal (written self.now)) };
}

impl<'a> ClaimValue for &'a str {
    ghost written = { λ text. gives (string text.now) };

    fn to_value(&self, alloc: Global) -> Result<Value, PasetoClaimError> {
        Ok(Value::try_from_str(alloc, *self)?)
    }
}

impl ClaimValue for String {
    ghost written = { λ text. gives (string (string_bytes text)) };

    fn to_value(&self, alloc: Global) -> Result<Value, PasetoClaimError> {
        Ok(Value::try_from_str(alloc, self.as_str())?)
    }
}

impl ClaimValue for bool {
    ghost written = { λ truth. gives (boolean truth) };

    fn to_value(&self, _alloc: Global) -> Result<Value, PasetoClaimError> {
        Ok(Value::from(*self))
    }
}

impl ClaimValue for i8 {
    ghost written = { λ integer. gives (number (of_integer integer)) };

    fn to_value(&self, _alloc: Global) -> Result<Value, PasetoClaimError> {
        Ok(Value::from(*self))
    }
}

impl ClaimValue for i16 {
    ghost written = { λ integer. gives (number (of_integer integer)) };

    fn to_value(&self, _alloc: Global) -> Result<Value, PasetoClaimError> {
        Ok(Value::from(*self))
    }
}

impl ClaimValue for i32 {
    ghost written = { λ integer. gives (number (of_integer integer)) };

    fn to_value(&self, _alloc: Global) -> Result<Value, PasetoClaimError> {
        Ok(Value::from(*self))
    }
}

impl ClaimValue for i64 {
    ghost written = { λ integer. gives (number (of_integer integer)) };

    fn to_value(&self, _alloc: Global) -> Result<Value, PasetoClaimError> {
        Ok(Value::from(*self))
    }
}

impl ClaimValue for u8 {
    ghost written = { λ natural. gives (number (unsigned natural)) };

    fn to_value(&self, _alloc: Global) -> Result<Value, PasetoClaimError> {
        Ok(Value::from(*self))
    }
}

impl ClaimValue for u16 {
    ghost written = { λ natural. gives (number (unsigned natural)) };

    fn to_value(&self, _alloc: Global) -> Result<Value, PasetoClaimError> {
        Ok(Value::from(*self))
    }
}

impl ClaimValue for u32 {
    ghost written = { λ natural. gives (number (unsigned natural)) };

    fn to_value(&self, _alloc: Global) -> Result<Value, PasetoClaimError> {
        Ok(Value::from(*self))
    }
}

impl ClaimValue for u64 {
    ghost written = { λ natural. gives (number (unsigned natural)) };

    fn to_value(&self, _alloc: Global) -> Result<Value, PasetoClaimError> {
        Ok(Value::from(*self))
    }
}

/// A JSON value is used as it is, whatever numbers it contains and however deep it is nested.
impl ClaimValue for Value {
    ghost written = { λ value. gives (view value) };

    fn to_value(&self, _alloc: Global) -> Result<Value, PasetoClaimError> {
        Ok(self.clone()?)
    }
}
