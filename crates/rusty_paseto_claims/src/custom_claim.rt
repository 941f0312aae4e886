//! Custom claims.

ghost use Rattle.std.specs.Prelude.{◌≡◌, ◌↔◌, ℕ, List, [], string_bytes, IsOk, IfOk, IfErr, IsErr};
ghost use Rattle.rusty_paseto_claims.specs.Claim.{under};
ghost use Rattle.rusty_paseto_claims.specs.CustomClaim.{IsReservedFault};
ghost use Rattle.rusty_paseto_claims.specs.Error.{IsFault, reserved};
ghost use Rattle.rusty_paseto_claims.specs.Reserved.{IsReserved};

use crate::claim::{PasetoClaim, to_object};
use crate::claim_value::ClaimValue;
use crate::error::PasetoClaimError;
use crate::reserved::is_reserved;
use serde_json::Value;
use std::alloc::Global;
use std::marker::Model;

/// A claim with the caller's own key: any text except the seven reserved keys; it may be empty.
#[derive(Debug, Drop)]
pub struct CustomClaim<T> {
    key: String,
    value: T,
}

impl<T> Model for CustomClaim<T> {
    ghost Value = { List ℕ × T };

    ghost view = { λ claim. (string_bytes claim.key, claim.value) };

    ghost invariant = { λ claim. ¬ IsReserved (string_bytes claim.key) };
}

impl<T: Drop> CustomClaim<T> {
    /// The claim with this key and value. Does not allocate.
    ///
    /// `Reserved` with the key is returned exactly for `iss`, `sub`, `aud`, `exp`, `nbf`, `iat` and `jti`. Key
    /// and value are then dropped.
    pub fn try_from_string(key: String, value: T) -> Result<Self, PasetoClaimError>
        ensures kept { IfOk result (λ claim. claim ≡ (string_bytes key, value)) }
        ensures exact { IsErr result ↔ IsReserved (string_bytes key) }
        ensures err { IfErr result (IsFault (reserved (string_bytes key))) }
    {
        if is_reserved(key.as_str()) {
            return Err(PasetoClaimError::Reserved(key));
        }
        Ok(CustomClaim { key, value })
    }

    /// The claim with this key, which is copied, and this value.
    ///
    /// `Reserved` with the key is returned exactly for `iss`, `sub`, `aud`, `exp`, `nbf`, `iat` and `jti`. The value is
    /// dropped if the claim is refused.
    pub fn try_from_str(alloc: Global, key: &str, value: T) -> Result<Self, PasetoClaimError>
        ensures kept { IfOk result (λ claim. (claim ≡ (key.now, value)) × ¬ IsReserved key.now) }
        ensures err { IfErr result (IsReservedFault key.now) }
    {
        CustomClaim::try_from_string(String::from_str(alloc, key)?, value)
    }
}

impl<'a> CustomClaim<&'a str> {
    /// The claim with this key, which is copied, and the empty text.
    ///
    /// `Reserved` with the key is returned exactly for `iss`, `sub`, `aud`, `exp`, `nbf`, `iat` and `jti`.
    pub fn try_from_key(alloc: Global, key: &str) -> Result<Self, PasetoClaimError>
        ensures kept { IfOk result (λ claim. (claim.0 ≡ key.now) × (claim.1.now ≡ [])
            × ¬ IsReserved key.now) }
        ensures err { IfErr result (IsReservedFault key.now) }
    {
        CustomClaim::try_from_str(alloc, key, "")
    }
}

impl<T> CustomClaim<T> {
    /// The key and the value.
    pub fn as_pair(&self) -> (&str, &T)
        ensures key { result.0.now ≡ self.now.0 }
        ensures value { result.1.now ≡ self.now.1 }
        ensures own { ¬ IsReserved self.now.0 }
    {
        (self.key.as_str(), &self.value)
    }
}

impl<T: ClaimValue> PasetoClaim for CustomClaim<T> {
    ghost key = { λ claim. claim.0 };

    ghost json = { λ claim. under claim.0 (T.written claim.1) };

    fn get_key(&self) -> &str {
        self.key.as_str()
    }

    fn to_json(&self, alloc: Global) -> Result<Value, PasetoClaimError> {
        let value = self.value.to_value(alloc)?;
        to_object(alloc, self.key.as_str(), value)
    }
}
