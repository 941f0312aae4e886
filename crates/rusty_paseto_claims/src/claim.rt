//! What a claim is.

ghost use Rattle.std.specs.Prelude.{◌≡◌, ℕ, List, IfOk, IfErr};
ghost use Rattle.serde_json.specs.View.{view};
ghost use Rattle.rusty_paseto_claims.specs.Claim.{Answer, IsRefusal, gives, one_member};
ghost use Rattle.rusty_paseto_claims.specs.Error.{IsMemory};

use crate::error::PasetoClaimError;
use serde_json::{Map, Value};
use std::alloc::Global;

/// A claim: a key of a token's payload, and its value.
///
/// Both methods depend only on the claim: two calls return the same, unless an allocation fails.
pub trait PasetoClaim {
    // The key.
    ghost key: { Self → List ℕ };

    // What `to_json` answers, memory aside.
    ghost json: { Self → Answer };

    /// The key of the claim, which may be any text.
    fn get_key(&self) -> &str
        ensures { result.now ≡ key self.now };

    /// The claim as JSON. The claims of this library return an object with one entry, the claim's key and value.
    ///
    /// A caller's own claim may return an error of its choice. It may return `Memory` instead if an allocation fails.
    fn to_json(&self, alloc: Global) -> Result<Value, PasetoClaimError>
        ensures ok { IfOk result (λ value. json self.now ≡ gives (view value)) }
        ensures err { IfErr result (IsRefusal (json self.now)) };
}

/// The object with only this key and value.
pub(crate) fn to_object(alloc: Global, key: &str, value: Value) -> Result<Value, PasetoClaimError>
    ensures ok { IfOk result (λ made. view made ≡ one_member key.now (view value)) }
    ensures err { IfErr result IsMemory }
{
    let mut members = Map::new(alloc);
    serde_json::put(&mut members, alloc, key, value)?;
    Ok(Value::Object(members))
}
