//! The only entry of a claim's JSON.

ghost use Rattle.std.specs.Prelude.{◌≡◌, IfOk, IfErr, MatchResult, string_bytes};
ghost use Rattle.serde_json.specs.View.{view};
ghost use Rattle.rusty_paseto_claims.specs.Claim.{one_member};
ghost use Rattle.rusty_paseto_generic.specs.Builders.Claims.{unwrapped};

use serde_json::{Map, Value};

/// The entry of an object whose only key is this one, taken out of it, or the value as it is. Does not allocate.
pub(crate) fn only_entry(key: &str, value: Value) -> Result<(String, Value), Value>
    ensures entry { IfOk result (λ entry. (string_bytes entry.0 ≡ key.now)
        × (view value ≡ one_member key.now (view entry.1))) }
    ensures kept { IfErr result (λ kept. view kept ≡ view value) }
    ensures unwrapped { MatchResult result
        (λ entry. view entry.1 ≡ unwrapped key.now (view value))
        (λ kept. view kept ≡ unwrapped key.now (view value)) }
{
    match value {
        Value::Object(members) => only_member(key, members),
        other => Err(other),
    }
}

// The entry under the key, where there is no other key, or the whole object.
fn only_member(key: &str, members: Map<String, Value>) -> Result<(String, Value), Value>
    ensures entry { IfOk result (λ entry. (string_bytes entry.0 ≡ key.now)
        × (view (Value.Object members) ≡ one_member key.now (view entry.1))) }
    ensures kept { IfErr result (λ kept. view kept ≡ view (Value.Object members)) }
    ensures unwrapped { MatchResult result
        (λ entry. view entry.1 ≡ unwrapped key.now (view (Value.Object members)))
        (λ kept. view kept ≡ unwrapped key.now (view (Value.Object members))) }
{
    let mut members = members;
    if members.len() != 1 {
        return Err(Value::Object(members));
    }
    match members.remove_entry(key) {
        Some(entry) => Ok(entry),
        None => Err(Value::Object(members)),
    }
}
