//! Claims that C passes as the text of a JSON object, and names of claims, as that of an array.

ghost use Rattle.std.specs.Prelude.{◌≡◌, ◌⊎◌, MatchResult, Some, option_map};
ghost use Rattle.serde_json.specs.Data.{array, object};
ghost use Rattle.serde_json.specs.Find.{as_object};
ghost use Rattle.serde_json.specs.Read.{read};
ghost use Rattle.serde_json.specs.View.{items_view, members_view, view};
ghost use Rattle.paseto_calls.specs.Claims.{IsNoObject};
ghost use Rattle.paseto_calls.specs.Parse.{IsNoArray, read_names};

use crate::refusal::Refusal;
use serde_json::{Map, Value};
use std::alloc::Global;

/// The members of the object that a text is, or `NotObject`.
pub(crate) fn object_of(alloc: Global, text: &str) -> Result<Map<String, Value>, Refusal>
    ensures { MatchResult result
        (λ members. read text.now ≡ Some (object (members_view members.entries)))
        (λ refusal. (refusal ≡ Refusal.Memory)
        ⊎ ((refusal ≡ Refusal.NotObject) × IsNoObject text.now)) }
{
    match Value::from_str(alloc, text) {
        Ok(value) => members_of(value).ok_or(Refusal::NotObject),
        Err(error) => {
            if error.is_memory() {
                return Err(Refusal::Memory);
            }
            Err(Refusal::NotObject)
        }
    }
}

/// The members of an object.
fn members_of(value: Value) -> Option<Map<String, Value>>
    ensures { option_map (λ members. members_view members.entries) result ≡ as_object (view value) }
{
    match value {
        Value::Object(members) => Some(members),
        _ => None,
    }
}

/// The names in a text, the items of a JSON array, or `NotNames`. An empty text has no names.
pub(crate) fn names_of(alloc: Global, text: &str) -> Result<Vec<Value>, Refusal>
    ensures { MatchResult result (λ names. read_names text.now ≡ Some (array (items_view names.items)))
        (λ refusal. (refusal ≡ Refusal.Memory)
        ⊎ ((refusal ≡ Refusal.NotNames) × IsNoArray text.now)) }
{
    if text.is_empty() {
        return Ok(Vec::new(alloc));
    }
    match Value::from_str(alloc, text) {
        Ok(Value::Array(names)) => Ok(names),
        Ok(_) => Err(Refusal::NotNames),
        Err(error) => {
            if error.is_memory() {
                return Err(Refusal::Memory);
            }
            Err(Refusal::NotNames)
        }
    }
}
