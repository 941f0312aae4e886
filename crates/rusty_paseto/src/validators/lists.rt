//! Lists that contain a text.

ghost use Rattle.std.specs.Prelude.{◌≡◌, ℕ, List, IfErr, IfOk, Some, string_bytes};
ghost use Rattle.rusty_paseto_generic.specs.Validator.{IfFault};
ghost use Rattle.std.specs.List.{list_any};
ghost use Rattle.serde_json.specs.View.{view};
ghost use Rattle.rusty_paseto.specs.Validators.{allowed, holding, is_text};

use crate::validators::refusing::{allow, refuse};
use rusty_paseto_generic::{PasetoClaimError, Validator};
use serde_json::Value;
use std::alloc::Global;

/// Accepts an array that contains this text, for example an audience of several.
#[derive(Drop)]
pub struct Holding(pub String);

impl Validator for Holding {
    ghost verdict = { λ wanted. holding (string_bytes wanted.0) };

    fn validate(&self, alloc: Global, key: &str, value: &Value) -> Result<(), PasetoClaimError> {
        let items = items_in(alloc, key, value)?;
        allow(alloc, key, has_text(self.0.as_str(), items))
    }
}

// The items of the array that a value is.
fn items_in<'v>(alloc: Global, key: &str, value: &'v Value) -> Result<&'v [Value], PasetoClaimError>
    ensures ok { IfOk result (λ items. (text : List ℕ) → holding text key.now (view value.now)
        ≡ allowed (list_any (λ item. is_text text (view item)) items.now) key.now) }
    ensures err { IfErr result (IfFault (λ fault. (text : List ℕ)
        → holding text key.now (view value.now) ≡ Some fault)) }
{
    match value.as_array() {
        Some(items) => Ok(items.as_slice()),
        None => Err(refuse(alloc, key, value)),
    }
}

// Whether the text is one of the items.
fn has_text(text: &str, items: &[Value]) -> bool
    ensures { result ≡ list_any (λ item. is_text text.now (view item)) items.now }
{
    items.iter().any(|item| is_text(text, item))
}

// Whether the item is the text.
fn is_text(text: &str, item: &Value) -> bool
    ensures { result ≡ is_text text.now (view item.now) }
{
    match item {
        Value::String(other) => text == other.as_str(),
        _ => false,
    }
}
