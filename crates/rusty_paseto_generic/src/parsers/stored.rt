//! What a parser compares a token's value with.

ghost use Rattle.std.specs.Prelude.{◌≡◌, IfOk, string_bytes};
ghost use Rattle.serde_json.specs.View.{view};
ghost use Rattle.rusty_paseto_generic.specs.Parsers.Held.{stored_json};

use crate::entry::only_entry;
use serde_json::Value;
use std::alloc::{AllocError, Global};

/// What is stored under a key of a claim's JSON.
#[derive(Drop)]
pub(crate) enum Stored {
    /// The value under the key, which is the JSON's only one.
    Entry(Value),
    /// The JSON as it is, of which the value under the key is expected.
    Whole(Value),
    /// The date and time by default under the key. It is made where it is compared, and not stored.
    DefaultDate,
}

impl Stored {
    /// The key, and what is stored under it of a claim's JSON. Only a key that is not in the JSON is copied.
    pub(crate) fn of(alloc: Global, key: &str, json: Value) -> Result<(String, Stored), AllocError>
        ensures { IfOk result (λ made. (string_bytes made.0 ≡ key.now)
            × (stored_json key.now made.1 ≡ view json)) }
    {
        match only_entry(key, json) {
            Ok((name, value)) => Ok((name, Stored::Entry(value))),
            Err(json) => Ok((String::from_str(alloc, key)?, Stored::Whole(json))),
        }
    }
}
