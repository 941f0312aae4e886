//! What a claim answers when it is asked for its key and for JSON, and values by their JSON.

use crate::expect::{expect_text, expect_told};
use rusty_paseto_claims::PasetoClaim;
use serde_json::Value;
use std::alloc::Global;
use std::process::Abort;

/// Checks the key of a claim, and the compact text of its JSON.
pub(crate) fn check<C: PasetoClaim + Drop>(
    rt: &impl Abort,
    alloc: Global,
    claim: C,
    key: &str,
    json: &str,
) {
    expect_text(rt, claim.get_key(), key);
    expect_told(rt, alloc, claim.to_json(alloc), json, key);
}

/// The value that a text of JSON spells.
pub(crate) fn value_of(rt: &impl Abort, alloc: Global, json: &str) -> Value {
    Value::from_str(alloc, json).expect(rt, "JSON")
}
