//! The texts of parsers' errors.

use crate::expect::{expect_error, expect_variant};
use rusty_paseto_claims::PasetoClaimError;
use rusty_paseto_core::PasetoError;
use rusty_paseto_generic::GenericParserError;
use serde_json::Value;
use std::alloc::AllocError;

#[test]
fn of_claims_tokens_and_json(rt: HostRuntime) {
    let alloc = rt.alloc();
    let error = GenericParserError::from(PasetoClaimError::Expired);
    expect_error(&rt, alloc, error, "This token is expired");
    let error = GenericParserError::from(PasetoError::Cryption);
    expect_error(&rt, alloc, error, "A paseto cipher error occurred");
    let source = Value::from_str(alloc, "{").expect_err(&rt, "no JSON");
    let error = GenericParserError::from(source);
    let text = "The payload was unable to be serialized into json";
    expect_error(&rt, alloc, error, text);
    let error = GenericParserError::from(AllocError);
    expect_error(&rt, alloc, error, "No memory was found");
}

#[test]
fn of_memory(rt: HostRuntime) {
    let of_claims = GenericParserError::from(PasetoClaimError::Memory(AllocError));
    expect_variant(&rt, rt.alloc(), of_claims, "Memory(AllocError)");
    let of_tokens = GenericParserError::from(PasetoError::Memory(AllocError));
    expect_variant(&rt, rt.alloc(), of_tokens, "Memory(AllocError)");
}
