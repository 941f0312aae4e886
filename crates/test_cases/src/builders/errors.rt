//! The texts of builders' errors.

use crate::expect::{expect_error, expect_variant};
use rusty_paseto_claims::PasetoClaimError;
use rusty_paseto_core::PasetoError;
use rusty_paseto_generic::GenericBuilderError;
use serde_json::Value;
use std::alloc::{AllocError, Global};
use std::process::Abort;

fn owned(rt: &impl Abort, alloc: Global, text: &str) -> String {
    String::from_str(alloc, text).expect(rt, "memory")
}

#[test]
fn of_claims_and_tokens(rt: HostRuntime) {
    let alloc = rt.alloc();
    let text = "This token is expired";
    expect_error(
        &rt,
        alloc,
        GenericBuilderError::from(PasetoClaimError::Expired),
        text,
    );
    let text = "Could not convert claim 'n' to the expected data type";
    let unexpected = PasetoClaimError::Unexpected(owned(&rt, alloc, "n"));
    expect_error(&rt, alloc, GenericBuilderError::from(unexpected), text);
    let text = "A paseto cipher error occurred";
    expect_error(
        &rt,
        alloc,
        GenericBuilderError::from(PasetoError::Cipher),
        text,
    );
}

#[test]
fn of_texts_and_keys(rt: HostRuntime) {
    let alloc = rt.alloc();
    let text = "hello is an invalid iso8601 (email) string";
    let hello = owned(&rt, alloc, "hello");
    expect_error(
        &rt,
        alloc,
        GenericBuilderError::BadEmailAddress(hello),
        text,
    );
    let text = "The claim 'iat' appears more than once in the top level payload json";
    let issued = owned(&rt, alloc, "iat");
    expect_error(
        &rt,
        alloc,
        GenericBuilderError::DuplicateTopLevelPayloadClaim(issued),
        text,
    );
    let text = "The payload was unable to be serialized into json";
    let source = Value::from_str(alloc, "{").expect_err(&rt, "read as JSON");
    expect_error(&rt, alloc, GenericBuilderError::from(source), text);
}

#[test]
fn of_memory(rt: HostRuntime) {
    let alloc = rt.alloc();
    let text = "No memory was found";
    expect_error(&rt, alloc, GenericBuilderError::from(AllocError), text);
    expect_variant(
        &rt,
        alloc,
        GenericBuilderError::from(PasetoClaimError::Memory(AllocError)),
        "Memory(AllocError)",
    );
    expect_variant(
        &rt,
        alloc,
        GenericBuilderError::from(PasetoError::Memory(AllocError)),
        "Memory(AllocError)",
    );
}
