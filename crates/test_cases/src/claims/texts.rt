//! The claims that are any text.

use crate::claims::json;
use crate::expect::expect_text;
use rusty_paseto_claims::{
    Audience, AudienceClaim, Issuer, ReservedKey, Subject, TextClaim, TokenIdentifier,
};
use std::alloc::Global;
use std::process::Abort;

// The claim of the key is written so of the text `"7"`, and so by default.
fn check<K: ReservedKey>(rt: &impl Abort, alloc: Global, key: &str, json: &str, empty: &str) {
    json::check(rt, alloc, TextClaim::<K>::from("\"7\""), key, json);
    json::check(rt, alloc, TextClaim::<K>::default(), key, empty);
}

#[test]
fn written_under_their_keys(rt: HostRuntime) {
    let alloc = rt.alloc();
    check::<Audience>(
        &rt,
        alloc,
        "aud",
        "{\"aud\":\"\\\"7\\\"\"}",
        "{\"aud\":\"\"}",
    );
    check::<Issuer>(
        &rt,
        alloc,
        "iss",
        "{\"iss\":\"\\\"7\\\"\"}",
        "{\"iss\":\"\"}",
    );
    check::<Subject>(
        &rt,
        alloc,
        "sub",
        "{\"sub\":\"\\\"7\\\"\"}",
        "{\"sub\":\"\"}",
    );
    check::<TokenIdentifier>(
        &rt,
        alloc,
        "jti",
        "{\"jti\":\"\\\"7\\\"\"}",
        "{\"jti\":\"\"}",
    );
}

#[test]
fn pairs_of_key_and_text(rt: HostRuntime) {
    let claim = AudienceClaim::from("customers");
    let copy = claim;
    let (key, text) = copy.as_pair();
    expect_text(&rt, key, "aud");
    expect_text(&rt, text, "customers");
    let (key, text) = claim.as_pair();
    expect_text(&rt, key, "aud");
    expect_text(&rt, text, "customers");
}
