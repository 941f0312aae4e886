//! Claims of a caller's own.

use crate::claims::json;
use crate::expect::{expect_outcome, expect_text, expect_that};
use rusty_paseto_claims::{ClaimValue, CustomClaim, PasetoClaimError};
use std::alloc::Global;
use std::fmt::Debug;
use std::process::Abort;

// The reserved keys, and how they are refused.
const RESERVED: &[(&str, &str)] = &[
    ("iss", "Reserved(\"iss\")"),
    ("sub", "Reserved(\"sub\")"),
    ("aud", "Reserved(\"aud\")"),
    ("exp", "Reserved(\"exp\")"),
    ("nbf", "Reserved(\"nbf\")"),
    ("iat", "Reserved(\"iat\")"),
    ("jti", "Reserved(\"jti\")"),
];

#[test]
fn reserved_keys_are_refused(rt: HostRuntime) {
    let alloc = rt.alloc();
    'keys: for &(key, wanted) in RESERVED {
        let answer = CustomClaim::try_from_str(alloc, key, 4u64);
        expect_outcome(&rt, alloc, answer, wanted, "of a text");
        let owned = String::from_str(alloc, key).expect(&rt, "memory");
        let answer = CustomClaim::try_from_string(owned, true);
        expect_outcome(&rt, alloc, answer, wanted, "of a string");
        let answer = CustomClaim::<&str>::try_from_key(alloc, key);
        expect_outcome(&rt, alloc, answer, wanted, "of a key alone");
    }
}

#[test]
fn other_keys_are_taken(rt: HostRuntime) {
    'keys: for key in ["", "EXP", "Iss", "iss ", "ex", "expp", "i'm good tho"] {
        let claim = CustomClaim::try_from_str(rt.alloc(), key, "value").expect(&rt, "a claim");
        let (kept, value) = claim.as_pair();
        expect_text(&rt, kept, key);
        expect_text(&rt, *value, "value");
    }
}

// The claim is written under its key, and shows something by `Debug`.
fn check<T: ClaimValue + Debug + Drop>(
    rt: &impl Abort,
    alloc: Global,
    claim: Result<CustomClaim<T>, PasetoClaimError>,
    key: &str,
    json: &str,
) {
    let claim = claim.expect(rt, "a claim");
    let told = format!(in alloc; "{claim:?}").expect(rt, "memory");
    expect_that(rt, !told.is_empty(), key);
    json::check(rt, alloc, claim, key, json);
}

#[test]
fn written_under_their_keys(rt: HostRuntime) {
    let alloc = rt.alloc();
    let good = "i'm good tho";
    let json = "{\"i'm good tho\":true}";
    check(
        &rt,
        alloc,
        CustomClaim::try_from_str(alloc, good, true),
        good,
        json,
    );
    let key = String::from_str(alloc, "seats").expect(&rt, "memory");
    let json = "{\"seats\":4}";
    check(
        &rt,
        alloc,
        CustomClaim::try_from_string(key, 4u8),
        "seats",
        json,
    );
    let json = "{\"data\":\"\"}";
    check(
        &rt,
        alloc,
        CustomClaim::<&str>::try_from_key(alloc, "data"),
        "data",
        json,
    );
    let secret = "this is a secret message";
    let json = "{\"\":\"this is a secret message\"}";
    check(
        &rt,
        alloc,
        CustomClaim::try_from_str(alloc, "", secret),
        "",
        json,
    );
}
