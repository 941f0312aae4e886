//! Each kind of value that a claim of a caller's own may have.

use crate::claims::json::value_of;
use crate::expect::expect_told;
use rusty_paseto_claims::{ClaimValue, PasetoClaimError};
use serde_json::Value;
use std::alloc::Global;
use std::process::Abort;

fn check(rt: &impl Abort, alloc: Global, answer: Result<Value, PasetoClaimError>, json: &str) {
    expect_told(rt, alloc, answer, json, "the value");
}

#[test]
fn texts_and_truths(rt: HostRuntime) {
    let alloc = rt.alloc();
    let text = "Get schwifty";
    check(&rt, alloc, text.to_value(alloc), "\"Get schwifty\"");
    let owned = String::from_str(alloc, "Earth").expect(&rt, "memory");
    check(&rt, alloc, owned.to_value(alloc), "\"Earth\"");
    check(&rt, alloc, true.to_value(alloc), "true");
    check(&rt, alloc, false.to_value(alloc), "false");
}

#[test]
fn numbers(rt: HostRuntime) {
    let alloc = rt.alloc();
    check(&rt, alloc, i8::MIN.to_value(alloc), "-128");
    check(&rt, alloc, i16::MIN.to_value(alloc), "-32768");
    check(&rt, alloc, i32::MIN.to_value(alloc), "-2147483648");
    check(&rt, alloc, i64::MIN.to_value(alloc), "-9223372036854775808");
    check(&rt, alloc, i64::MAX.to_value(alloc), "9223372036854775807");
    check(&rt, alloc, u8::MAX.to_value(alloc), "255");
    check(&rt, alloc, u16::MAX.to_value(alloc), "65535");
    check(&rt, alloc, u32::MAX.to_value(alloc), "4294967295");
    check(&rt, alloc, u64::MAX.to_value(alloc), "18446744073709551615");
}

#[test]
fn json_values(rt: HostRuntime) {
    let alloc = rt.alloc();
    'texts: for text in ["{\"a\":[1,{\"b\":null}],\"c\":\"d\"}", "3.5"] {
        let value = value_of(&rt, alloc, text);
        check(&rt, alloc, value.to_value(alloc), text);
        drop(value);
    }
}
