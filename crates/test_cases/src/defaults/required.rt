//! Claims that a parser requires, and clocks that differ.

use crate::claims::json::value_of;
use crate::defaults::kinds::{default_parser, moment_after};
use crate::expect::{OK, expect_refusal, expect_refusal_or_ok, expect_told};
use crate::kinds::{Binding, Kind, SECRET, symmetric_key};
use rusty_paseto::prelude::{AudienceClaim, CheckSetter, GenericParser, Local, PasetoParser, V4};
use std::alloc::Global;
use std::process::Abort;

// A parser that checks the times at so many seconds after the first of 2024.
fn parser_after<'a>(rt: &impl Abort, alloc: Global, seconds: i64) -> GenericParser<'a, V4, Local> {
    let mut parser = GenericParser::new(alloc);
    let now = moment_after(rt, i128::from(seconds) * 1_000_000_000);
    parser.put_times(now).expect(rt, "the times");
    parser
}

// What the parser answers for the claims: the JSON of their values, or the error's text.
fn expect_value(
    rt: &impl Abort,
    alloc: Global,
    parser: &GenericParser<'_, V4, Local>,
    claims: &str,
    wanted: &str,
) {
    expect_told(rt, alloc, parser.value_of(claims), wanted, claims);
}

const EXP: &str = "{\"exp\":\"2024-01-01T00:00:00Z\"}";

const NBF: &str = "{\"nbf\":\"2024-01-01T00:00:00Z\"}";

const EXPIRED: &str = "This token is expired";

const EARLY: &str = "The token cannot be used before 2024-01-01T00:00:00Z";

// The audience `customers` is checked.
fn put_audience(rt: &impl Abort, parser: &mut GenericParser<'_, V4, Local>) {
    let audience = AudienceClaim::from("customers");
    parser.put_check(&audience).expect(rt, "a check");
}

// The moment, the leeway, the claims, and what is answered.
const LEEWAYS: &[(i64, u32, &str, &str)] = &[
    (0, 0, EXP, EXPIRED),
    (-1, 0, EXP, EXP),
    (0, 5, EXP, EXP),
    (4, 5, EXP, EXP),
    (5, 5, EXP, EXPIRED),
    (4, 4, EXP, EXPIRED),
    (0, 0, NBF, EARLY),
    (1, 0, NBF, NBF),
    (0, 5, NBF, NBF),
    (-4, 5, NBF, NBF),
    (-5, 5, NBF, EARLY),
    (-4, 4, NBF, EARLY),
    (1_000_000, u32::MAX, EXP, EXP),
    (-1_000_000, u32::MAX, NBF, NBF),
];

#[test]
fn a_leeway_moves_both_moments_apart(rt: HostRuntime) {
    let alloc = rt.alloc();
    'rows: for &(seconds, leeway, claims, expected) in LEEWAYS {
        let mut parser = parser_after(&rt, alloc, seconds);
        parser.set_leeway(leeway);
        expect_value(&rt, alloc, &parser, claims, expected);
    }
}

const MISSING: &str = "The expected claim 'exp' was not found in the payload";

const LATER: &str = "{\"exp\":\"2024-01-01T00:00:01Z\"}";

// Claims that a parser reads at the first of 2024, and what it answers where `exp` is required.
const REQUIRED: &[(&str, &str)] = &[
    (LATER, LATER),
    ("{\"exp\":null}", MISSING),
    ("{}", MISSING),
    ("[\"exp\"]", MISSING),
    (
        "{\"exp\":5}",
        "Could not convert claim 'exp' to the expected data type",
    ),
    (EXP, EXPIRED),
    // The audience is checked first, since its key comes first.
    (
        "{\"aud\":\"others\"}",
        "The claim 'aud' failed validation.  Expected 'others' but received 'customers'",
    ),
    ("{\"aud\":\"customers\"}", MISSING),
];

#[test]
fn a_required_claim_is_there_and_not_null(rt: HostRuntime) {
    let alloc = rt.alloc();
    'rows: for &(claims, expected) in REQUIRED {
        let mut parser = parser_after(&rt, alloc, 0);
        parser.put_required("exp").expect(&rt, "a requirement");
        if claims.contains("aud") {
            put_audience(&rt, &mut parser);
        }
        expect_value(&rt, alloc, &parser, claims, expected);
    }
}

// A requirement keeps what is checked under its key, and comes before it.
#[test]
fn a_requirement_keeps_the_check(rt: HostRuntime) {
    let alloc = rt.alloc();
    let mut parser = GenericParser::<V4, Local>::new(alloc);
    put_audience(&rt, &mut parser);
    parser.put_required("aud").expect(&rt, "a requirement");
    let invalid = "The claim 'aud' failed validation.  Expected 'others' but received 'customers'";
    expect_value(&rt, alloc, &parser, "{\"aud\":\"others\"}", invalid);
    let missing = "The expected claim 'aud' was not found in the payload";
    expect_value(&rt, alloc, &parser, "{\"aud\":null}", missing);
}

#[test]
fn a_default_parser_requires_and_allows_the_same(rt: HostRuntime) {
    let alloc = rt.alloc();
    let key = symmetric_key(&SECRET);
    let token = Kind::V4Local.token(&rt, alloc, EXP, Binding::NONE);
    let now = moment_after(&rt, 1_000_000_000);
    let mut parser = default_parser::<V4, Local>(&rt, alloc, now);
    parser.put_required("sub").expect(&rt, "a requirement");
    expect_refusal(&rt, alloc, parser.parse(token.as_str(), &key), EXPIRED);
    parser.set_leeway(2);
    let missing = "The expected claim 'sub' was not found in the payload";
    expect_refusal(&rt, alloc, parser.parse(token.as_str(), &key), missing);
}

// The claims, and what a check of their value answers at the first moment of 2024.
const CHECKED: &[(&str, &str)] = &[
    ("{\"exp\":\"2024-01-01T00:00:01Z\"}", OK),
    (EXP, EXPIRED),
    (NBF, EARLY),
    ("{}", OK),
    ("null", OK),
];

#[test]
fn a_value_is_checked(rt: HostRuntime) {
    let (alloc, now) = (rt.alloc(), moment_after(&rt, 0));
    let generic = parser_after(&rt, alloc, 0);
    let parser = PasetoParser::<V4, Local>::default(alloc, now).expect(&rt, "a parser");
    'rows: for &(claims, refusal) in CHECKED {
        let value = value_of(&rt, alloc, claims);
        expect_refusal_or_ok(&rt, alloc, generic.check(&value), refusal, claims);
        expect_refusal_or_ok(&rt, alloc, parser.check(&value), refusal, claims);
        drop(value);
    }
}
