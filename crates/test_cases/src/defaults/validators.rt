//! The validators that stand ready.

use crate::expect::{OK, expect_refusal_or_ok};
use rusty_paseto::prelude::{CheckSetter, GenericParser, Local, V4, ValidatorFn};
use rusty_paseto::validators::{
    AtLeast, AtMost, AtMostCharacters, BeginsWith, Holding, OneOf, Present, Within,
};
use std::alloc::Global;
use std::process::Abort;

type Parser<'a> = GenericParser<'a, V4, Local>;

// What a parser answers for a text as `a`, which the validator checks.
fn check_rows(rt: &impl Abort, alloc: Global, validator: ValidatorFn, rows: &[(&str, &str)]) {
    let mut parser = Parser::new(alloc);
    parser
        .put_key_validator("a", validator)
        .expect(rt, "a validator");
    'rows: for &(value, expected) in rows {
        check_value(rt, alloc, &parser, value, expected);
    }
}

fn check_value(rt: &impl Abort, alloc: Global, parser: &Parser<'_>, value: &str, expected: &str) {
    let text = format!(in alloc; "{{\"a\":{value}}}").expect(rt, "memory");
    expect_refusal_or_ok(rt, alloc, parser.value_of(text.as_str()), expected, value);
}

const MISSING: &str = "The expected claim 'a' was not found in the payload";

const UNFIT: &str = "Could not convert claim 'a' to the expected data type";

const REFUSED: &str = "The claim 'a' failed custom validation";

#[test]
fn present_refuses_null(rt: HostRuntime) {
    let alloc = rt.alloc();
    let rows = &[
        ("null", MISSING),
        ("0", OK),
        ("\"\"", OK),
        ("[]", OK),
        ("false", OK),
    ];
    check_rows(
        &rt,
        alloc,
        Box::new(alloc, Present).expect(&rt, "memory"),
        rows,
    );
}

#[test]
fn numbers_within_bounds(rt: HostRuntime) {
    let alloc = rt.alloc();
    let rows = &[
        ("null", MISSING),
        ("\"8\"", UNFIT),
        ("true", UNFIT),
        ("8", OK),
        ("9", REFUSED),
        ("-9", OK),
        ("18446744073709551615", REFUSED),
    ];
    check_rows(
        &rt,
        alloc,
        Box::new(alloc, AtMost(8)).expect(&rt, "memory"),
        rows,
    );
    let rows = &[
        ("null", MISSING),
        ("[8]", UNFIT),
        ("8", OK),
        ("7", REFUSED),
        ("-9", REFUSED),
        ("18446744073709551615", OK),
    ];
    check_rows(
        &rt,
        alloc,
        Box::new(alloc, AtLeast(8)).expect(&rt, "memory"),
        rows,
    );
    let rows = &[
        ("null", MISSING),
        ("{}", UNFIT),
        ("-2", OK),
        ("3", OK),
        ("-3", REFUSED),
        ("4", REFUSED),
        ("9223372036854775808", REFUSED),
    ];
    let within = Within { least: -2, most: 3 };
    check_rows(
        &rt,
        alloc,
        Box::new(alloc, within).expect(&rt, "memory"),
        rows,
    );
}

#[test]
fn texts_of_several_short_or_with_a_beginning(rt: HostRuntime) {
    let alloc = rt.alloc();
    let rows = &[
        ("null", MISSING),
        ("5", UNFIT),
        ("\"web\"", OK),
        ("\"app\"", OK),
        ("\"we\"", REFUSED),
        ("\"\"", REFUSED),
    ];
    let several = OneOf::new(alloc, &["web", "app"]).expect(&rt, "memory");
    check_rows(
        &rt,
        alloc,
        Box::new(alloc, several).expect(&rt, "memory"),
        rows,
    );
    let rows = &[
        ("null", MISSING),
        ("[]", UNFIT),
        ("\"\"", OK),
        ("\"ä€\u{1f600}\"", OK),
        ("\"abcd\"", REFUSED),
    ];
    check_rows(
        &rt,
        alloc,
        Box::new(alloc, AtMostCharacters(3)).expect(&rt, "memory"),
        rows,
    );
    let rows = &[
        ("null", MISSING),
        ("0", UNFIT),
        ("\"acme-7\"", OK),
        ("\"acme\"", REFUSED),
        ("\"-acme-\"", REFUSED),
    ];
    let beginning = BeginsWith(String::from_str(alloc, "acme-").expect(&rt, "memory"));
    check_rows(
        &rt,
        alloc,
        Box::new(alloc, beginning).expect(&rt, "memory"),
        rows,
    );
}

#[test]
fn lists_that_hold_a_text(rt: HostRuntime) {
    let alloc = rt.alloc();
    let rows = &[
        ("null", MISSING),
        ("\"web\"", UNFIT),
        ("[]", REFUSED),
        ("[\"app\",5,\"web\"]", OK),
        ("[[\"web\"]]", REFUSED),
        ("[\"webs\"]", REFUSED),
    ];
    let held = Holding(String::from_str(alloc, "web").expect(&rt, "memory"));
    check_rows(
        &rt,
        alloc,
        Box::new(alloc, held).expect(&rt, "memory"),
        rows,
    );
}
