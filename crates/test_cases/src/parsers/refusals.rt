//! What parsers refuse to store, and that they are then unchanged.

use crate::claims::json::value_of;
use crate::expect::expect_outcome;
use crate::kinds::{Binding, Kind, SECRET, symmetric_key};
use crate::parsers::steps::{Rule, Step, add, custom, map_of, values_of};
use rusty_paseto_core::{Local, V4};
use rusty_paseto_generic::{CheckSetter, GenericParser, GenericParserError};
use serde_json::Value;
use std::alloc::Global;
use std::collections::BTreeMap;
use std::process::Abort;

type Parser<'a> = GenericParser<'a, V4, Local>;

// What the parser answers for these claims.
fn parsed(
    rt: &impl Abort,
    alloc: Global,
    parser: &Parser<'_>,
    payload: &str,
) -> Result<(), GenericParserError> {
    let token = Kind::V4Local.token(rt, alloc, payload, Binding::NONE);
    parser
        .parse(token.as_str(), &symmetric_key(&SECRET))
        .map(drop)
}

// The value under the key was refused for its numbers.
fn expect_unexpected(
    rt: &impl Abort,
    alloc: Global,
    answer: Result<(), GenericParserError>,
    key: &str,
) {
    let wanted = format!(in alloc; "ClaimError {{ source: Unexpected({key:?}) }}");
    expect_outcome(rt, alloc, answer, wanted.expect(rt, "memory").as_str(), key);
}

// The parser reads the claims.
fn expect_parsed(rt: &impl Abort, alloc: Global, parser: &Parser<'_>, payload: &str) {
    parsed(rt, alloc, parser, payload).expect(rt, payload);
}

#[test]
fn other_numbers(rt: HostRuntime) {
    let (alloc, odd) = (rt.alloc(), "[1,{\"a\":1.0}]");
    let mut parser = Parser::new(alloc);
    add(&rt, &mut parser, alloc, Step::Check("n", "4")).expect(&rt, "a check");
    let checked = add(&rt, &mut parser, alloc, Step::Check("n", odd));
    expect_unexpected(&rt, alloc, checked, "n");
    let validated = add(
        &rt,
        &mut parser,
        alloc,
        Step::Checker("n", odd, Rule::Tells),
    );
    expect_unexpected(&rt, alloc, validated, "n");
    let expected = add(&rt, &mut parser, alloc, Step::Expected("n", odd));
    expect_unexpected(&rt, alloc, expected, "n");
    expect_parsed(&rt, alloc, &parser, "{\"n\":4}");
}

// A whole number, and two that are none.
fn fractions(rt: &impl Abort, alloc: Global) -> BTreeMap<String, Value> {
    values_of(rt, alloc, &[("a", "1"), ("b", "3.5"), ("c", "4.5")])
}

#[test]
fn all_values_or_none(rt: HostRuntime) {
    let alloc = rt.alloc();
    let mut parser = Parser::new(alloc);
    let answer = parser.put_checks(fractions(&rt, alloc));
    expect_unexpected(&rt, alloc, answer, "b");
    expect_parsed(&rt, alloc, &parser, "{}");
    let answer = parser.extend_check_claims(fractions(&rt, alloc)).map(drop);
    expect_unexpected(&rt, alloc, answer, "b");
    expect_parsed(&rt, alloc, &parser, "{}");
}

fn chain_of_claims<'p, 'a>(
    rt: &impl Abort,
    alloc: Global,
    parser: &'p mut Parser<'a>,
) -> &'p mut Parser<'a> {
    let accepts = Rule::Accepts.boxed(rt, alloc);
    parser
        .check_claim(&custom(rt, alloc, "a", "1"))
        .expect(rt, "a check")
        .validate_claim(&custom(rt, alloc, "b", "2"), accepts)
        .expect(rt, "a validator")
}

fn chain_of_maps<'p, 'a>(
    rt: &impl Abort,
    alloc: Global,
    parser: &'p mut Parser<'a>,
) -> &'p mut Parser<'a> {
    let four = map_of(rt, alloc, "d", value_of(rt, alloc, "{\"d\":4}"));
    let checked = map_of(rt, alloc, "a", Rule::Accepts.boxed(rt, alloc));
    parser
        .extend_check_claims(four)
        .expect(rt, "checks")
        .extend_validation_claims(checked)
        .expect(rt, "validators")
}

// The calls that lend the parser back make the same edits.
#[test]
fn chains_of_calls(rt: HostRuntime) {
    let alloc = rt.alloc();
    let mut parser = Parser::new(alloc);
    let lent = chain_of_claims(&rt, alloc, &mut parser);
    let lent = chain_of_maps(&rt, alloc, lent);
    expect_parsed(&rt, alloc, lent, "{\"a\":0,\"b\":0,\"d\":4}");
    let answer = parsed(&rt, alloc, lent, "{\"d\":5}");
    expect_unexpected(&rt, alloc, answer, "d");
}
