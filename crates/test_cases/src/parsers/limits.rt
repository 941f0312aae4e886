//! Limits on how long a token may be.

use crate::expect::{expect_outcome, expect_same, expect_shown, expect_that};
use crate::kinds::{Binding, KINDS, Kind};
use crate::parsers::kinds::Expected;
use rusty_paseto_core::{Local, V4};
use rusty_paseto_generic::{Blame, GenericParser};
use std::alloc::Global;
use std::process::Abort;

const TOO_LONG: &str = "CipherError { source: TooLong }";

const SIZE: &str = "CipherError { source: IncorrectSize }";

// What a parser with the limit answers for a text.
fn check(rt: &impl Abort, alloc: Global, kind: Kind, text: &str, limit: usize, wanted: &str) {
    let answer = kind.parse(rt, alloc, text, Expected::within(limit));
    expect_outcome(rt, alloc, answer, wanted, (kind, limit));
}

// A token of as many bytes as the limit is parsed, and one of a byte more is refused.
#[test]
fn a_token_at_its_limit(rt: HostRuntime) {
    let alloc = rt.alloc();
    'kinds: for &kind in KINDS {
        let token = kind.token(&rt, alloc, "{}", Binding::NONE);
        let (token, length) = (token.as_str(), token.len());
        check(&rt, alloc, kind, token, length, "Ok");
        let less = length.saturating_sub(1);
        check(&rt, alloc, kind, token, less, TOO_LONG);
    }
}

// The length is looked at before the sections.
#[test]
fn the_length_comes_first(rt: HostRuntime) {
    let alloc = rt.alloc();
    'kinds: for &kind in KINDS {
        check(&rt, alloc, kind, "v4.local", 7, TOO_LONG);
        check(&rt, alloc, kind, "v4.local", 8, SIZE);
    }
}

fn check_limit(rt: &impl Abort, parser: &GenericParser<'_, V4, Local>, limit: Option<usize>) {
    expect_that(rt, parser.longest() == limit, "the limit");
}

#[test]
fn the_limit_is_told(rt: HostRuntime) {
    let mut parser = GenericParser::<V4, Local>::new(rt.alloc());
    check_limit(&rt, &parser, None);
    parser.set_longest(5);
    parser.set_longest(6);
    check_limit(&rt, &parser, Some(6));
}

#[test]
fn the_refusal_tells_its_cause(rt: HostRuntime) {
    let answer = Kind::V4Local.parse(&rt, rt.alloc(), "v4", Expected::within(0));
    let refusal = answer.err().expect(&rt, "a refusal");
    expect_same(&rt, refusal.blame(), Blame::Foreign, "the blame");
    expect_shown(
        &rt,
        rt.alloc(),
        &refusal.explained(),
        "A paseto cipher error occurred: The token or its footer is longer than allowed",
    );
    drop(refusal);
}
