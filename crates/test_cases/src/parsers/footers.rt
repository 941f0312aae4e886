//! Parsers that expect a footer and an implicit assertion.

use crate::expect::expect_text;
use crate::kinds::{Binding, Kind};
use crate::parsers::kinds::Expected;
use rusty_paseto_core::{Footer, ImplicitAssertion, Local, V4};
use rusty_paseto_generic::GenericParser;
use std::process::Abort;

const FIRST: Binding<'static> = Binding {
    footer: Some("key-1"),
    assertion: None,
};

const SECOND: Binding<'static> = Binding {
    footer: Some("key-2"),
    assertion: None,
};

const ASSERTED: Binding<'static> = Binding {
    footer: None,
    assertion: Some("more"),
};

const CRYPTION: &str = "An unspecified cryption error occured";

const SIGNATURE: &str = "The token signature could not be verified";

// What a parser that expects no implicit assertion tells of a token that was made for one. The versions
// 1 and 2 have none.
const UNASSERTED: &[(Kind, &str)] = &[
    (Kind::V1Local, "{}"),
    (Kind::V2Local, "{}"),
    (Kind::V3Local, CRYPTION),
    (Kind::V4Local, CRYPTION),
    (Kind::V1Public, "{}"),
    (Kind::V2Public, "{}"),
    (Kind::V3Public, SIGNATURE),
    (Kind::V4Public, SIGNATURE),
];

#[test]
fn of_every_kind(rt: HostRuntime) {
    let alloc = rt.alloc();
    let first = Expected::bound(FIRST);
    let second = Expected::bound(SECOND);
    let asserted = Expected::bound(ASSERTED);
    let none = Expected::bound(Binding::NONE);
    let other_footer = "The provided footer is invalid";
    let sections = "This string has an incorrect number of parts and cannot be parsed into a token";
    'kinds: for &(kind, unasserted) in UNASSERTED {
        kind.check(&rt, alloc, "{}", FIRST, first, "{}");
        kind.check(&rt, alloc, "{}", FIRST, second, other_footer);
        kind.check(&rt, alloc, "{}", ASSERTED, asserted, "{}");
        kind.check(&rt, alloc, "{}", ASSERTED, none, unasserted);
        kind.check_token(&rt, alloc, "a.b", none, sections);
        let header = "The token header is invalid";
        kind.check_token(&rt, alloc, "v5.local.AAAA", none, header);
    }
}

// The parser has this footer and this implicit assertion.
fn check_set(
    rt: &impl Abort,
    parser: &GenericParser<'_, V4, Local>,
    footer: &str,
    assertion: &str,
) {
    expect_text(rt, parser.get_footer().as_str(), footer);
    expect_text(rt, parser.get_implicit_assertion().as_str(), assertion);
}

#[test]
fn what_was_set_last(rt: HostRuntime) {
    let mut parser = GenericParser::<V4, Local>::new(rt.alloc());
    check_set(&rt, &parser, "", "");
    parser.set_footer(Footer::from("key-1"));
    parser.set_implicit_assertion(ImplicitAssertion::from("more"));
    parser.set_footer(Footer::from("key-2"));
    check_set(&rt, &parser, "key-2", "more");
}
