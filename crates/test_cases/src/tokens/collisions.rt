//! Tokens that share a nonce and a tag.

use crate::expect::{expect_outcome, expect_that};
use crate::kinds::{Binding, Kind, SECRET, symmetric_key};
use rusty_paseto_core::{
    ImplicitAssertion, Local, LocalVersion, Opening, Paseto, PasetoSymmetricKey, V1, V3, V4,
};
use std::alloc::Global;
use std::process::Abort;

// A token that is to be opened with no footer and no implicit assertion.
fn opening_of<'a, V: LocalVersion>(
    key: &'a PasetoSymmetricKey<V, Local>,
    token: &'a str,
) -> Opening<'a, V> {
    Opening {
        key,
        token,
        footer: None,
        assertion: None,
    }
}

// The openings open, and no two of them share a nonce and a tag for two contents.
fn expect_none<V: LocalVersion>(rt: &impl Abort, alloc: Global, openings: &[Opening<'_, V>]) {
    let found = Paseto::<V, Local>::tag_collision(alloc, openings);
    expect_that(rt, found.expect(rt, "an answer").is_none(), "the answer");
}

// The same of the tokens.
fn expect_none_of<'a, V: LocalVersion>(
    rt: &impl Abort,
    alloc: Global,
    key: &'a PasetoSymmetricKey<V, Local>,
    first: &'a str,
    second: &'a str,
    third: &'a str,
) {
    let openings = [
        opening_of(key, first),
        opening_of(key, second),
        opening_of(key, third),
    ];
    expect_none(rt, alloc, &openings);
}

#[test]
fn none_of_no_tokens(rt: HostRuntime) {
    expect_none::<V1>(&rt, rt.alloc(), &[]);
    expect_none::<V3>(&rt, rt.alloc(), &[]);
    expect_none::<V4>(&rt, rt.alloc(), &[]);
}

// The two forms of one text share a nonce and a tag, and one content.
fn check_forms<V: LocalVersion>(rt: &impl Abort, alloc: Global, kind: Kind) {
    let bare = kind.token(rt, alloc, "", Binding::NONE);
    let section = kind.token(rt, alloc, "", Binding::of_footer(Some("")));
    let other = kind.token(rt, alloc, "a", Binding::NONE);
    let key = symmetric_key::<V>(&SECRET);
    expect_none_of(
        rt,
        alloc,
        &key,
        bare.as_str(),
        section.as_str(),
        other.as_str(),
    );
}

#[test]
fn none_of_two_forms_and_another_text(rt: HostRuntime) {
    check_forms::<V1>(&rt, rt.alloc(), Kind::V1Local);
    check_forms::<V3>(&rt, rt.alloc(), Kind::V3Local);
    check_forms::<V4>(&rt, rt.alloc(), Kind::V4Local);
}

#[test]
fn version_1_has_no_assertion(rt: HostRuntime) {
    let alloc = rt.alloc();
    let token = Kind::V1Local.token(&rt, alloc, "hello", Binding::NONE);
    let key = symmetric_key::<V1>(&SECRET);
    let mut asserting = opening_of(&key, token.as_str());
    asserting.assertion = Some(ImplicitAssertion::from("x"));
    expect_none(&rt, alloc, &[asserting, opening_of(&key, token.as_str())]);
}

#[test]
fn the_first_that_does_not_open(rt: HostRuntime) {
    let alloc = rt.alloc();
    let token = Kind::V4Local.token(&rt, alloc, "hello", Binding::NONE);
    let key = symmetric_key::<V4>(&SECRET);
    let openings = [
        opening_of(&key, token.as_str()),
        opening_of(&key, "v3.local.AAAA"),
        opening_of(&key, "v4.local"),
    ];
    let answer = Paseto::<V4, Local>::tag_collision(alloc, &openings);
    expect_outcome(&rt, alloc, answer, "WrongHeader", "the second");
}

// Openings of one token share a nonce and a tag, and one content.
#[test]
fn none_of_seventy_thousand(rt: HostRuntime) {
    let alloc = rt.alloc();
    let key = symmetric_key::<V4>(&SECRET);
    let token = Kind::V4Local.token(&rt, alloc, "hello", Binding::NONE);
    let mut openings = Vec::new(alloc);
    'openings: for _ in 0..70_000u32 {
        openings
            .push(opening_of::<V4>(&key, token.as_str()))
            .expect(&rt, "memory");
    }
    expect_none(&rt, alloc, &openings);
}
