//! How deep a payload may be nested.

use crate::expect::{expect_shown, expect_told};
use crate::kinds::{Binding, KINDS, SECRET, symmetric_key};
use crate::parsers::kinds::{Answer, Expected};
use crate::parsers::steps::custom;
use rusty_paseto_core::{Local, V4};
use rusty_paseto_generic::{ClaimSetter, GenericBuilder, GenericParser};
use std::alloc::Global;
use std::process::Abort;
use test_toys::generators::Zeros;

const UNREAD: &str = "The payload was unable to be serialized into json";

fn push(rt: &impl Abort, text: &mut String, letter: char, times: u8) {
    'times: for _ in 0..times {
        text.push(letter).expect(rt, "memory");
    }
}

// So many arrays, each in the one before it.
fn nested(rt: &impl Abort, alloc: Global, depth: u8) -> String {
    let mut text = String::new(alloc);
    push(rt, &mut text, '[', depth);
    push(rt, &mut text, ']', depth);
    text
}

#[test]
fn at_most_127_deep(rt: HostRuntime) {
    let alloc = rt.alloc();
    let deep = nested(&rt, alloc, 127);
    let too_deep = nested(&rt, alloc, 128);
    let (deep, too_deep) = (deep.as_str(), too_deep.as_str());
    let expected = Expected::bound(Binding::NONE);
    'kinds: for &kind in KINDS {
        kind.check(&rt, alloc, deep, Binding::NONE, expected, deep);
        kind.check(&rt, alloc, too_deep, Binding::NONE, expected, UNREAD);
    }
}

// What is read of a token that was built with this claim `a`.
fn built(rt: &impl Abort, alloc: Global, json: &str) -> Answer {
    let key = symmetric_key(&SECRET);
    let mut builder = GenericBuilder::<V4, Local>::new(alloc);
    builder
        .put_claim(&custom(rt, alloc, "a", json))
        .expect(rt, "a claim");
    let token = builder.try_encrypt(&mut Zeros, &key).expect(rt, "a token");
    drop(builder);
    let parser = GenericParser::<V4, Local>::new(alloc);
    parser.parse(token.as_str(), &key)
}

#[test]
fn a_claim_at_most_126_deep(rt: HostRuntime) {
    let alloc = rt.alloc();
    let deep = nested(&rt, alloc, 126);
    let read = built(&rt, alloc, deep.as_str()).expect(&rt, "a value");
    let found = read.get("a").expect(&rt, "a claim");
    expect_shown(&rt, alloc, found, deep.as_str());
    drop(read);
    let answer = built(&rt, alloc, nested(&rt, alloc, 127).as_str());
    expect_told(&rt, alloc, answer, UNREAD, "a claim 127 deep");
}
