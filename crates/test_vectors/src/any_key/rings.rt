//! Rings of keys of any version and type.

use super::refusals::THIRD;
use super::rows::{VERIFIED, WRITTEN};
use super::{half_of, key_of};
use crate::expect::{expect_shown, expect_text};
use crate::paserk::rsa::SECRET;
use paseto_keys::{
    AnyKey, ClaimsBuilder, ClaimsParser, RingError, TokenKey, TokenWriter, admit_by_ring, issue,
};
use rusty_paseto_core::{Footer, ImplicitAssertion};
use rusty_paseto_generic::{AudienceClaim, CheckSetter, ClaimSetter};
use rusty_paseto_paserk::{PaserkType, PaserkVersion};
use serde_json::Value;
use std::alloc::Global;
use std::process::Abort;
use test_toys::generators::Counting;

// The lines of the keys that write the tokens of these tests: four for local tokens, and four private ones.
fn writing_lines() -> [&'static str; 8] {
    [
        WRITTEN[0].0,
        WRITTEN[1].0,
        WRITTEN[2].0,
        WRITTEN[3].0,
        SECRET,
        WRITTEN[4].0,
        WRITTEN[5].0,
        THIRD,
    ]
}

// The key that reads what a key writes.
fn reader_of(rt: &impl Abort, alloc: Global, key: AnyKey) -> AnyKey {
    match key.kind() {
        PaserkType::Secret => half_of(rt, alloc, key),
        _ => key,
    }
}

// A ring of all keys that read what the lines' keys write, behind bytes of version 1 that are no RSA key.
fn ring(rt: &impl Abort, alloc: Global) -> Vec<AnyKey> {
    let other = AnyKey::from_bytes(alloc, PaserkType::Public, PaserkVersion::V1, b"no key");
    let mut keys = Vec::new(alloc);
    keys.push(other.expect(rt, "a key")).expect(rt, "memory");
    'lines: for line in writing_lines() {
        let key = reader_of(rt, alloc, key_of(rt, alloc, line));
        keys.push(key).expect(rt, "memory");
    }
    keys
}

// The footer that names an id.
fn naming(rt: &impl Abort, alloc: Global, id: &str) -> String {
    format!(in alloc; "{{\"kid\":\"{id}\"}}").expect(rt, "a footer")
}

// A token of a claim by a key, with this footer and, where the key takes one, an implicit assertion.
fn issued(rt: &impl Abort, alloc: Global, key: &AnyKey, footer: &str) -> String {
    let mut claims = ClaimsBuilder::new(alloc);
    claims
        .put_claim(&AudienceClaim::from("customers"))
        .expect(rt, "a claim");
    let drawn = key
        .draw(alloc, &mut Counting::new())
        .expect(rt, "random bytes");
    let assertion = key.binds().then(|| ImplicitAssertion::from("bound"));
    let footer = Some(Footer::from(footer));
    let token = issue(alloc, key, &drawn, &claims, footer, assertion);
    drop(claims);
    token.expect(rt, "a token")
}

// What a ring answers for a token, whose footer names an id, that the line's key writes.
fn answer_for(
    rt: &impl Abort,
    alloc: Global,
    line: &str,
    id: &str,
) -> Result<(String, Value), RingError> {
    let key = key_of(rt, alloc, line);
    let token = issued(rt, alloc, &key, naming(rt, alloc, id).as_str());
    let mut parser = ClaimsParser::new(alloc);
    if key.binds() {
        parser.set_implicit_assertion(ImplicitAssertion::from("bound"));
    }
    drop(key);
    let answer = admit_by_ring(alloc, &ring(rt, alloc), &parser, token.as_str());
    drop(parser);
    answer
}

fn id_of(rt: &impl Abort, alloc: Global, key: AnyKey) -> String {
    let id = key.id(alloc).expect(rt, "an id");
    drop(key);
    id
}

fn expect_found(rt: &impl Abort, alloc: Global, line: &str) {
    let id = id_of(rt, alloc, reader_of(rt, alloc, key_of(rt, alloc, line)));
    let (found, value) = answer_for(rt, alloc, line, id.as_str()).expect(rt, "claims");
    expect_text(rt, found.as_str(), id.as_str());
    expect_shown(rt, alloc, &value, "{\"aud\":\"customers\"}");
    drop(value);
}

#[test]
fn rings_read_by_the_key_that_is_named(rt: HostRuntime) {
    'lines: for line in writing_lines() {
        expect_found(&rt, rt.alloc(), line);
    }
}

fn expect_refused(
    rt: &impl Abort,
    alloc: Global,
    answer: Result<(String, Value), RingError>,
    wanted: &str,
) {
    match answer {
        Ok(found) => {
            drop(found);
            assert!(rt; false, "{wanted:?}");
        }
        Err(error) => {
            expect_shown(rt, alloc, &error, wanted);
            drop(error);
        }
    }
}

/// A token, and what is said of it.
const TOKENS: &[(&str, &str)] = &[
    (
        "v4.local",
        "This string has an incorrect number of parts and cannot be parsed into a token",
    ),
    ("v5.local.AAAA", "The token header is invalid"),
    ("v4.secret.AAAA", "The token header is invalid"),
    ("v5.public.AAAA", "The token header is invalid"),
    ("v1.public.AAAA", "The token has no footer"),
    ("v4.local.AAAA", "The token has no footer"),
    ("v4.local.AAAA.A", "A base64 decode error occurred"),
    ("v4.local.AAAA._w", "A Utf8 parsing error occurred"),
    ("v4.local.AAAA.MQ", "The footer is not a JSON object"),
    ("v4.local.AAAA.e30", "The footer names no key"),
    (
        "v4.local.AAAA.eyJraWQiOiJvbGQifQ",
        "The key 'old' is not in the ring",
    ),
];

#[test]
fn rings_refuse_tokens(rt: HostRuntime) {
    let alloc = rt.alloc();
    'tokens: for &(token, wanted) in TOKENS {
        let parser = ClaimsParser::new(alloc);
        let answer = admit_by_ring(alloc, &ring(&rt, alloc), &parser, token);
        drop(parser);
        expect_refused(&rt, alloc, answer, wanted);
    }
}

// A key of the ring under which the token was not written, or which is of another version or type than the token.
#[test]
fn rings_try_no_other_key(rt: HostRuntime) {
    let alloc = rt.alloc();
    let id = id_of(&rt, alloc, key_of(&rt, alloc, VERIFIED[2].0));
    let answer = answer_for(&rt, alloc, WRITTEN[3].0, id.as_str());
    let wanted = format!(in alloc; "The key '{}' is not in the ring", id.as_str());
    expect_refused(&rt, alloc, answer, wanted.expect(&rt, "a text").as_str());
    let id = id_of(&rt, alloc, key_of(&rt, alloc, WRITTEN[3].0));
    let other = "k4.local.AAAAAAAAAAAAAAAAAAAAAAAAAAAAAAAAAAAAAAAAAAA";
    let answer = answer_for(&rt, alloc, other, id.as_str());
    expect_refused(&rt, alloc, answer, "An unspecified cryption error occured");
}

// What a ring answers for a token of version 2 by a parser.
fn answer_by(
    rt: &impl Abort,
    alloc: Global,
    parser: &ClaimsParser<'_>,
) -> Result<(String, Value), RingError> {
    let key = key_of(rt, alloc, WRITTEN[1].0);
    let id = key.id(alloc).expect(rt, "an id");
    let token = issued(rt, alloc, &key, naming(rt, alloc, id.as_str()).as_str());
    drop(key);
    admit_by_ring(alloc, &ring(rt, alloc), parser, token.as_str())
}

// What is said of a token of version 2 by a parser.
fn expect_refused_by(rt: &impl Abort, alloc: Global, parser: ClaimsParser<'_>, wanted: &str) {
    let answer = answer_by(rt, alloc, &parser);
    drop(parser);
    expect_refused(rt, alloc, answer, wanted);
}

// A parser of short tokens.
fn short_parser<'a>(alloc: Global) -> ClaimsParser<'a> {
    let mut parser = ClaimsParser::new(alloc);
    parser.set_longest(100);
    parser
}

#[test]
fn rings_refuse_by_parsers(rt: HostRuntime) {
    let alloc = rt.alloc();
    let wanted = "The token or its footer is longer than allowed";
    expect_refused_by(&rt, alloc, short_parser(alloc), wanted);
    let mut parser = short_parser(alloc);
    parser.set_implicit_assertion(ImplicitAssertion::from("bound"));
    let wanted = "Keys of versions 1 and 2 take no implicit assertion";
    expect_refused_by(&rt, alloc, parser, wanted);
    let mut parser = ClaimsParser::new(alloc);
    parser.set_footer(Footer::from("{}"));
    expect_refused_by(&rt, alloc, parser, "The provided footer is invalid");
    let mut parser = ClaimsParser::new(alloc);
    parser.put_required("sub").expect(&rt, "a check");
    let wanted = "The expected claim 'sub' was not found in the payload";
    expect_refused_by(&rt, alloc, parser, wanted);
}
