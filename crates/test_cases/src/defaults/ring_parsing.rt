//! Rings that check claims, and what a ring is operated with.

use crate::defaults::claims::{Claim, check};
use crate::defaults::key_rings::put_key;
use crate::defaults::kinds::default_parser;
use crate::expect::{expect_bytes, expect_outcome, expect_same, expect_text, expect_that};
use crate::kinds::{Binding, Kind, SECRET, symmetric_key};
use jiff::Timestamp;
use rusty_paseto::prelude::{
    DefaultLocalVersion, Footer, GenericParser, ImplicitAssertion, KeyRing, KeyRingParserError,
    Local, PasetoParser, PurposeTrait, V1, V3, V4, VersionTrait,
};
use serde_json::Value;
use std::alloc::Global;
use std::process::Abort;

/// The footer that names the key `k1`.
pub(crate) const FOOTER: &str = "{\"kid\":\"k1\"}";

/// The claims of the tokens.
pub(crate) const CLAIMS: &str = "{\"aud\":\"customers\",\"exp\":\"2030-01-01T00:00:00Z\"}";

/// What is told of them: the key's id, and the claims.
pub(crate) const PARSED: &str = "k1 {\"aud\":\"customers\",\"exp\":\"2030-01-01T00:00:00Z\"}";

/// What a ring answers.
pub(crate) type Answer = Result<(String, Value), KeyRingParserError>;

/// A default parser's moment, audience and footer, the payload of a token that it is given, and what is told.
#[derive(Clone, Copy)]
pub(crate) struct Row {
    second: i64,
    audience: Option<&'static str>,
    footer: Option<&'static str>,
    pub(crate) payload: &'static str,
    pub(crate) told: &'static str,
}

// At the first of 2025.
const EARLY: Row = Row {
    second: 1_735_689_600,
    audience: None,
    footer: None,
    payload: CLAIMS,
    told: PARSED,
};

// At the first of 2031.
const LATE: Row = Row {
    second: 1_924_992_000,
    told: "This token is expired",
    ..EARLY
};

/// Claims that pass, expired ones, a text that is no JSON, another audience, and another footer.
pub(crate) const ROWS: &[Row] = &[
    EARLY,
    LATE,
    Row {
        payload: "{",
        told: "The payload was unable to be serialized into json",
        ..EARLY
    },
    Row {
        payload: "{",
        told: "The payload was unable to be serialized into json",
        ..LATE
    },
    Row {
        audience: Some("others"),
        told: "The claim 'aud' failed validation.  Expected 'customers' but received 'others'",
        ..EARLY
    },
    Row {
        audience: Some("others"),
        footer: Some("{\"kid\": \"k1\"}"),
        told: "The provided footer is invalid",
        ..EARLY
    },
    Row {
        footer: Some("{\"kid\": \"k1\"}"),
        told: "The provided footer is invalid",
        ..LATE
    },
];

/// The row's parser.
pub(crate) fn parser_of<'a, V: VersionTrait, P: PurposeTrait>(
    rt: &impl Abort,
    alloc: Global,
    row: Row,
) -> PasetoParser<'a, V, P> {
    let now = Timestamp::from_second(row.second).expect(rt, "a moment");
    let mut parser = default_parser::<V, P>(rt, alloc, now);
    if let Some(audience) = row.audience {
        check(rt, &mut parser, alloc, Claim::Audience(audience));
    }
    if let Some(footer) = row.footer {
        parser.set_footer(Footer::from(footer));
    }
    parser
}

/// A token of the payload, whose footer names `k1`.
pub(crate) fn token_of(rt: &impl Abort, alloc: Global, kind: Kind, payload: &str) -> String {
    let answer = kind.make(alloc, payload, Binding::of_footer(Some(FOOTER)));
    answer.expect(rt, "a token")
}

/// The answer tells this: the id and the claims, or the text of the error.
pub(crate) fn expect_claims(rt: &impl Abort, alloc: Global, answer: Answer, wanted: &str) {
    let told = match &answer {
        Ok((id, value)) => format!(in alloc; "{id} {value}"),
        Err(error) => format!(in alloc; "{error}"),
    };
    drop(answer);
    expect_text(rt, told.expect(rt, "memory").as_str(), wanted);
}

// A ring with the secret's key as `k1`, and a key of zeros as `k2`.
fn ring_of<V: DefaultLocalVersion>(rt: &impl Abort, alloc: Global) -> KeyRing<V> {
    let mut ring = KeyRing::<V>::new(alloc);
    put_key(rt, &mut ring, "k2", symmetric_key(&[0; 64]));
    put_key(rt, &mut ring, "k1", symmetric_key(&SECRET));
    ring
}

fn check_version<V: DefaultLocalVersion>(rt: &impl Abort, alloc: Global, kind: Kind) {
    let ring = ring_of::<V>(rt, alloc);
    'rows: for &row in ROWS {
        let token = token_of(rt, alloc, kind, row.payload);
        let parser = parser_of::<V, Local>(rt, alloc, row);
        expect_claims(rt, alloc, ring.parse(&parser, token.as_str()), row.told);
    }
    drop(ring);
}

#[test]
fn claims_are_checked(rt: HostRuntime) {
    check_version::<V1>(&rt, rt.alloc(), Kind::V1Local);
    check_version::<V3>(&rt, rt.alloc(), Kind::V3Local);
    check_version::<V4>(&rt, rt.alloc(), Kind::V4Local);
}

fn parsed_by(ring: &KeyRing<V4>, parser: &GenericParser<'_, V4, Local>, token: &str) -> Answer {
    ring.parse_by(parser, token)
}

// The parser's own footer and assertion, and a generic parser, which checks no times.
#[test]
fn the_parsers_binding(rt: HostRuntime) {
    let alloc = rt.alloc();
    let binding = Binding {
        footer: Some(FOOTER),
        assertion: Some("a"),
    };
    let token = Kind::V4Local.token(&rt, alloc, CLAIMS, binding);
    let ring = ring_of::<V4>(&rt, alloc);
    let mut parser = GenericParser::<V4, Local>::new(alloc);
    parser.set_footer(Footer::from(FOOTER));
    let answer = parsed_by(&ring, &parser, token.as_str());
    expect_outcome(&rt, alloc, answer, "Ring(Token(Cryption))", "no assertion");
    parser.set_implicit_assertion(ImplicitAssertion::from("a"));
    let answer = parsed_by(&ring, &parser, token.as_str());
    expect_claims(&rt, alloc, answer, PARSED);
    drop(ring);
}

// The ids in their order, and how many there are.
fn check_ids<V: DefaultLocalVersion>(rt: &impl Abort, ring: &KeyRing<V>, expected: &[&str]) {
    expect_same(rt, &ring.len(), &expected.len(), "the answer");
    let mut ids = ring.ids();
    'ids: for &id in expected {
        let found = ids.next().expect(rt, "an id");
        expect_text(rt, found.as_str(), id);
    }
}

// What the ring answers that is asked for the key of the id `k2`.
fn expect_second(rt: &impl Abort, alloc: Global, ring: &KeyRing<V4>, wanted: &str) {
    let answer = ring.key_of("{\"kid\":\"k2\"}");
    expect_outcome(rt, alloc, answer, wanted, "k2");
}

#[test]
fn keys_come_and_go(rt: HostRuntime) {
    let alloc = rt.alloc();
    let mut ring = ring_of::<V4>(&rt, alloc);
    check_ids(&rt, &ring, &["k1", "k2"]);
    let first = ring.key("k1").expect(&rt, "a key");
    expect_bytes(&rt, first.as_bytes().as_slice(), &SECRET[..32]);
    expect_that(&rt, ring.key("k3").is_none(), "the answer");
    expect_second(&rt, alloc, &ring, "Ok");
    expect_that(&rt, ring.remove("k2") && !ring.remove("k2"), "the answer");
    check_ids(&rt, &ring, &["k1"]);
    expect_second(&rt, alloc, &ring, "UnknownKey(\"k2\")");
    drop(ring);
}
