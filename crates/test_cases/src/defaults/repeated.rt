//! Keys that are set again, claims that are refused, and builders that are used again.

use crate::defaults::claims::{Claim, set};
use crate::defaults::kinds::{Token, default_builder, moment_after};
use crate::defaults::rows::{NONE, USUAL};
use crate::expect::{expect_outcome, expect_refusal, expect_same, expect_text, expect_that, shown};
use crate::kinds::{Binding, KINDS, Kind, SECRET, symmetric_key};
use crate::parsers::steps::custom;
use rand_core::TryRng;
use rusty_paseto::CountingSetter;
use rusty_paseto::prelude::{
    GenericBuilderError, Local, PasetoBuilder, Public, PurposeTrait, V4, VersionTrait,
};
use std::alloc::Global;
use std::process::Abort;
use test_toys::ToyV4;
use test_toys::counting::{Calls, Counting};
use test_toys::generators::{Failing, Zeros};
use test_toys::keys::{Keys, ToyVersion};

const ISSUED: Claim<'static> = Claim::IssuedAt("2019-01-01T00:00:00+00:00");

const AUDIENCE: Claim<'static> = Claim::Audience("customers");

const EXPIRATION: Claim<'static> = Claim::Expiration("2050-01-01T00:00:00+00:00");

const EMPTY: Claim<'static> = Claim::Custom("", "1");

const REPEATED_ISSUED: &str =
    "The claim 'iat' appears more than once in the top level payload json";

const REPEATED_AUDIENCE: &str =
    "The claim 'aud' appears more than once in the top level payload json";

const ENDLESS: &str = "{\"iat\":\"2024-01-01T00:00:00Z\",\"nbf\":\"2024-01-01T00:00:00Z\"}";

// What a default builder is told to set, and the payload that is built, or the error's text.
const ROWS: &[(&[Claim<'static>], &str)] = &[
    (NONE, USUAL),
    (&[ISSUED, ISSUED], REPEATED_ISSUED),
    (&[ISSUED, ISSUED, AUDIENCE, AUDIENCE], REPEATED_AUDIENCE),
    (&[AUDIENCE, AUDIENCE, ISSUED], REPEATED_AUDIENCE),
    (
        &[EMPTY, EMPTY],
        "The claim '' appears more than once in the top level payload json",
    ),
    (
        &[Claim::NoExpiration, EXPIRATION],
        "The claim 'exp' appears more than once in the top level payload json",
    ),
    (&[Claim::NoExpiration], ENDLESS),
    (&[EXPIRATION, Claim::NoExpiration], ENDLESS),
    (&[Claim::NoExpiration, Claim::NoExpiration], ENDLESS),
];

fn payload_of(rt: &impl Abort, alloc: Global, kind: Kind, token: &str) -> String {
    kind.read(alloc, token, Binding::NONE)
        .expect(rt, "a payload")
}

// The payload of a token that was built, or the error's text.
fn written(rt: &impl Abort, alloc: Global, kind: Kind, built: Token) -> String {
    match built {
        Ok(token) => payload_of(rt, alloc, kind, token.as_str()),
        Err(error) => {
            let text = shown(rt, alloc, &error);
            drop(error);
            text
        }
    }
}

fn check_built(rt: &impl Abort, alloc: Global, claims: &[Claim<'_>], wanted: &str) {
    let now = moment_after(rt, 0);
    'kinds: for &kind in KINDS {
        let built = kind.build_default(rt, alloc, now, claims, Binding::NONE);
        let found = written(rt, alloc, kind, built);
        expect_same(rt, found.as_str(), &wanted, &kind);
    }
}

#[test]
fn keys_that_are_set_again(rt: HostRuntime) {
    'rows: for &(claims, wanted) in ROWS {
        check_built(&rt, rt.alloc(), claims, wanted);
    }
}

type LocalBuilder<'a> = PasetoBuilder<'a, V4, Local>;

fn build<R: TryRng>(builder: &LocalBuilder<'_>, generator: &mut R) -> Token {
    builder.build(generator, &symmetric_key(&SECRET))
}

fn check_local(rt: &impl Abort, alloc: Global, builder: &LocalBuilder<'_>, payload: &str) {
    let found = written(rt, alloc, Kind::V4Local, build(builder, &mut Zeros));
    expect_text(rt, found.as_str(), payload);
    let claims = builder.build_payload_from_claims().expect(rt, "a payload");
    expect_text(rt, claims.as_str(), payload);
}

const SEATS: &str = "{\"exp\":\"2024-01-01T01:00:00Z\",\"iat\":\"2024-01-01T00:00:00Z\",\
    \"nbf\":\"2024-01-01T00:00:00Z\",\"seats\":4}";

fn put_seats(
    rt: &impl Abort,
    alloc: Global,
    builder: &mut LocalBuilder<'_>,
    json: &str,
) -> Result<(), GenericBuilderError> {
    builder.put_claim(&custom(rt, alloc, "seats", json))
}

#[test]
fn a_claim_that_is_refused(rt: HostRuntime) {
    let alloc = rt.alloc();
    let mut builder: LocalBuilder<'_> = default_builder(&rt, alloc, moment_after(&rt, 0));
    let answer = put_seats(&rt, alloc, &mut builder, "3.5");
    let wanted = "ClaimError { source: Unexpected(\"seats\") }";
    expect_outcome(&rt, alloc, answer, wanted, "a fraction");
    put_seats(&rt, alloc, &mut builder, "4").expect(&rt, "a claim");
    check_local(&rt, alloc, &builder, SEATS);
    drop(builder);
}

#[test]
fn built_again(rt: HostRuntime) {
    let alloc = rt.alloc();
    let builder: LocalBuilder<'_> = default_builder(&rt, alloc, moment_after(&rt, 0));
    let answer = build(&builder, &mut Failing { asked: 0 });
    let wanted = "CipherError { source: Cipher }";
    expect_outcome(&rt, alloc, answer, wanted, "the generator");
    check_local(&rt, alloc, &builder, USUAL);
    check_local(&rt, alloc, &builder, USUAL);
    drop(builder);
}

// A default builder with a key that was set again.
fn refused_builder<'a, V: VersionTrait, P: PurposeTrait>(
    rt: &impl Abort,
    alloc: Global,
) -> PasetoBuilder<'a, V, P> {
    let mut builder = default_builder(rt, alloc, moment_after(rt, 0));
    set(rt, &mut builder, alloc, AUDIENCE);
    set(rt, &mut builder, alloc, AUDIENCE);
    builder
}

#[test]
fn no_nonce_is_asked_for_a_key_that_was_set_again(rt: HostRuntime) {
    let builder: LocalBuilder<'_> = refused_builder(&rt, rt.alloc());
    let mut failing = Failing { asked: 0 };
    let answer = build(&builder, &mut failing);
    expect_refusal(&rt, rt.alloc(), answer, REPEATED_AUDIENCE);
    expect_that(&rt, failing.asked == 0, "the generator");
    let answer = builder.build_payload_from_claims();
    expect_refusal(&rt, rt.alloc(), answer, REPEATED_AUDIENCE);
    drop(builder);
}

fn sign(builder: &PasetoBuilder<'_, V4, Public>, scheme: &mut Counting<ToyV4>) -> Token {
    let keys = Keys::of(&SECRET);
    builder.build(scheme, &V4::private_key(&keys))
}

#[test]
fn no_scheme_is_asked_for_a_key_that_was_set_again(rt: HostRuntime) {
    let builder = refused_builder(&rt, rt.alloc());
    let mut scheme = Counting::new(ToyV4);
    let answer = sign(&builder, &mut scheme);
    expect_refusal(&rt, rt.alloc(), answer, REPEATED_AUDIENCE);
    expect_that(&rt, scheme.calls() == Calls::NONE, "the scheme");
    drop(builder);
}
