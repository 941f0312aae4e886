//! The tokens of builders of every kind: the core's tokens of the payload.

use crate::builders::payloads::put;
use crate::expect::{expect_text, expect_that};
use crate::kinds::{ASSERTED_KINDS, Binding, ENDLESS_KINDS, KINDS, Kind, SECRET, symmetric_key};
use rusty_paseto_claims::{AudienceClaim, CustomClaim};
use rusty_paseto_core::{
    Footer, ImplicitAssertion, ImplicitAssertionCapable, Local, Public, PurposeTrait, Signs, V1,
    V2, V3, V4, VersionTrait,
};
use rusty_paseto_generic::{GenericBuilder, GenericLocalVersion};
use std::alloc::Global;
use std::process::Abort;
use test_toys::ToyBox;
use test_toys::generators::Zeros;
use test_toys::keys::{Keys, ToyVersion};
use test_toys::long::{LENGTHS, text_of};

const PAYLOAD: &str = "{\"aud\":\"customers\",\"seats\":4}";

/// A builder of a token for an audience, with the binding's footer.
pub(crate) fn builder_of<'a, V: VersionTrait, P: PurposeTrait>(
    rt: &impl Abort,
    alloc: Global,
    audience: &str,
    binding: Binding<'a>,
) -> GenericBuilder<'a, V, P> {
    let mut builder = GenericBuilder::<V, P>::new(alloc);
    let seats = CustomClaim::try_from_str(alloc, "seats", 4u64).expect(rt, "a claim");
    put(rt, &mut builder, seats);
    put(rt, &mut builder, AudienceClaim::from(audience));
    if let Some(footer) = binding.footer {
        builder.set_footer(Footer::from(footer));
    }
    builder
}

// The same with the binding's implicit assertion.
fn asserted_of<'a, V: ImplicitAssertionCapable, P: PurposeTrait>(
    rt: &impl Abort,
    alloc: Global,
    audience: &str,
    binding: Binding<'a>,
) -> GenericBuilder<'a, V, P> {
    let mut builder = builder_of::<V, P>(rt, alloc, audience, binding);
    if let Some(assertion) = binding.assertion {
        builder.set_implicit_assertion(ImplicitAssertion::from(assertion));
    }
    builder
}

// The tokens under the secret's keys and a nonce of zeros.
fn sealed<V: GenericLocalVersion>(
    rt: &impl Abort,
    builder: GenericBuilder<'_, V, Local>,
) -> String {
    let answer = builder.try_encrypt(&mut Zeros, &symmetric_key(&SECRET));
    drop(builder);
    answer.expect(rt, "a token")
}

fn boxed(rt: &impl Abort, builder: GenericBuilder<'_, V2, Local>) -> String {
    let answer = builder.try_encrypt(&ToyBox, &mut Zeros, &symmetric_key(&SECRET));
    drop(builder);
    answer.expect(rt, "a token")
}

fn signed<V: ToyVersion + Signs<V::Toy>>(
    rt: &impl Abort,
    builder: GenericBuilder<'_, V, Public>,
) -> String {
    let keys = Keys::of(&SECRET);
    let answer = builder.try_sign(&mut V::toy(), &V::private_key(&keys));
    drop(builder);
    answer.expect(rt, "a token")
}

// The token for an audience.
fn token_of(
    rt: &impl Abort,
    kind: Kind,
    alloc: Global,
    audience: &str,
    binding: Binding<'_>,
) -> String {
    match kind {
        Kind::V1Local => sealed::<V1>(rt, builder_of(rt, alloc, audience, binding)),
        Kind::V2Local => boxed(rt, builder_of(rt, alloc, audience, binding)),
        Kind::V3Local => sealed::<V3>(rt, asserted_of(rt, alloc, audience, binding)),
        Kind::V4Local => sealed::<V4>(rt, asserted_of(rt, alloc, audience, binding)),
        Kind::V1Public => signed::<V1>(rt, builder_of(rt, alloc, audience, binding)),
        Kind::V2Public => signed::<V2>(rt, builder_of(rt, alloc, audience, binding)),
        Kind::V3Public => signed::<V3>(rt, asserted_of(rt, alloc, audience, binding)),
        Kind::V4Public => signed::<V4>(rt, asserted_of(rt, alloc, audience, binding)),
    }
}

const FOOTERS: &[Option<&str>] = &[None, Some(""), Some("key-1")];

// In version 2 the generator gives 24 bytes, so that the token is another one than under 32.
fn check_token(rt: &impl Abort, alloc: Global, kind: Kind, binding: Binding<'_>) {
    let token = token_of(rt, kind, alloc, "customers", binding);
    let wanted = kind.token(rt, alloc, PAYLOAD, binding);
    let is_same = token.as_str() == wanted.as_str();
    expect_that(rt, is_same != (kind == Kind::V2Local), &kind);
    kind.check_text(rt, alloc, token.as_str(), binding, PAYLOAD);
}

#[test]
fn the_cores_tokens(rt: HostRuntime) {
    let alloc = rt.alloc();
    'kinds: for &kind in KINDS {
        'footers: for &footer in FOOTERS {
            check_token(&rt, alloc, kind, Binding::of_footer(footer));
        }
    }
}

#[test]
fn with_an_assertion(rt: HostRuntime) {
    let alloc = rt.alloc();
    let binding = Binding {
        footer: Some("key-1"),
        assertion: Some("more"),
    };
    'kinds: for &kind in ASSERTED_KINDS {
        let token = token_of(&rt, kind, alloc, "customers", binding);
        let wanted = kind.token(&rt, alloc, PAYLOAD, binding);
        expect_text(&rt, token.as_str(), wanted.as_str());
        kind.check_refused(
            &rt,
            alloc,
            token.as_str(),
            Binding::of_footer(Some("key-1")),
        );
    }
}

// A token for the audience has it in its payload.
fn check_audience(rt: &impl Abort, alloc: Global, kind: Kind, audience: &str) {
    let payload = format!(in alloc; "{{\"aud\":\"{audience}\",\"seats\":4}}");
    let token = token_of(rt, kind, alloc, audience, Binding::NONE);
    let text = kind.read(alloc, token.as_str(), Binding::NONE);
    let is_same = text.expect(rt, "a text").as_str() == payload.expect(rt, "memory").as_str();
    expect_that(rt, is_same, &kind);
}

// Version 2 is left out, since the toy box has no sealing of long messages.
#[test]
fn of_long_claims(rt: HostRuntime) {
    let alloc = rt.alloc();
    'lengths: for &letters in LENGTHS {
        let audience = text_of(alloc, letters).expect(&rt, "memory");
        'kinds: for &kind in ENDLESS_KINDS {
            check_audience(&rt, alloc, kind, audience.as_str());
        }
    }
}
