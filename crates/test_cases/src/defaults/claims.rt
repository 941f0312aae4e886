//! What default builders are told to set, and default parsers to check.

use crate::parsers::steps::custom;
use rusty_paseto::CountingSetter;
use rusty_paseto::prelude::{
    AudienceClaim, DateClaim, Expiration, IssuedAt, IssuerClaim, NotBefore, PasetoBuilder,
    PasetoClaim, PasetoParser, PurposeTrait, ReservedKey, SubjectClaim, TokenIdentifierClaim,
    VersionTrait,
};
use rusty_paseto_generic::CheckSetter;
use std::alloc::Global;
use std::process::Abort;

/// A claim that is set or checked. The JSON of a caller's own claim is given by its text.
#[derive(Clone, Copy)]
pub(crate) enum Claim<'a> {
    Audience(&'a str),
    Subject(&'a str),
    Issuer(&'a str),
    TokenIdentifier(&'a str),
    IssuedAt(&'a str),
    NotBefore(&'a str),
    Expiration(&'a str),
    /// A claim of a caller's own, of a key and JSON.
    Custom(&'a str, &'a str),
    /// What is built never expires. A parser checks nothing for it.
    NoExpiration,
}

// The claim of an instant.
fn date<K: ReservedKey>(rt: &impl Abort, alloc: Global, text: &str) -> DateClaim<K> {
    DateClaim::try_from_str(alloc, text).expect(rt, "an instant")
}

fn put<V: VersionTrait, P: PurposeTrait, C: PasetoClaim + Drop>(
    rt: &impl Abort,
    builder: &mut PasetoBuilder<'_, V, P>,
    claim: C,
) {
    builder.put_claim(&claim).expect(rt, "a claim");
}

/// Sets the claim.
pub(crate) fn set<V: VersionTrait, P: PurposeTrait>(
    rt: &impl Abort,
    builder: &mut PasetoBuilder<'_, V, P>,
    alloc: Global,
    claim: Claim<'_>,
) {
    match claim {
        Claim::Audience(text) => put(rt, builder, AudienceClaim::from(text)),
        Claim::Subject(text) => put(rt, builder, SubjectClaim::from(text)),
        Claim::Issuer(text) => put(rt, builder, IssuerClaim::from(text)),
        Claim::TokenIdentifier(text) => put(rt, builder, TokenIdentifierClaim::from(text)),
        Claim::IssuedAt(text) => put(rt, builder, date::<IssuedAt>(rt, alloc, text)),
        Claim::NotBefore(text) => put(rt, builder, date::<NotBefore>(rt, alloc, text)),
        Claim::Expiration(text) => put(rt, builder, date::<Expiration>(rt, alloc, text)),
        Claim::Custom(key, json) => put(rt, builder, custom(rt, alloc, key, json)),
        Claim::NoExpiration => builder
            .put_no_expiration_danger_acknowledged()
            .expect(rt, "memory"),
    }
}

fn put_check<V: VersionTrait, P: PurposeTrait, C: PasetoClaim + Drop>(
    rt: &impl Abort,
    parser: &mut PasetoParser<'_, V, P>,
    claim: C,
) {
    parser.put_check(&claim).expect(rt, "a check");
}

/// Checks the claim.
pub(crate) fn check<V: VersionTrait, P: PurposeTrait>(
    rt: &impl Abort,
    parser: &mut PasetoParser<'_, V, P>,
    alloc: Global,
    claim: Claim<'_>,
) {
    match claim {
        Claim::Audience(text) => put_check(rt, parser, AudienceClaim::from(text)),
        Claim::Subject(text) => put_check(rt, parser, SubjectClaim::from(text)),
        Claim::Issuer(text) => put_check(rt, parser, IssuerClaim::from(text)),
        Claim::TokenIdentifier(text) => put_check(rt, parser, TokenIdentifierClaim::from(text)),
        Claim::IssuedAt(text) => put_check(rt, parser, date::<IssuedAt>(rt, alloc, text)),
        Claim::NotBefore(text) => put_check(rt, parser, date::<NotBefore>(rt, alloc, text)),
        Claim::Expiration(text) => put_check(rt, parser, date::<Expiration>(rt, alloc, text)),
        Claim::Custom(key, json) => put_check(rt, parser, custom(rt, alloc, key, json)),
        Claim::NoExpiration => {}
    }
}
