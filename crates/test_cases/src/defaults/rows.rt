//! Tokens, and what default parsers answer for them, over all kinds.

use crate::defaults::claims::Claim;
use crate::defaults::kinds::moment_after;
use crate::expect::{expect_outcome, expect_told};
use crate::kinds::{ASSERTED_KINDS, Binding, KINDS, Kind};
use std::alloc::Global;
use std::process::Abort;

/// No claims.
pub(crate) const NONE: &[Claim<'static>] = &[];

/// The claims that a default builder sets at the first of 2024.
pub(crate) const USUAL: &str = "{\"exp\":\"2024-01-01T01:00:00Z\",\
    \"iat\":\"2024-01-01T00:00:00Z\",\"nbf\":\"2024-01-01T00:00:00Z\"}";

/// A token, and what a default parser answers for it.
#[derive(Clone, Copy)]
pub(crate) struct Row {
    /// The token's payload, or none where a default builder makes the token at the first of 2024.
    pub(crate) payload: Option<&'static str>,
    /// What that builder sets.
    pub(crate) claims: &'static [Claim<'static>],
    /// The footer that the token has, and the one that the parser expects.
    pub(crate) footers: (Option<&'static str>, Option<&'static str>),
    /// How many nanoseconds after the first of 2024 the token is parsed.
    pub(crate) after: i128,
    /// What the parser checks.
    pub(crate) checks: &'static [Claim<'static>],
    /// The value's JSON, or the error's text.
    pub(crate) answer: &'static str,
}

fn token_of(rt: &impl Abort, alloc: Global, kind: Kind, row: Row) -> String {
    let (footer, _) = row.footers;
    let binding = Binding::of_footer(footer);
    match row.payload {
        Some(text) => kind.token(rt, alloc, text, binding),
        None => kind.default_token(rt, alloc, moment_after(rt, 0), row.claims, binding),
    }
}

fn check_row(rt: &impl Abort, alloc: Global, row: Row) {
    let now = moment_after(rt, row.after);
    let (_, footer) = row.footers;
    let binding = Binding::of_footer(footer);
    'kinds: for &kind in KINDS {
        let token = token_of(rt, alloc, kind, row);
        let answer = kind.parse_default(rt, alloc, token.as_str(), now, row.checks, binding);
        expect_told(rt, alloc, answer, row.answer, kind);
    }
}

/// Each row's answer is that of a default parser, in every kind.
pub(crate) fn check_rows(rt: &impl Abort, alloc: Global, rows: &[Row]) {
    'rows: for row in rows {
        check_row(rt, alloc, *row);
    }
}

const NINE_CLAIMS: &[Claim<'static>] = &[
    Claim::Audience("customers"),
    Claim::Subject("loyal subjects"),
    Claim::Issuer("me"),
    Claim::TokenIdentifier("me"),
    Claim::IssuedAt("2019-01-01T00:00:00+00:00"),
    Claim::NotBefore("2019-01-01T00:00:00+00:00"),
    Claim::Expiration("2050-01-01T00:00:00+00:00"),
    Claim::Custom("data", "\"this is a secret message\""),
    Claim::Custom("seats", "4"),
];

const NINE_ENTRIES: &str = "{\"aud\":\"customers\",\"data\":\"this is a secret message\",\
    \"exp\":\"2050-01-01T00:00:00+00:00\",\"iat\":\"2019-01-01T00:00:00+00:00\",\"iss\":\"me\",\
    \"jti\":\"me\",\"nbf\":\"2019-01-01T00:00:00+00:00\",\"seats\":4,\"sub\":\"loyal subjects\"}";

// The implicit assertion is left out in a kind that has none.
#[test]
fn nine_claims(rt: HostRuntime) {
    let (alloc, now) = (rt.alloc(), moment_after(&rt, 0));
    let binding = Binding {
        footer: Some("some footer"),
        assertion: Some("some assertion"),
    };
    'kinds: for &kind in KINDS {
        let token = kind.default_token(&rt, alloc, now, NINE_CLAIMS, binding);
        let answer = kind.parse_default(&rt, alloc, token.as_str(), now, NINE_CLAIMS, binding);
        expect_told(&rt, alloc, answer, NINE_ENTRIES, kind);
    }
}

// How a token is refused for its tag or its signature.
fn other_binding(kind: Kind) -> &'static str {
    match kind {
        Kind::V3Local | Kind::V4Local => "CipherError { source: Cryption }",
        _ => "CipherError { source: InvalidSignature }",
    }
}

#[test]
fn an_assertion_that_the_parser_lacks(rt: HostRuntime) {
    let (alloc, now) = (rt.alloc(), moment_after(&rt, 0));
    let asserted = Binding::of_assertion(Some("some assertion"));
    'kinds: for &kind in ASSERTED_KINDS {
        let token = kind.default_token(&rt, alloc, now, NONE, asserted);
        let answer = kind.parse_default(&rt, alloc, token.as_str(), now, NONE, Binding::NONE);
        expect_outcome(&rt, alloc, answer, other_binding(kind), kind);
    }
}
