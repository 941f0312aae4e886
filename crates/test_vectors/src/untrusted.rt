//! Tokens that are looked at before they are opened.

use crate::expect::{expect_bytes, expect_text, expect_that};
use crate::hexadecimal::array_of;
use crate::sections::{CHARACTERS, NUMBERS};
use rusty_paseto_core::{Footer, PasetoError, UntrustedToken, to_section};
use std::alloc::Global;
use std::process::Abort;
use test_toys::long::{LENGTHS, text_of};

// The bytes of the footer of a token that has one.
fn bytes_of(rt: &impl Abort, alloc: Global, token: &str) -> Vec<u8> {
    let untrusted = UntrustedToken::try_parse(token).expect(rt, "a token");
    let decoded = untrusted.footer_decoded(alloc).expect(rt, "bytes");
    decoded.expect(rt, "a footer")
}

// Their text.
fn footer_of(rt: &impl Abort, alloc: Global, token: &str) -> String {
    let untrusted = UntrustedToken::try_parse(token).expect(rt, "a token");
    let text = untrusted.footer_str(alloc).expect(rt, "a text");
    text.expect(rt, "a footer")
}

// The token has this footer, by each call that reads it.
fn check_footer(rt: &impl Abort, alloc: Global, token: &str, footer: &str) {
    expect_bytes(rt, bytes_of(rt, alloc, token).as_slice(), footer.as_bytes());
    expect_text(rt, footer_of(rt, alloc, token).as_str(), footer);
    let found = Footer::try_from_token(alloc, token).expect(rt, "a text");
    expect_text(rt, found.expect(rt, "a footer").as_str(), footer);
}

// The token has no footer, by each call that reads it.
fn check_no_footer(rt: &impl Abort, alloc: Global, token: &str) {
    let untrusted = UntrustedToken::try_parse(token).expect(rt, "a token");
    expect_that(rt, untrusted.footer_base64().is_none(), &token);
    let decoded = untrusted.footer_decoded(alloc).expect(rt, "no bytes");
    expect_that(rt, decoded.is_none(), &token);
    let text = untrusted.footer_str(alloc).expect(rt, "no text");
    expect_that(rt, text.is_none(), &token);
    let found = Footer::try_from_token(alloc, token).expect(rt, "no text");
    expect_that(rt, found.is_none(), &token);
}

#[test]
fn sections_of_a_token(rt: HostRuntime) {
    let untrusted = UntrustedToken::try_parse("v4.local.payload.Zm9vdGVy").expect(&rt, "a token");
    expect_text(&rt, untrusted.version(), "v4");
    expect_text(&rt, untrusted.purpose(), "local");
    expect_text(&rt, untrusted.footer_base64().unwrap_or(""), "Zm9vdGVy");
}

// A token of as many bytes as the limit has sections, and one of a byte more is refused, whatever it is.
#[test]
fn a_token_at_its_limit(rt: HostRuntime) {
    let token = "v4.local.payload.Zm9vdGVy";
    let untrusted = UntrustedToken::try_parse_within(token, 25).expect(&rt, "a token");
    expect_text(&rt, untrusted.version(), "v4");
    expect_text(&rt, untrusted.footer_base64().unwrap_or(""), "Zm9vdGVy");
    let refused = UntrustedToken::try_parse_within(token, 24);
    expect_that(&rt, matches!(refused, Err(PasetoError::TooLong)), &24);
    let refused = UntrustedToken::try_parse_within("v4.local", 7);
    expect_that(&rt, matches!(refused, Err(PasetoError::TooLong)), &7);
    let refused = UntrustedToken::try_parse_within("v4.local", 8);
    expect_that(&rt, matches!(refused, Err(PasetoError::IncorrectSize)), &8);
}

#[test]
fn empty_sections(rt: HostRuntime) {
    let untrusted = UntrustedToken::try_parse("..").expect(&rt, "a token");
    expect_text(&rt, untrusted.version(), "");
    expect_text(&rt, untrusted.purpose(), "");
    check_no_footer(&rt, rt.alloc(), "..");
    check_no_footer(&rt, rt.alloc(), "v4.local.payload");
}

const FOOTERS: &[(&str, &str)] = &[
    ("v4.local.payload.Zm9vdGVy", "footer"),
    (
        "v4.local.payload.eyJraWQiOiJrZXktMSJ9",
        "{\"kid\":\"key-1\"}",
    ),
    ("v4.local.payload.", ""),
];

#[test]
fn footers_of_tokens(rt: HostRuntime) {
    'rows: for &(token, text) in FOOTERS {
        check_footer(&rt, rt.alloc(), token, text);
    }
}

// Whether the answer is `IncorrectSize`.
fn is_incorrect_size<T: Drop>(answer: Result<T, PasetoError>) -> bool {
    matches!(answer, Err(PasetoError::IncorrectSize))
}

#[test]
fn other_numbers_of_sections(rt: HostRuntime) {
    'tokens: for &token in &["", "v4.local", "a.b.c.d.e"] {
        let answer = UntrustedToken::try_parse(token);
        expect_that(&rt, is_incorrect_size(answer), &token);
        let answer = Footer::try_from_token(rt.alloc(), token);
        expect_that(&rt, is_incorrect_size(answer), &token);
    }
}

#[test]
fn a_footer_that_is_no_text(rt: HostRuntime) {
    let answer = Footer::try_from_token(rt.alloc(), "v4.local.payload._w");
    expect_that(
        &rt,
        matches!(answer, Err(PasetoError::Utf8Error { .. })),
        "the answer",
    );
}

const UNREADABLE: &[&str] = &[
    "v4.local.payload.!!!invalid!!!",
    "v4.local.payload.AB",
    "v4.local.payload.A",
];

#[test]
fn footers_that_spell_no_bytes(rt: HostRuntime) {
    'tokens: for &token in UNREADABLE {
        let answer = Footer::try_from_token(rt.alloc(), token);
        let is_named = matches!(answer, Err(PasetoError::PayloadBase64Decode { .. }));
        expect_that(&rt, is_named, &token);
    }
}

#[test]
fn characters_in_order(rt: HostRuntime) {
    let token = format!(in rt.alloc(); "v4.local.payload.{CHARACTERS}").expect(&rt, "memory");
    let numbers: [u8; 48] = array_of(&rt, NUMBERS);
    let decoded = bytes_of(&rt, rt.alloc(), token.as_str());
    expect_bytes(&rt, decoded.as_slice(), numbers.as_slice());
}

// A token with the text as its footer.
fn token_of(rt: &impl Abort, alloc: Global, footer: &str) -> String {
    let section = to_section(alloc, footer.as_bytes()).expect(rt, "a section");
    format!(in alloc; "v4.local.payload.{section}").expect(rt, "memory")
}

#[test]
fn long_footers(rt: HostRuntime) {
    'lengths: for &length in LENGTHS {
        let footer = text_of(rt.alloc(), length).expect(&rt, "memory");
        let token = token_of(&rt, rt.alloc(), footer.as_str());
        check_footer(&rt, rt.alloc(), token.as_str(), footer.as_str());
    }
}
