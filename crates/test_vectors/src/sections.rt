//! The sections of a token's text, and how bytes are spelled in them.

use crate::expect::{expect_bytes, expect_same, expect_text, expect_that};
use crate::hexadecimal::array_of;
use rusty_paseto_parts::{
    PasetoError, from_section, is_section_of, laws, push_section, split_token, to_section,
};
use std::alloc::Global;
use std::process::Abort;
use test_toys::long::text_of;

// The text is split into these sections and this footer.
fn check_split(rt: &impl Abort, text: &str, sections: [&str; 3], footer: Option<&str>) {
    let found = split_token(text).expect(rt, "a token");
    let parts = found.0;
    expect_that(rt, parts.as_slice() == sections.as_slice(), &text);
    expect_that(rt, found.1 == footer, &text);
}

#[test]
fn sections_of_tokens(rt: HostRuntime) {
    let sections = ["v4", "local", "payload"];
    check_split(&rt, "v4.local.payload.Zm9v", sections, Some("Zm9v"));
    check_split(&rt, "v4.local.payload.", sections, Some(""));
    check_split(&rt, "v4.local.payload", sections, None);
    check_split(&rt, "..", ["", "", ""], None);
    laws::unique_sections("v4.local.payload");
}

#[test]
fn texts_that_are_no_tokens(rt: HostRuntime) {
    'texts: for &text in &["", "v4", "v4.local", "v4.local.a.b.c", "....", "."] {
        expect_that(&rt, split_token(text).is_none(), &text);
    }
}

// The characters of base64url in order.
pub(crate) const CHARACTERS: &str =
    "ABCDEFGHIJKLMNOPQRSTUVWXYZabcdefghijklmnopqrstuvwxyz0123456789-_";

// The bytes that they spell: the numbers 0 to 63, six bits each.
pub(crate) const NUMBERS: &str = concat!(
    "00108310518720928b30d38f41149351559761969b71d79f",
    "8218a39259a7a29aabb2dbafc31cb3d35db7e39ebbf3dfbf",
);

// The section spells the bytes.
fn check_base64url(rt: &impl Abort, alloc: Global, section: &str, bytes: &[u8]) {
    let found = from_section(alloc, section).expect(rt, "bytes");
    expect_bytes(rt, found.as_slice(), bytes);
    let spelled = to_section(alloc, bytes).expect(rt, "a section");
    expect_text(rt, spelled.as_str(), section);
}

#[test]
fn spellings(rt: HostRuntime) {
    let numbers: [u8; 48] = array_of(&rt, NUMBERS);
    check_base64url(&rt, rt.alloc(), CHARACTERS, &numbers);
    check_base64url(&rt, rt.alloc(), "Zm9vdGVy", "footer".as_bytes());
    check_base64url(&rt, rt.alloc(), "", &[]);
    laws::equal_base64url("foo".as_bytes(), "fop".as_bytes());
}

#[test]
fn a_section_at_the_end(rt: HostRuntime) {
    let mut token = String::from_str(rt.alloc(), "v4.local.").expect(&rt, "memory");
    push_section("foo".as_bytes(), &mut token).expect(&rt, "memory");
    expect_text(&rt, token.as_str(), "v4.local.Zm9v");
}

#[test]
fn compared_texts_of_bytes(rt: HostRuntime) {
    let numbers: [u8; 48] = array_of(&rt, NUMBERS);
    expect_that(&rt, is_section_of(CHARACTERS, &numbers), "the answer");
    expect_that(
        &rt,
        is_section_of("Zm9vdGVy", "footer".as_bytes()),
        "the answer",
    );
    'others: for &other in &["", "Zm9vdGV", "Zm9vdGVz", "Zm9vdGVy=", "Zm9vdGVyZm9v"] {
        expect_that(&rt, !is_section_of(other, "footer".as_bytes()), &other);
    }
}

// A text's section is its own, and not that of a text with one letter more.
fn check_compared(rt: &impl Abort, alloc: Global, length: usize) {
    let longer = text_of(alloc, length.wrapping_add(1)).expect(rt, "memory");
    let text = text_of(alloc, length).expect(rt, "memory");
    let section = to_section(alloc, text.as_bytes()).expect(rt, "a section");
    expect_that(
        rt,
        is_section_of(section.as_str(), text.as_bytes()),
        &length,
    );
    expect_that(
        rt,
        !is_section_of(section.as_str(), longer.as_bytes()),
        &length,
    );
}

#[test]
fn compared_lengths(rt: HostRuntime) {
    'lengths: for &length in &[0, 1, 2, 3, 47, 48, 49, 95, 96, 97, 1_000] {
        check_compared(&rt, rt.alloc(), length);
    }
}

const OTHER_SPELLINGS: &[&str] = &[
    "AB", "AA==", "A", "Zm9v=", "Zm9v\n", "Zm9+", "Zm/v", "AAAAA", "AAC", "Zm.9",
];

#[test]
fn other_texts_of_bytes(rt: HostRuntime) {
    'texts: for &text in OTHER_SPELLINGS {
        let answer = from_section(rt.alloc(), text);
        let is_named = matches!(answer, Err(PasetoError::PayloadBase64Decode { .. }));
        expect_that(&rt, is_named, &text);
    }
}

// Three bytes take four characters, and a last one two.
#[test]
fn long_sections(rt: HostRuntime) {
    'lengths: for &(length, characters) in &[(100_000, 133_334), (1_000_000, 1_333_334)] {
        let text = text_of(rt.alloc(), length).expect(&rt, "memory");
        let section = to_section(rt.alloc(), text.as_bytes()).expect(&rt, "a section");
        expect_same(&rt, &section.len(), &characters, "the answer");
        let bytes = from_section(rt.alloc(), section.as_str()).expect(&rt, "bytes");
        expect_that(&rt, bytes.as_slice() == text.as_bytes(), &length);
    }
}

#[test]
fn sixteen_mebibytes(rt: HostRuntime) {
    let text = text_of(rt.alloc(), 16_777_216).expect(&rt, "memory");
    let section = to_section(rt.alloc(), text.as_bytes()).expect(&rt, "a section");
    let bytes = from_section(rt.alloc(), section.as_str()).expect(&rt, "bytes");
    expect_that(&rt, bytes.as_slice() == text.as_bytes(), "the answer");
}
