//! The faults of reading a token, each by its name. Neither a box nor a scheme is asked.

use crate::expect::{expect_outcome, expect_same};
use crate::kinds::{Binding, KINDS, Kind, SECRET};
use std::alloc::Global;
use std::process::Abort;
use test_toys::counting::Calls;

// How a token with a fault is refused, with nothing asked.
fn check_fault(
    rt: &impl Abort,
    alloc: Global,
    kind: Kind,
    token: &str,
    footer: Option<&str>,
    wanted: &str,
) {
    let binding = Binding::of_footer(footer);
    let (answer, calls) = kind.read_counted(alloc, &SECRET, token, binding);
    expect_same(rt, &calls, &Calls::NONE, &(kind, token));
    expect_outcome(rt, alloc, answer, wanted, (kind, token));
}

// What stands before a row's text.
#[derive(Clone, Copy)]
enum Before {
    // Nothing: the text is a whole token.
    Nothing,
    // The kind's own header.
    Header,
    // The header of another kind.
    OtherHeader,
}

impl Before {
    fn text(self, kind: Kind) -> &'static str {
        match (self, kind) {
            (Before::Nothing, _) => "",
            (Before::Header, _) => kind.header(),
            (Before::OtherHeader, Kind::V3Local) => Kind::V4Local.header(),
            (Before::OtherHeader, _) => Kind::V3Local.header(),
        }
    }
}

// A token in two parts, the footer that it is read with, and how it is refused.
type Row = (Before, &'static str, Option<&'static str>, &'static str);

const SIZE: &str = "IncorrectSize";

const FAULTS: &[Row] = &[
    // The sections are counted before anything else is looked at.
    (Before::Nothing, "", None, SIZE),
    (Before::Nothing, "v4.local", None, SIZE),
    (Before::Nothing, "v4.local...", None, SIZE),
    (Before::Nothing, "v4.public", None, SIZE),
    (Before::Nothing, "v4.public...", None, SIZE),
    (Before::Nothing, "a.b.c.d.e", None, SIZE),
    // The footer is looked at before the header.
    (Before::OtherHeader, "AAAA.Zm9v", None, "FooterInvalid"),
    (Before::OtherHeader, "AAAA.Zm9v", Some("foo"), "WrongHeader"),
    // That a footer's section is lacking is found after the number of sections, and before the header.
    (
        Before::Nothing,
        "v5.local.1234",
        Some("footer"),
        "FooterInvalid",
    ),
    (Before::Nothing, "v5.local.1234", None, "WrongHeader"),
    (Before::Nothing, "v5.local", Some("footer"), SIZE),
    // Sections that spell no bytes.
    (
        Before::Header,
        "AB",
        None,
        "PayloadBase64Decode { source: Invalid last symbol 0x42 ('B') at offset 1, decoded as 0b00000001. }",
    ),
    (
        Before::Header,
        "AA==",
        None,
        "PayloadBase64Decode { source: Invalid padding }",
    ),
    (
        Before::Header,
        "A",
        None,
        "PayloadBase64Decode { source: Invalid input length: 1 }",
    ),
    (
        Before::Header,
        "A+A/",
        None,
        "PayloadBase64Decode { source: Invalid symbol 43, offset 1. }",
    ),
    (
        Before::Header,
        "é",
        None,
        "PayloadBase64Decode { source: Invalid symbol 195, offset 0. }",
    ),
    (
        Before::Header,
        "AAAA\n",
        None,
        "PayloadBase64Decode { source: Invalid symbol 10, offset 4. }",
    ),
    // Payloads that are too short.
    (Before::Header, "", None, SIZE),
    (Before::Header, ".", None, SIZE),
    (Before::Header, "AAAA", None, SIZE),
];

fn check_row(rt: &impl Abort, alloc: Global, kind: Kind, row: Row) {
    let (before, rest, footer, wanted) = row;
    let before = before.text(kind);
    let token = format!(in alloc; "{before}{rest}").expect(rt, "memory");
    check_fault(rt, alloc, kind, token.as_str(), footer, wanted);
}

#[test]
fn refused_by_their_names(rt: HostRuntime) {
    'kinds: for &kind in KINDS {
        'rows: for &row in FAULTS {
            check_row(&rt, rt.alloc(), kind, row);
        }
    }
}

// A header is refused where it is not the kind's own.
fn check_header(rt: &impl Abort, alloc: Global, kind: Kind, header: &str) {
    let token = format!(in alloc; "{header}1234").expect(rt, "memory");
    let wanted = if header == kind.header() {
        "IncorrectSize"
    } else {
        "WrongHeader"
    };
    check_fault(rt, alloc, kind, token.as_str(), None, wanted);
}

// Headers of all kinds, and other spellings of them.
const HEADERS: &[&str] = &[
    "v1.local.",
    "v2.local.",
    "v3.local.",
    "v4.local.",
    "V1.local.",
    "V3.local.",
    "V4.local.",
    "v1.public.",
    "v2.public.",
    "v3.public.",
    "v4.public.",
    "V4.public.",
    "v4.Public.",
    "v1..",
    "v3..",
    "v4..",
    ".local.",
    ".public.",
];

#[test]
fn other_headers(rt: HostRuntime) {
    'kinds: for &kind in KINDS {
        'headers: for &header in HEADERS {
            check_header(&rt, rt.alloc(), kind, header);
        }
    }
}

/// A token of so many letters `A`, each of which spells six bits of zeros.
pub(crate) fn token_of_zeros(rt: &impl Abort, alloc: Global, kind: Kind, letters: usize) -> String {
    let mut token = String::from_str(alloc, kind.header()).expect(rt, "memory");
    'letters: for _ in 0..letters {
        token.push('A').expect(rt, "memory");
    }
    token
}

// The letters of the longest payload that is too short. In version 2 local 31 letters spell 23 bytes,
// one less than a nonce; elsewhere they spell one byte less than a nonce and a tag, or a signature.
const LETTERS: &[(Kind, usize)] = &[
    (Kind::V1Local, 106),
    (Kind::V2Local, 31),
    (Kind::V3Local, 106),
    (Kind::V4Local, 84),
    (Kind::V1Public, 340),
    (Kind::V2Public, 84),
    (Kind::V3Public, 127),
    (Kind::V4Public, 84),
];

#[test]
fn short_payloads(rt: HostRuntime) {
    'kinds: for &(kind, letters) in LETTERS {
        let token = token_of_zeros(&rt, rt.alloc(), kind, letters);
        check_fault(&rt, rt.alloc(), kind, token.as_str(), None, SIZE);
    }
}
