//! The forms of a token: with its footer's section and, for the empty footer, without. The text that a public token
//! shows.

use crate::expect::{expect_outcome, expect_same, expect_that};
use crate::kinds::{Binding, Kind, PUBLIC_KINDS, SECRET};
use rusty_paseto_core::from_section;
use std::alloc::Global;
use std::process::Abort;
use test_toys::counting::Calls;

// How many characters the empty text's token has without a footer.
const LENGTHS: &[(Kind, usize)] = &[
    (Kind::V1Local, 116),
    (Kind::V2Local, 63),
    (Kind::V3Local, 116),
    (Kind::V4Local, 95),
    (Kind::V1Public, 352),
    (Kind::V2Public, 96),
    (Kind::V3Public, 138),
    (Kind::V4Public, 96),
];

const FOOTER: Binding<'static> = Binding {
    footer: Some("footer"),
    assertion: None,
};

// The token is read as the empty text, with no footer and with the empty one.
fn check_either(rt: &impl Abort, alloc: Global, kind: Kind, token: &str) {
    'footers: for footer in [None, Some("")] {
        let text = kind
            .read(alloc, token, Binding::of_footer(footer))
            .expect(rt, "a text");
        expect_same(rt, text.as_str(), "", &(kind, footer));
    }
}

// With the empty footer's section the token has one point more.
fn check_long(rt: &impl Abort, alloc: Global, kind: Kind, short: &str) {
    let long = kind.token(rt, alloc, "", Binding::of_footer(Some("")));
    expect_same(rt, &long.as_str().strip_suffix('.'), &Some(short), &kind);
    check_either(rt, alloc, kind, long.as_str());
}

// No footer and an empty one bind alike.
#[test]
fn no_footer_and_an_empty_one(rt: HostRuntime) {
    'kinds: for &(kind, len) in LENGTHS {
        let short = kind.token(&rt, rt.alloc(), "", Binding::NONE);
        expect_same(&rt, &short.len(), &len, &kind);
        check_either(&rt, rt.alloc(), kind, short.as_str());
        check_long(&rt, rt.alloc(), kind, short.as_str());
    }
}

fn check_stripped(rt: &impl Abort, alloc: Global, kind: Kind, stripped: &str) {
    let (answer, calls) = kind.read_counted(alloc, &SECRET, stripped, FOOTER);
    expect_outcome(rt, alloc, answer, "FooterInvalid", kind);
    expect_that(rt, calls == Calls::NONE, &kind);
    kind.check_refused(rt, alloc, stripped, Binding::NONE);
}

// A token whose footer section was taken off is refused where the footer is passed, and neither a box nor a
// scheme is asked.
#[test]
fn a_stripped_footer(rt: HostRuntime) {
    'kinds: for &(kind, _) in LENGTHS {
        let token = kind.token(&rt, rt.alloc(), "", FOOTER);
        kind.check_text(&rt, rt.alloc(), token.as_str(), FOOTER, "");
        let stripped = token
            .as_str()
            .strip_suffix(".Zm9vdGVy")
            .expect(&rt, "a footer");
        check_stripped(&rt, rt.alloc(), kind, stripped);
    }
}

// How many bytes a signature has.
fn signature_length(kind: Kind) -> usize {
    match kind {
        Kind::V1Public => 256,
        Kind::V3Public => 96,
        _ => 64,
    }
}

// The text can be read in the token's payload, before the signature.
#[test]
fn a_text_can_be_read(rt: HostRuntime) {
    'kinds: for &kind in PUBLIC_KINDS {
        let token = kind.token(&rt, rt.alloc(), "hello", FOOTER);
        let section = token
            .as_str()
            .strip_prefix(kind.header())
            .expect(&rt, "a header");
        let section = section.strip_suffix(".Zm9vdGVy").expect(&rt, "a footer");
        let payload = from_section(rt.alloc(), section).expect(&rt, "bytes");
        let signature = payload.strip_prefix(b"hello").expect(&rt, "a text");
        expect_same(&rt, &signature.len(), &signature_length(kind), &kind);
    }
}
