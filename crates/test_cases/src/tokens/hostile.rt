//! Texts that are put in the place of tokens, under a known key.

use super::parts::{payload_under, token_of_payload};
use crate::expect::{expect_outcome, expect_refusal, expect_same};
use crate::kinds::{Binding, KINDS, Kind};
use std::alloc::Global;
use std::process::Abort;

// The secret whose key of 32 bytes is `wubbalubbadubdub` twice.
const KNOWN: [u8; 64] = *b"wubbalubbadubdubwubbalubbadubdubwubbalubbadubdubwubbalubbadubdub";

// The local kinds, and how many bytes the shortest payload has of which more than the length is looked at.
const SHORTEST: &[(Kind, usize)] = &[
    (Kind::V1Local, 80),
    (Kind::V2Local, 24),
    (Kind::V3Local, 80),
    (Kind::V4Local, 64),
];

// So many bytes of zeros are refused so.
fn check_zeros(rt: &impl Abort, alloc: Global, kind: Kind, len: usize, wanted: &str) {
    let payload = [0u8; 81];
    let payload = payload.get(..len).expect(rt, "a length");
    let token = token_of_payload(rt, alloc, kind, payload);
    let (answer, _) = kind.read_counted(alloc, &KNOWN, token.as_str(), Binding::NONE);
    expect_outcome(rt, alloc, answer, wanted, (kind, len));
}

#[test]
fn payloads_of_zeros(rt: HostRuntime) {
    'kinds: for &(kind, shortest) in SHORTEST {
        'lengths: for len in 0..82usize {
            let wanted = if len < shortest {
                "IncorrectSize"
            } else {
                kind.refusal()
            };
            check_zeros(&rt, rt.alloc(), kind, len, wanted);
        }
    }
}

const BAD_COUNT: &str =
    "This string has an incorrect number of parts and cannot be parsed into a token";

const BAD_HEADER: &str = "The token header is invalid";

const BAD_BASE64: &str = "A base64 decode error occurred";

const TEXTS: &[(&str, &str)] = &[
    ("v4.local.", BAD_COUNT),
    ("v4.local..", BAD_COUNT),
    ("v4.local...", BAD_COUNT),
    (
        "V4.local.AAAAAAAAAAAAAAAAAAAAAAAAAAAAAAAAAAAAAAAAAAAAAAAAAAAAAAAAAAAAAAAAAAAAAAAAAAAAAAAAAAAAAA",
        BAD_HEADER,
    ),
    (".local.AAAA", BAD_HEADER),
    ("v4.local.A+A/", BAD_BASE64),
    ("v4.local.\u{e9}", BAD_BASE64),
    ("v4.local.AAAA\n", BAD_BASE64),
    ("v4.local.AAAA\r\n", BAD_BASE64),
    ("v4.local.AAAA=", BAD_BASE64),
];

// What is answered in version 4 for a text that is no token.
fn check(rt: &impl Abort, alloc: Global, text: &str, refusal: &str) {
    let (answer, _) = Kind::V4Local.read_counted(alloc, &KNOWN, text, Binding::NONE);
    expect_refusal(rt, alloc, answer, refusal);
}

#[test]
fn texts_that_are_no_tokens(rt: HostRuntime) {
    'texts: for &(text, refusal) in TEXTS {
        check(&rt, rt.alloc(), text, refusal);
    }
}

// The token without the last letter of its footer's section.
fn without_last_letter(rt: &impl Abort, alloc: Global, token: String) -> String {
    let cut = token.as_str().strip_suffix(".Zm9vdGVy");
    let cut = cut.expect(rt, "the footer");
    format!(in alloc; "{cut}.Zm9vdGV").expect(rt, "memory")
}

#[test]
fn a_footer_without_its_last_letter(rt: HostRuntime) {
    let binding = Binding::of_footer(Some("footer"));
    'kinds: for &kind in KINDS {
        let (made, _) = kind.make_counted(rt.alloc(), &KNOWN, "", binding);
        let cut = without_last_letter(&rt, rt.alloc(), made.expect(&rt, "a token"));
        let (answer, _) = kind.read_counted(rt.alloc(), &KNOWN, cut.as_str(), binding);
        expect_outcome(&rt, rt.alloc(), answer, "FooterInvalid", kind);
    }
}

// In version 1 the counter of a nonce that ends in 16 bytes `ff` begins anew after its first block.
#[test]
fn a_nonce_whose_counter_wraps(rt: HostRuntime) {
    let mut nonce = [0u8; 32];
    nonce[16..].copy_from_slice(&[0xff; 16]);
    let text = "aaaaaaaaaaaaaaaaaaaaaaaaaaaaaaaaa";
    expect_same(&rt, &text.len(), &33, "the answer");
    'kinds: for kind in [Kind::V1Local, Kind::V3Local, Kind::V4Local] {
        let payload = payload_under(
            &rt,
            rt.alloc(),
            kind,
            &nonce,
            text.as_bytes(),
            Binding::NONE,
        );
        let token = token_of_payload(&rt, rt.alloc(), kind, &payload);
        kind.check_text(&rt, rt.alloc(), token.as_str(), Binding::NONE, &text);
    }
}
