//! Tokens put together from their parts, as the standard tells them, are read.

use super::parts::{payload_of, signed_payload, token_of_payload};
use crate::expect::expect_outcome;
use crate::kinds::{ASSERTED_KINDS, Binding, KINDS, Kind};
use std::alloc::Global;
use std::process::Abort;

// A token of `hello` and the footer `footer`, put together, is read.
fn check_bound(rt: &impl Abort, alloc: Global, kind: Kind, binding: Binding<'_>) {
    let payload = payload_of(rt, alloc, kind, b"hello", binding);
    let bare = token_of_payload(rt, alloc, kind, &payload);
    let token = format!(in alloc; "{bare}.Zm9vdGVy").expect(rt, "memory");
    kind.check_text(rt, alloc, token.as_str(), binding, "hello");
}

// The pieces that are bound, in their order, the implicit assertion the last one.
#[test]
fn the_bound_pieces(rt: HostRuntime) {
    let binding = Binding::of_footer(Some("footer"));
    'kinds: for &kind in KINDS {
        check_bound(&rt, rt.alloc(), kind, binding);
    }
    let binding = Binding {
        footer: Some("footer"),
        assertion: Some("more"),
    };
    'asserted: for &kind in ASSERTED_KINDS {
        check_bound(&rt, rt.alloc(), kind, binding);
    }
}

// In version 3 a signature over all pieces but the public key is not valid.
#[test]
fn the_public_key_is_signed(rt: HostRuntime) {
    let kind = Kind::V3Public;
    let pieces: [&[u8]; 4] = [b"v3.public.", b"hello", b"", b""];
    let payload = signed_payload(&rt, rt.alloc(), kind, b"hello", &pieces);
    let token = token_of_payload(&rt, rt.alloc(), kind, &payload);
    let answer = kind.read(rt.alloc(), token.as_str(), Binding::NONE);
    expect_outcome(&rt, rt.alloc(), answer, "InvalidSignature", kind);
}

// How a token is refused whose bytes are no text, from the first one on.
fn no_text(kind: Kind) -> &'static str {
    match kind {
        Kind::V1Local | Kind::V2Local | Kind::V3Local | Kind::V4Local =>
            "Utf8Error { source: Utf8Error { valid_up_to: 0, error_len: Some(1) } }",
        _ => "FromUtf8Error",
    }
}

// The tag or the signature is looked at before the text. The one byte `ff` is no text.
#[test]
fn bytes_that_are_no_text(rt: HostRuntime) {
    'kinds: for &kind in KINDS {
        let mut payload = payload_of(&rt, rt.alloc(), kind, b"\xff", Binding::NONE);
        let token = token_of_payload(&rt, rt.alloc(), kind, &payload);
        let answer = kind.read(rt.alloc(), token.as_str(), Binding::NONE);
        expect_outcome(&rt, rt.alloc(), answer, no_text(kind), kind);
        if let Some(last) = payload.last_mut() {
            *last ^= 1;
        }
        let token = token_of_payload(&rt, rt.alloc(), kind, &payload);
        kind.check_refused(&rt, rt.alloc(), token.as_str(), Binding::NONE);
    }
}
