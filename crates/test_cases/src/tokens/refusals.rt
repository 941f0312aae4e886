//! Tokens with other payloads than those that were made.

use super::faults::token_of_zeros;
use super::parts::token_of_payload;
use crate::expect::{expect_outcome, expect_same};
use crate::kinds::{Binding, KINDS, Kind};
use rusty_paseto_core::from_section;
use std::alloc::Global;
use std::process::Abort;

/// The letters of the shortest payload that is looked at. In version 2 local 32 letters spell 24 bytes, a
/// nonce and an empty box; elsewhere they spell a nonce and a tag, or a signature.
pub(crate) const LETTERS: &[(Kind, usize)] = &[
    (Kind::V1Local, 107),
    (Kind::V2Local, 32),
    (Kind::V3Local, 107),
    (Kind::V4Local, 86),
    (Kind::V1Public, 342),
    (Kind::V2Public, 86),
    (Kind::V3Public, 128),
    (Kind::V4Public, 86),
];

// A token with no footer whose payload has another first and last byte.
fn with_changes(
    rt: &impl Abort,
    alloc: Global,
    kind: Kind,
    token: &str,
    first_change: u8,
    last_change: u8,
) -> String {
    let section = token.strip_prefix(kind.header()).expect(rt, "a header");
    let mut payload = from_section(alloc, section).expect(rt, "bytes");
    if let Some(first) = payload.first_mut() {
        *first ^= first_change;
    }
    if let Some(last) = payload.last_mut() {
        *last ^= last_change;
    }
    token_of_payload(rt, alloc, kind, &payload)
}

// Another nonce or another text, and another tag or another signature.
#[test]
fn other_payloads(rt: HostRuntime) {
    'kinds: for &kind in KINDS {
        let token = kind.token(&rt, rt.alloc(), "hello", Binding::NONE);
        let kept = with_changes(&rt, rt.alloc(), kind, token.as_str(), 0, 0);
        expect_same(&rt, kept.as_str(), token.as_str(), &kind);
        'changes: for (first, last) in [(1, 0), (0, 1), (0, 128)] {
            let changed = with_changes(&rt, rt.alloc(), kind, token.as_str(), first, last);
            let answer = kind.read(rt.alloc(), changed.as_str(), Binding::NONE);
            let row = (kind, first, last);
            expect_outcome(&rt, rt.alloc(), answer, kind.refusal(), row);
        }
    }
}
