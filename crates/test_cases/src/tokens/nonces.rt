//! The nonces of local tokens.

use super::parts::KEY;
use crate::expect::{expect_same, expect_that};
use crate::kinds::{Binding, Kind};
use rusty_paseto_core::{Key, Local, Paseto, PasetoNonce, PasetoSymmetricKey, V2, to_section};
use rusty_paseto_primitives::blake2b_keyed;
use std::alloc::Global;
use std::process::Abort;
use test_toys::ToyBox;

// Whether a token shows a nonce of zeros: 42 letters `A`.
fn shows_zeros(rt: &impl Abort, alloc: Global, kind: Kind) -> bool {
    let token = kind.token(rt, alloc, "", Binding::NONE);
    let payload = token.as_str().strip_prefix(kind.header());
    payload
        .expect(rt, "a header")
        .starts_with("AAAAAAAAAAAAAAAAAAAAAAAAAAAAAAAAAAAAAAAAAA")
}

// In version 1 the nonce in the token is made of the given one and the text. In the versions 3 and 4 it
// is the given one, of zeros.
#[test]
fn the_given_nonce(rt: HostRuntime) {
    'kinds: for &(kind, is_shown) in &[
        (Kind::V1Local, false),
        (Kind::V3Local, true),
        (Kind::V4Local, true),
    ] {
        let found = shows_zeros(&rt, rt.alloc(), kind);
        expect_same(&rt, found, is_shown, &kind);
    }
}

// In version 2 the token begins with the text's hash of 24 bytes under the given nonce.
#[test]
fn the_nonce_is_a_hash_of_the_text(rt: HostRuntime) {
    let token = Kind::V2Local.token(&rt, rt.alloc(), "hello", Binding::NONE);
    let nonce: [u8; 24] = blake2b_keyed(&[0; 32], b"hello");
    let section = to_section(rt.alloc(), &nonce).expect(&rt, "a section");
    let begin = format!(in rt.alloc(); "v2.local.{section}").expect(&rt, "memory");
    let begins = token.as_str().starts_with(begin.as_str());
    expect_that(&rt, begins, token.as_str());
}

// Version 2 takes a nonce of 24 bytes too.
#[test]
fn a_short_nonce(rt: HostRuntime) {
    let nonce = Key::from([0u8; 24]);
    let key = PasetoSymmetricKey::from(Key::from(KEY));
    let paseto = Paseto::<V2, Local>::builder();
    let token = paseto
        .try_encrypt(rt.alloc(), &ToyBox, &key, &PasetoNonce::from(&nonce))
        .expect(&rt, "a token");
    expect_same(&rt, token.len(), 63, "the answer");
    Kind::V2Local.check_text(&rt, rt.alloc(), token.as_str(), Binding::NONE, "");
}
