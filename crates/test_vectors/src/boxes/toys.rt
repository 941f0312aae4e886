//! The toy box by itself.

use crate::expect::{expect_same, expect_that};
use rusty_paseto_core::SealedBox;
use std::alloc::{AllocError, Global};
use std::process::Abort;
use test_toys::ToyBox;
use test_toys::long::text_of;

const KEY: [u8; 32] = [7; 32];

const NONCE: [u8; 24] = [7; 24];

// Whether the toy box opens these bytes.
fn opens(rt: &impl Abort, alloc: Global, data: &[u8], boxed: &[u8]) -> bool {
    ToyBox
        .open(alloc, &KEY, &NONCE, data, boxed)
        .expect(rt, "memory")
        .is_some()
}

#[test]
fn a_toy_box_opens_its_own(rt: HostRuntime) {
    let alloc = rt.alloc();
    let found = ToyBox
        .seal(alloc, &KEY, &NONCE, b"data", b"hello")
        .expect(&rt, "memory");
    let mut boxed = found.expect(&rt, "a sealing");
    expect_same(&rt, &boxed.len(), &21, "the answer");
    expect_that(&rt, boxed.as_slice().starts_with(b"hello"), "the answer");
    let found = ToyBox
        .open(alloc, &KEY, &NONCE, b"data", &boxed)
        .expect(&rt, "memory");
    let message = found.expect(&rt, "a message");
    expect_same(&rt, message.as_slice(), b"hello".as_slice(), "the answer");
    expect_that(&rt, !opens(&rt, alloc, b"dato", &boxed), "the answer");
    if let Some(last) = boxed.last_mut() {
        *last ^= 1;
    }
    expect_that(&rt, !opens(&rt, alloc, b"data", &boxed), "the answer");
}

#[test]
fn a_toy_box_opens_no_other_lengths(rt: HostRuntime) {
    expect_that(&rt, !opens(&rt, rt.alloc(), b"", &[0; 15]), "the answer");
    let long = text_of(rt.alloc(), 4_113).expect(&rt, "memory");
    expect_that(
        &rt,
        !opens(&rt, rt.alloc(), b"", long.as_bytes()),
        "the answer",
    );
}
