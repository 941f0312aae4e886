//! What the box does not open.

use super::{KEY, NONCE};
use crate::counted::counted_bytes;
use crate::expect::{expect_same, expect_that};
use crate::hexadecimal::array_of;
use paseto_xchacha20poly1305::XChaCha20Poly1305;
use rusty_paseto_core::SealedBox;
use std::alloc::Global;
use std::process::Abort;

const DATA: &[u8] = b"bound";

const OTHER_NONCE: &str = "404142434445464748494a4b4c4d4e4f5051525354555658";

fn boxed_bytes(rt: &impl Abort, alloc: Global) -> Vec<u8> {
    XChaCha20Poly1305
        .seal(
            alloc,
            &array_of(rt, KEY),
            &array_of(rt, NONCE),
            DATA,
            b"a message of twenty-five.",
        )
        .expect(rt, "memory")
        .expect(rt, "a sealing")
}

// Whether the box opens these bytes.
fn opens(rt: &impl Abort, alloc: Global, nonce: &str, data: &[u8], boxed: &[u8]) -> bool {
    XChaCha20Poly1305
        .open(alloc, &array_of(rt, KEY), &array_of(rt, nonce), data, boxed)
        .expect(rt, "memory")
        .is_some()
}

// A nonce and data, and whether the box opens under them what it sealed.
const OPENINGS: &[(&str, &[u8], bool)] = &[
    (NONCE, DATA, true),
    (OTHER_NONCE, DATA, false),
    (NONCE, b"bounds", false),
    (NONCE, b"", false),
];

#[test]
fn another_nonce_and_other_data(rt: HostRuntime) {
    let alloc = rt.alloc();
    let boxed = boxed_bytes(&rt, alloc);
    'rows: for &(nonce, data, is_opened) in OPENINGS {
        let found = opens(&rt, alloc, nonce, data, &boxed);
        expect_same(&rt, found, is_opened, &(nonce, data));
    }
}

#[test]
fn fewer_than_sixteen_bytes(rt: HostRuntime) {
    let bytes: [u8; 15] = counted_bytes();
    'lengths: for length in 0..16usize {
        let boxed = bytes.get(..length).expect(&rt, "bytes");
        let is_opened = opens(&rt, rt.alloc(), NONCE, DATA, boxed);
        expect_that(&rt, !is_opened, &length);
    }
}

// Each byte of the ciphertext and of the tag.
#[test]
fn a_changed_byte(rt: HostRuntime) {
    'places: for place in 0..41usize {
        let mut boxed = boxed_bytes(&rt, rt.alloc());
        let byte = boxed.get_mut(place).expect(&rt, "a byte");
        *byte ^= 1;
        let is_opened = opens(&rt, rt.alloc(), NONCE, DATA, &boxed);
        expect_that(&rt, !is_opened, &place);
    }
}
