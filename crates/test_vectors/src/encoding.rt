//! Pre-authentication encodings.

use crate::expect::{expect_same, expect_that};
use crate::hexadecimal::bytes_of;
use rusty_paseto_core::PreAuthenticationEncoding;
use std::alloc::Global;
use std::process::Abort;
use test_toys::long::text_of;

fn check(rt: &impl Abort, alloc: Global, pieces: &[&[u8]], expected: &str) {
    let encoding = PreAuthenticationEncoding::parse(alloc, pieces).expect(rt, "an encoding");
    expect_same(
        rt,
        encoding.as_bytes(),
        bytes_of(rt, alloc, expected).as_slice(),
        &expected,
    );
}

// The examples of the PASETO specification, and two lists that only their lengths tell apart.
#[test]
fn encodings(rt: HostRuntime) {
    let alloc = rt.alloc();
    check(&rt, alloc, &[], "0000000000000000");
    check(
        &rt,
        alloc,
        &["".as_bytes()],
        "01000000000000000000000000000000",
    );
    check(
        &rt,
        alloc,
        &["test".as_bytes()],
        "0100000000000000040000000000000074657374",
    );
    check(
        &rt,
        alloc,
        &["a".as_bytes(), "b".as_bytes()],
        "0200000000000000010000000000000061010000000000000062",
    );
    check(
        &rt,
        alloc,
        &["ab".as_bytes()],
        "010000000000000002000000000000006162",
    );
}

// The count and the length take eight bytes each.
#[test]
fn long_pieces(rt: HostRuntime) {
    'lengths: for (length, whole) in [(100_000usize, 100_016usize), (1_000_000, 1_000_016)] {
        let text = text_of(rt.alloc(), length).expect(&rt, "memory");
        let encoding = PreAuthenticationEncoding::parse(rt.alloc(), &[text.as_bytes()]).expect(
            &rt,
            "an encoding",
        );
        expect_same(&rt, &encoding.as_bytes().len(), &whole, "the answer");
        expect_that(&rt, encoding.as_bytes().ends_with(text.as_bytes()), &length);
    }
}

// Each piece of one letter takes nine bytes more.
#[test]
fn up_to_three_hundred_pieces(rt: HostRuntime) {
    let mut pieces = Vec::<&[u8]>::new(rt.alloc());
    let mut whole = 8usize;
    'counts: for _ in 0..300u16 {
        let encoding = PreAuthenticationEncoding::parse(rt.alloc(), &pieces).expect(
            &rt,
            "an encoding",
        );
        expect_same(&rt, &encoding.as_bytes().len(), &whole, "the answer");
        pieces.push("a".as_bytes()).expect(&rt, "memory");
        whole = whole.saturating_add(9);
    }
}
