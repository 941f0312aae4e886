//! BLAKE2b (RFC 7693).

use crate::counted::counted_bytes;
use crate::expect::{expect_bytes, expect_digits};
use rusty_paseto_primitives::{Blake2b, blake2b_keyed, blake2b_keyed_pair};
use std::alloc::Global;
use std::process::Abort;

// RFC 7693, appendix A.
#[test]
fn digest_of_abc(rt: HostRuntime) {
    let digest: [u8; 64] = blake2b_keyed(b"", b"abc");
    expect_digits(
        &rt,
        rt.alloc(),
        &digest,
        concat!(
            "ba80a53f981c4d0d6a2797b69f12f6e94c212f14685ac4b74b12bb6fdbffa2d1",
            "7d87c5392aab792dc252d5de4533cc9518d38aa8dbf1925ab92386edd4009923",
        ),
    );
}

// The lengths of a key, of a digest and of a message, and the digest, as CPython's hashlib gives it. The bytes of the key
// and of the message count up from 0.
const DIGESTS: &[(usize, usize, usize, &str)] = &[
    (0, 1, 0, "2e"),
    (0, 24, 3, "369857c269fb76833b9d8988c5ab554775be0c7022ab179f"),
    (
        0,
        24,
        80,
        "7bf0d43c779d9c813a526beadb29e4f5d8031501e67bd935",
    ),
    (
        0,
        32,
        129,
        "f7f3c46ba2564ff4c4c162da1f5b605f9f1c4aa6a20652a9f9a337c1a2f5b9c9",
    ),
    (1, 20, 3, "908301ce1129083e34be0f8e17ef57701aa35e31"),
    (
        32,
        56,
        33,
        "521c639fc291f5509568de60704b5a84fdccd04a64a462f3b9ca87f19de8f5f51011d52fc04183510aecd3065050b340b0da312fb89cfbf6",
    ),
    (
        32,
        32,
        65,
        "22111bcd342824a749da73e21ca988495214710c81bb4a05ebf3c443e17be8c5",
    ),
    (
        33,
        48,
        127,
        "7cbf1516ee64f7a4135dd0af46e2cc7195d7029bd51411b77e1e2d0e181494e7344beb1273b6eba826a2ee467b4a3c46",
    ),
    (
        64,
        33,
        128,
        "259f20cc3be29c153e8b09d7943750e2a6ab2a109798faa25d2544c6e073dd9f4b",
    ),
    (
        64,
        64,
        250,
        "1085d78307b1c4b008c57a2e7e5b234658a0a82e4ff1e4aaac72b312fda0fe27d233bc5b10e9cc17fdc7697b540c7d95eb215a19a1a0e20e1abfa126efd568c7",
    ),
];

fn check_digest(
    rt: &impl Abort,
    alloc: Global,
    key: &[u8],
    message: &[u8],
    length: usize,
    wanted: &str,
) {
    assert!(rt; key.len() <= 64);
    assert!(rt; 1 <= length);
    assert!(rt; length <= 64);
    let mut hasher = Blake2b::new(key, length);
    hasher.update(message);
    let mut room = [0u8; 64];
    let digest = &mut room[..length];
    hasher.finalize_into(digest);
    expect_digits(rt, alloc, digest, wanted);
}

#[test]
fn digests_of_all_lengths(rt: HostRuntime) {
    let bytes: [u8; 250] = counted_bytes();
    'rows: for &(key, length, message, wanted) in DIGESTS {
        let key = bytes.get(..key).expect(&rt, "a key");
        let message = bytes.get(..message).expect(&rt, "a message");
        check_digest(&rt, rt.alloc(), key, message, length, wanted);
    }
}

// The digests of two messages at once, as CPython's hashlib gives them: digests that had changed places
// would differ from both.
#[test]
fn pair_of_digests(rt: HostRuntime) {
    let (first, second): ([u8; 56], [u8; 32]) = blake2b_keyed_pair(
        &[0x3c; 32],
        b"the message in the first lane",
        b"and the one in the second",
    );
    expect_digits(
        &rt,
        rt.alloc(),
        &first,
        concat!(
            "7ecfce43b3e5057c06d22c97a9a0d669484017dac7dcb559b2cf5688",
            "f0c3a8aa1c7a0e162fefce32013bfac2d23e961baedb67acc6024ccb",
        ),
    );
    expect_digits(
        &rt,
        rt.alloc(),
        &second,
        "ced66bf8f64801e5b8dc1f23a94f158101f2786960025c208e7636a44ba5bd36",
    );
}

// Each of two messages has the digest that it has alone.
fn check_pair(rt: &impl Abort, key: &[u8], first_message: &[u8], second_message: &[u8]) {
    assert!(rt; key.len() <= 64);
    let (first, second): ([u8; 64], [u8; 33]) = blake2b_keyed_pair(
        key,
        first_message,
        second_message,
    );
    let first_alone: [u8; 64] = blake2b_keyed(key, first_message);
    let second_alone: [u8; 33] = blake2b_keyed(key, second_message);
    expect_bytes(rt, &first, &first_alone);
    expect_bytes(rt, &second, &second_alone);
}

// The lengths of a key and of two messages. A block holds both messages, one or none. Without a key
// there is no block of the key, so that the two digests are made one after the other.
const PAIRS: &[(usize, usize, usize)] = &[
    (64, 1, 128),
    (64, 128, 1),
    (64, 128, 129),
    (64, 129, 128),
    (64, 0, 127),
    (64, 127, 0),
    (64, 256, 0),
    (0, 3, 3),
];

#[test]
fn pairs_of_all_lengths(rt: HostRuntime) {
    let bytes = [0xa5u8; 256];
    'pairs: for &(key, first, second) in PAIRS {
        check_pair(
            &rt,
            bytes.get(..key).expect(&rt, "a key"),
            bytes.get(..first).expect(&rt, "a message"),
            bytes.get(..second).expect(&rt, "a message"),
        );
    }
}

// The message in one piece and in two has one digest, wherever it is cut.
fn check_cuts(rt: &impl Abort, key: &[u8], message: &[u8]) {
    assert!(rt; key.len() <= 64);
    let whole: [u8; 64] = blake2b_keyed(key, message);
    'cuts: for cut in 0..=message.len() {
        let (head, tail) = message.split_at(cut);
        let mut hasher = Blake2b::new(key, 64);
        hasher.update(head);
        hasher.update(tail);
        let mut digest = [0u8; 64];
        hasher.finalize_into(&mut digest);
        expect_bytes(rt, &digest, &whole);
    }
}

// The lengths of a key and of a message.
const CUT: &[(usize, usize)] = &[
    (0, 0),
    (0, 1),
    (0, 127),
    (0, 128),
    (0, 129),
    (0, 255),
    (0, 256),
    (0, 257),
    (32, 0),
    (32, 1),
    (32, 127),
    (32, 128),
    (32, 129),
    (32, 255),
    (32, 256),
    (32, 257),
    (64, 0),
    (64, 1),
    (64, 127),
    (64, 128),
    (64, 129),
    (64, 255),
    (64, 256),
    (64, 257),
];

#[test]
fn cut_at_each_place(rt: HostRuntime) {
    let bytes: [u8; 257] = counted_bytes();
    'lengths: for &(key, message) in CUT {
        let key = bytes.get(..key).expect(&rt, "a key");
        check_cuts(&rt, key, bytes.get(..message).expect(&rt, "a message"));
    }
}

#[test]
fn no_update_is_the_empty_message(rt: HostRuntime) {
    let key = [7u8; 32];
    let hasher = Blake2b::new(&key, 32);
    let mut digest = [0u8; 32];
    hasher.finalize_into(&mut digest);
    let whole: [u8; 32] = blake2b_keyed(&key, b"");
    expect_bytes(&rt, &digest, &whole);
}
