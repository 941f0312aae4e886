//! Tags of Poly1305 (RFC 8439).

use crate::expect::expect_same;
use crate::hexadecimal::{array_of, bytes_of};
use paseto_xchacha20poly1305::poly1305;
use std::process::Abort;

// A key, a message and its tag.
struct Row {
    key: &'static str,
    message: &'static [u8],
    tag: &'static str,
}

fn check(rt: &impl Abort, key: &str, message: &[u8], tag: &str) {
    let found = poly1305(&array_of(rt, key), message);
    let wanted: [u8; 16] = array_of(rt, tag);
    expect_same(rt, found.as_slice(), wanted.as_slice(), tag);
}

const SUBMISSION: &[u8] =
    b"Any submission to the IETF intended by the Contributor for publication as all or \
part of an IETF Internet-Draft or RFC and any statement made within the context of an IETF activity is considered an \
\"IETF Contribution\". Such statements include oral statements in IETF sessions, as well as written and electronic \
communications made at any time or place, which are addressed to";

const JABBERWOCKY: &[u8] =
    b"'Twas brillig, and the slithy toves\nDid gyre and gimble in the wabe:\n\
All mimsy were the borogoves,\nAnd the mome raths outgrabe.";

// Section 2.5.2, and rows 2 to 4 of appendix A.3.
const TEXTS: &[Row] = &[
    Row {
        key: "85d6be7857556d337f4452fe42d506a80103808afb0db2fd4abff6af4149f51b",
        message: b"Cryptographic Forum Research Group",
        tag: "a8061dc1305136c6c22b8baf0c0127a9",
    },
    Row {
        key: "0000000000000000000000000000000036e5f6b5c5e06070f0efca96227a863e",
        message: SUBMISSION,
        tag: "36e5f6b5c5e06070f0efca96227a863e",
    },
    Row {
        key: "36e5f6b5c5e06070f0efca96227a863e00000000000000000000000000000000",
        message: SUBMISSION,
        tag: "f3477e7cd95417af89a6b8794c310cf0",
    },
    Row {
        key: "1c9240a5eb55d38af333888604f6b5f0473917c1402b80099dca5cbc207075c0",
        message: JABBERWOCKY,
        tag: "4541669a7eaaee61e708dc7cbcc5eb62",
    },
];

#[test]
fn texts_of_the_standard(rt: HostRuntime) {
    'rows: for row in TEXTS {
        check(&rt, row.key, row.message, row.tag);
    }
}

// A key, a message in hexadecimal digits and its tag: what section 2.8.2 authenticates, and rows 1 and 5 to 11 of
// appendix A.3, whose numbers are those at the edges of a carry and of the last reduction.
const BLOCKS: &[(&str, &str, &str)] = &[
    (
        "7bac2b252db447af09b67a55a4e955840ae1d6731075d9eb2a9375783ed553ff",
        concat!(
            "50515253c0c1c2c3c4c5c6c700000000d31a8d34648e60db7b86afbc53ef7ec2",
            "a4aded51296e08fea9e2b5a736ee62d63dbea45e8ca9671282fafb69da92728b",
            "1a71de0a9e060b2905d6a5b67ecd3b3692ddbd7f2d778b8c9803aee328091b58",
            "fab324e4fad675945585808b4831d7bc3ff4def08e4b7a9de576d26586cec64b",
            "611600000000000000000000000000000c000000000000007200000000000000",
        ),
        "1ae10b594f09e26a7e902ecbd0600691",
    ),
    (
        "0000000000000000000000000000000000000000000000000000000000000000",
        concat!(
            "0000000000000000000000000000000000000000000000000000000000000000",
            "0000000000000000000000000000000000000000000000000000000000000000",
        ),
        "00000000000000000000000000000000",
    ),
    (
        "0200000000000000000000000000000000000000000000000000000000000000",
        "ffffffffffffffffffffffffffffffff",
        "03000000000000000000000000000000",
    ),
    (
        "02000000000000000000000000000000ffffffffffffffffffffffffffffffff",
        "02000000000000000000000000000000",
        "03000000000000000000000000000000",
    ),
    (
        "0100000000000000000000000000000000000000000000000000000000000000",
        concat!(
            "fffffffffffffffffffffffffffffffff0ffffffffffffffffffffffffffffff",
            "11000000000000000000000000000000",
        ),
        "05000000000000000000000000000000",
    ),
    (
        "0100000000000000000000000000000000000000000000000000000000000000",
        concat!(
            "fffffffffffffffffffffffffffffffffbfefefefefefefefefefefefefefefe",
            "01010101010101010101010101010101",
        ),
        "00000000000000000000000000000000",
    ),
    (
        "0200000000000000000000000000000000000000000000000000000000000000",
        "fdffffffffffffffffffffffffffffff",
        "faffffffffffffffffffffffffffffff",
    ),
    (
        "0100000000000000040000000000000000000000000000000000000000000000",
        concat!(
            "e33594d7505e43b900000000000000003394d7505e4379cd0100000000000000",
            "0000000000000000000000000000000001000000000000000000000000000000",
        ),
        "14000000000000005500000000000000",
    ),
    (
        "0100000000000000040000000000000000000000000000000000000000000000",
        concat!(
            "e33594d7505e43b900000000000000003394d7505e4379cd0100000000000000",
            "00000000000000000000000000000000",
        ),
        "13000000000000000000000000000000",
    ),
];

#[test]
fn blocks_of_the_standard(rt: HostRuntime) {
    'rows: for &(key, message, tag) in BLOCKS {
        check(&rt, key, &bytes_of(&rt, rt.alloc(), message), tag);
    }
}
