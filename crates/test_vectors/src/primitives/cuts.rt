//! A message that a hasher is given in two pieces has the authentication code of the whole, at each place where
//! it can be cut. The lengths are those at the edges of a block and of what a last block holds.

use crate::counted::counted_bytes;
use crate::expect::expect_bytes;
use rusty_paseto_primitives::{HmacSha384, hmac_sha384};
use std::process::Abort;

fn check_cuts(rt: &impl Abort, key: &[u8], message: &[u8]) {
    let whole = hmac_sha384(key, message);
    'cuts: for cut in 0..=message.len() {
        let (head, tail) = message.split_at(cut);
        let mut hasher = HmacSha384::new(key);
        hasher.update(head);
        hasher.update(tail);
        expect_bytes(rt, hasher.finalize().as_slice(), whole.as_slice());
    }
}

// The lengths of a key and of a message. A key of 128 bytes fills a block, and a longer one is hashed.
const LENGTHS: &[(usize, usize)] = &[
    (0, 128),
    (0, 257),
    (5, 0),
    (5, 1),
    (5, 111),
    (5, 112),
    (5, 127),
    (5, 128),
    (5, 129),
    (5, 257),
    (32, 257),
    (128, 0),
    (128, 1),
    (128, 111),
    (128, 112),
    (128, 127),
    (128, 128),
    (128, 129),
    (128, 257),
    (129, 0),
    (129, 1),
    (129, 111),
    (129, 112),
    (129, 127),
    (129, 128),
    (129, 129),
    (129, 257),
];

#[test]
fn hmac_at_each_cut(rt: HostRuntime) {
    let bytes: [u8; 257] = counted_bytes();
    'lengths: for &(key, message) in LENGTHS {
        let key = bytes.get(..key).expect(&rt, "a key");
        check_cuts(&rt, key, bytes.get(..message).expect(&rt, "a message"));
    }
}
