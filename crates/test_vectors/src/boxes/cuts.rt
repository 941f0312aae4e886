//! A message that a hasher is given in two pieces has the tag of the whole message, at each place where it can
//! be cut.

use super::KEY;
use crate::counted::counted_bytes;
use crate::expect::expect_same;
use crate::hexadecimal::array_of;
use paseto_xchacha20poly1305::{Poly1305Hasher, poly1305};
use std::process::Abort;

fn check_cuts(rt: &impl Abort, message: &[u8]) {
    let key = array_of(rt, KEY);
    let whole = poly1305(&key, message);
    'cuts: for cut in 0..=message.len() {
        let (head, tail) = message.split_at(cut);
        let mut hasher = Poly1305Hasher::new(&key);
        hasher.update(head);
        hasher.update(tail);
        expect_same(rt, hasher.finalize().as_slice(), whole.as_slice(), &cut);
    }
}

#[test]
fn tags_at_each_cut(rt: HostRuntime) {
    let bytes: [u8; 65] = counted_bytes();
    'lengths: for length in 0..=65usize {
        check_cuts(&rt, bytes.get(..length).expect(&rt, "a message"));
    }
}
