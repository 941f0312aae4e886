//! Values written in hexadecimal digits.

use hex::FromHex;
use std::alloc::Global;
use std::process::Abort;

pub(crate) fn bytes_of(rt: &impl Abort, alloc: Global, digits: &str) -> Vec<u8> {
    hex::decode(alloc, digits).expect(rt, "digits")
}

pub(crate) fn array_of<const N: usize>(rt: &impl Abort, digits: &str) -> [u8; N] {
    <[u8; N] as FromHex>::from_hex(digits).expect(rt, "digits")
}
