//! AES with a key of 256 bits, and its counter mode (FIPS 197, SP 800-38A).

use crate::expect::{expect_bytes, expect_digits};
use crate::hexadecimal::array_of;
use rusty_paseto_primitives::{Aes256, aes256_ctr_apply};
use std::process::Abort;

// FIPS 197, appendix C.3.
#[test]
fn block_of_the_standard(rt: HostRuntime) {
    let cipher = Aes256::new(&array_of(
        &rt,
        "000102030405060708090a0b0c0d0e0f101112131415161718191a1b1c1d1e1f",
    ));
    let block = cipher.encrypt_block(&array_of(&rt, "00112233445566778899aabbccddeeff"));
    expect_digits(&rt, rt.alloc(), &block, "8ea2b7ca516745bfeafc49904b496089");
}

// SP 800-38A, appendix F.5.5.
#[test]
fn counter_mode_of_the_standard(rt: HostRuntime) {
    let mut data: [u8; 64] = array_of(
        &rt,
        concat!(
            "6bc1bee22e409f96e93d7e117393172aae2d8a571e03ac9c9eb76fac45af8e51",
            "30c81c46a35ce411e5fbc1191a0a52eff69f2445df4f9b17ad2b417be66c3710",
        ),
    );
    aes256_ctr_apply(
        &array_of(
            &rt,
            "603deb1015ca71be2b73aef0857d77811f352c073b6108d72d9810a30914dff4",
        ),
        &array_of(&rt, "f0f1f2f3f4f5f6f7f8f9fafbfcfdfeff"),
        &mut data,
    );
    expect_digits(
        &rt,
        rt.alloc(),
        &data,
        concat!(
            "601ec313775789a5b7a7f504bbf3d228f443e3ca4d62b59aca84e990cacaf5c5",
            "2b0930daa23de94ce87017ba2d84988ddfc9c58db67aada613c2dd08457941a6",
        ),
    );
}

const KEY: [u8; 32] = [0x5c; 32];

// The blocks of the key, of the counters from `start` on.
fn joined_blocks(start: u128) -> [u8; 1040] {
    let cipher = Aes256::new(&KEY);
    let mut bytes = [0u8; 1040];
    'blocks: for number in 0..65usize {
        let counter = start.wrapping_add(number as u128).to_be_bytes();
        bytes[16 * number..16 * number + 16].copy_from_slice(&cipher.encrypt_block(&counter));
    }
    bytes
}

// The lengths round the edge of a block and of eight.
const LENGTHS: &[usize] = &[
    0, 1, 15, 16, 17, 63, 64, 65, 112, 113, 127, 128, 144, 255, 256, 257, 511, 512, 513, 1025,
];

fn check_stream(rt: &impl Abort, start: u128) {
    let blocks = joined_blocks(start);
    'lengths: for &len in LENGTHS {
        let mut space = [0u8; 1040];
        let data = space.get_mut(..len).expect(rt, "a length");
        aes256_ctr_apply(&KEY, &start.to_be_bytes(), data);
        expect_bytes(rt, data, blocks.get(..len).expect(rt, "a length"));
    }
}

// The stream is the blocks under the counted numbers, joined, also where the counter passes 2^8, 2^64
// and its greatest number, after which comes 0, within the first eight blocks.
#[test]
fn zeros_become_the_joined_blocks(rt: HostRuntime) {
    'starts: for start in [0u128, 0xfd, 0xffff_ffff_ffff_fffb, u128::MAX - 6, u128::MAX] {
        check_stream(&rt, start);
    }
}
