//! ChaCha20, HChaCha20 and XChaCha20 (RFC 8439, draft-irtf-cfrg-xchacha).

use crate::expect::{expect_bytes, expect_digits, expect_same};
use crate::hexadecimal::array_of;
use rusty_paseto_primitives::{
    chacha20_block, hchacha20, quarter_round, xchacha20_apply, xchacha20_apply_from,
};

const COUNTING_KEY: &str = "000102030405060708090a0b0c0d0e0f101112131415161718191a1b1c1d1e1f";

// RFC 8439, section 2.1.1.
#[test]
fn quarter_round_of_the_standard(rt: HostRuntime) {
    let mut words = [0x11111111u32, 0x01020304, 0x9b8d6f43, 0x01234567];
    quarter_round(&mut words);
    expect_same(
        &rt,
        &words,
        &[0xea2a92f4u32, 0xcb1cf8ce, 0x4581472e, 0x5881c4bb],
        "the answer",
    );
}

// RFC 8439, section 2.3.2.
#[test]
fn block_of_the_standard(rt: HostRuntime) {
    let block = chacha20_block(
        &array_of(&rt, COUNTING_KEY),
        &array_of(&rt, "01000000000000090000004a00000000"),
    );
    expect_digits(
        &rt,
        rt.alloc(),
        block.as_slice(),
        concat!(
            "10f1e7e4d13b5915500fdd1fa32071c4c7d1f4c733c068030422aa9ac3d46c4e",
            "d2826446079faa0914c2d705d98b02a2b5129cd1de164eb9cbd083e8a2503c4e",
        ),
    );
}

// draft-irtf-cfrg-xchacha, section 2.2.1.
#[test]
fn subkey_of_the_draft(rt: HostRuntime) {
    let subkey = hchacha20(
        &array_of(&rt, COUNTING_KEY),
        &array_of(&rt, "000000090000004a0000000031415927"),
    );
    expect_digits(
        &rt,
        rt.alloc(),
        subkey.as_slice(),
        "82413b4227b27bfed30e42508a877d73a0f9e4d58a74a853c12ec41326d3ecdc",
    );
}

// draft-irtf-cfrg-xchacha, appendix A.3.1, which encrypts from block 1 on.
#[test]
fn text_of_the_draft(rt: HostRuntime) {
    let mut text =
        *b"Ladies and Gentlemen of the class of '99: If I could offer you only one tip for the future, sunscreen would be it.";
    xchacha20_apply_from(
        &array_of(
            &rt,
            "808182838485868788898a8b8c8d8e8f909192939495969798999a9b9c9d9e9f",
        ),
        &array_of(&rt, "404142434445464748494a4b4c4d4e4f5051525354555657"),
        1,
        &mut text,
    );
    expect_digits(
        &rt,
        rt.alloc(),
        text.as_slice(),
        concat!(
            "bd6d179d3e83d43b9576579493c0e939572a1700252bfaccbed2902c21396cbb",
            "731c7f1b0b4aa6440bf3a82f4eda7e39ae64c6708c54c216cb96b72e1213b452",
            "2f8c9ba40db5d945b11b69b982c1bb9e3f3fac2bc369488f76b2383565d3fff9",
            "21f9664c97637da9768812f615c68b13b52e",
        ),
    );
}

const KEY: [u8; 32] = [0x5c; 32];

// A nonce: what the subkey is made of, and what each block takes.
const NONCE: &[u8; 24] = b"a nonce of twenty-four b";

const FRONT: &[u8; 16] = b"a nonce of twent";

const BACK: &[u8; 8] = b"y-four b";

// The blocks of the key and the nonce, each made by `chacha20_block` under the subkey.
fn joined_blocks() -> [u8; 1088] {
    let subkey = hchacha20(&KEY, FRONT);
    let mut bytes = [0u8; 1088];
    'blocks: for number in 0..17usize {
        let mut tail = [0u8; 16];
        tail[..8].copy_from_slice(&(number as u64).to_le_bytes());
        tail[8..].copy_from_slice(BACK);
        bytes[64 * number..64 * number + 64].copy_from_slice(&chacha20_block(&subkey, &tail));
    }
    bytes
}

// The lengths round a block's edge.
const LENGTHS: &[usize] = &[
    0, 1, 63, 64, 65, 127, 128, 255, 256, 257, 511, 512, 513, 1025,
];

// The stream is the blocks, joined.
#[test]
fn zeros_become_the_joined_blocks(rt: HostRuntime) {
    let blocks = joined_blocks();
    'lengths: for &len in LENGTHS {
        let mut space = [0u8; 1088];
        let data = space.get_mut(..len).expect(&rt, "a length");
        xchacha20_apply(&KEY, NONCE, data);
        expect_bytes(&rt, data, blocks.get(..len).expect(&rt, "a length"));
    }
}

// From a block on, the stream is that block and those behind it.
#[test]
fn zeros_become_the_blocks_from_one_on(rt: HostRuntime) {
    let blocks = joined_blocks();
    'firsts: for first in 0..17usize {
        let mut space = [0u8; 1088];
        let data = space.get_mut(64 * first..).expect(&rt, "a block");
        xchacha20_apply_from(&KEY, NONCE, first as u64, data);
        expect_bytes(&rt, data, blocks.get(64 * first..).expect(&rt, "a block"));
    }
}

// Behind the block with the greatest number stands block 0.
#[test]
fn first_block_follows_the_last(rt: HostRuntime) {
    let mut data = [0u8; 384];
    xchacha20_apply_from(&KEY, NONCE, u64::MAX - 1, &mut data);
    let blocks = joined_blocks();
    expect_bytes(&rt, &data[128..], blocks.get(..256).expect(&rt, "blocks"));
}
