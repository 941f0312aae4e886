//! The cipher on eight blocks at once, in planes, and the keystream of counter mode in groups of them.

ghost use Rattle.std.specs.Prelude.{◌≡◌, ℕ, ◌+◌, ◌%◌, ◌^◌, List, map};
ghost use Rattle.std.specs.Int.{w128, to_be_bytes};
ghost use Rattle.std.specs.List.{range_with_len};
ghost use Rattle.rusty_paseto_primitives.specs.Bytes.{IsBytes};
ghost use Rattle.rusty_paseto_primitives.specs.Aes.Cipher.{cipher};
ghost use Rattle.rusty_paseto_primitives.specs.Aes.Planes.{AreRoundKeys, planes};

use crate::aes::circuit::sub_bytes;
use crate::aes::planes::{mix_columns, repeated, shift_rows, sum, transposed};
use std::simd::{u8x16, u64x2};

// The round keys of a schedule, in planes.
pub(super) fn round_keys(schedule: &[u8; 240]) -> [[u8x16; 8]; 15]
    ensures { AreRoundKeys result schedule.now }
{
    let mut keys = [[u8x16::splat(0); 8]; 15];
    'rounds: for n in 0..15usize {
        let at = 16 * n;
        keys[n] = repeated(u8x16::from_slice(&schedule[at..at + 16]));
    }
    keys
}

// The cipher of each of eight blocks.
#[inline(always)]
fn encrypted(keys: &[[u8x16; 8]; 15], blocks: [u8x16; 8]) -> [u8x16; 8]
    ensures { (w : List ℕ) (s : ℕ → List ℕ) → IsBytes w → ((j : ℕ) → IsBytes (s j))
        → AreRoundKeys keys.now w
        → blocks ≡ planes s → result ≡ planes (λ j. cipher w (s j)) }
{
    let mut state = sum(blocks, keys[0]);
    'rounds: for round in 1..14usize {
        state = sum(mix_columns(shift_rows(sub_bytes(state))), keys[round]);
    }
    sum(shift_rows(sub_bytes(state)), keys[14])
}

// The block of a counter, high byte first.
#[inline(always)]
fn counter(n: u128) -> u8x16
    ensures { result ≡ to_be_bytes w128 n }
{
    let low = (n & 0xffff_ffff_ffff_ffff) as u64;
    let high = (n >> 64) as u64;
    u64x2::from_array([low, high])
        .to_le_bytes()
        .swizzle([15, 14, 13, 12, 11, 10, 9, 8, 7, 6, 5, 4, 3, 2, 1, 0])
}

#[inline(always)]
fn counters(start: u128) -> [u8x16; 8]
    ensures { result ≡ map (λ j. to_be_bytes w128 ((start + j) % 2 ^ 128)) (range_with_len 0 8) }
{
    [
        counter(start),
        counter(start.wrapping_add(1)),
        counter(start.wrapping_add(2)),
        counter(start.wrapping_add(3)),
        counter(start.wrapping_add(4)),
        counter(start.wrapping_add(5)),
        counter(start.wrapping_add(6)),
        counter(start.wrapping_add(7)),
    ]
}

// The eight blocks of keystream from the counter `start` on.
pub(super) fn keystream(keys: &[[u8x16; 8]; 15], start: u128) -> [u8x16; 8]
    ensures { (w : List ℕ) → IsBytes w → AreRoundKeys keys.now w
        → result ≡ map (λ j. cipher w (to_be_bytes w128 ((start + j) % 2 ^ 128)))
        (range_with_len 0 8) }
{
    transposed(encrypted(keys, transposed(counters(start))))
}
