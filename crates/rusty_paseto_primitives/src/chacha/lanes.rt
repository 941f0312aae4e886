//! Four blocks at once: each word of their states is a vector, with one lane for each block.

ghost use Rattle.std.specs.Prelude.{◌≡◌, ℕ, ◌+◌, ◌<◌, ◌^◌, List, length};
ghost use Rattle.std.specs.Simd.Lanes.{Each1};
ghost use Rattle.rusty_paseto_primitives.specs.ChaCha.Block.{block_bytes, block_words, column_round, diagonal_round, serialized};
ghost use Rattle.rusty_paseto_primitives.specs.ChaCha.Lanes.{four, lanes, quarters, rows};
ghost use Rattle.rusty_paseto_primitives.specs.ChaCha.Stream.{numbered};

use super::block::{high_half, low_half};
use super::vectors::{half_mixed, sum};
use std::simd::{u8x16, u32x4};

// The first half of the quarter round on each column, and then the second half: the four are
// independent of each other, so that a processor works on them at once.
#[inline(always)]
fn column_round(x: [u32x4; 16]) -> [u32x4; 16]
    ensures { (s : ℕ → List ℕ) → x ≡ lanes s → result ≡ lanes (λ j. column_round (s j)) }
{
    let (a0, b0, c0, d0) = half_mixed(x[0], x[4], x[8], x[12], 16, 12);
    let (a1, b1, c1, d1) = half_mixed(x[1], x[5], x[9], x[13], 16, 12);
    let (a2, b2, c2, d2) = half_mixed(x[2], x[6], x[10], x[14], 16, 12);
    let (a3, b3, c3, d3) = half_mixed(x[3], x[7], x[11], x[15], 16, 12);
    let (x0, x4, x8, x12) = half_mixed(a0, b0, c0, d0, 8, 7);
    let (x1, x5, x9, x13) = half_mixed(a1, b1, c1, d1, 8, 7);
    let (x2, x6, x10, x14) = half_mixed(a2, b2, c2, d2, 8, 7);
    let (x3, x7, x11, x15) = half_mixed(a3, b3, c3, d3, 8, 7);
    [
        x0, x1, x2, x3, x4, x5, x6, x7, x8, x9, x10, x11, x12, x13, x14, x15,
    ]
}

// The same on each diagonal.
#[inline(always)]
fn diagonal_round(x: [u32x4; 16]) -> [u32x4; 16]
    ensures { (s : ℕ → List ℕ) → x ≡ lanes s → result ≡ lanes (λ j. diagonal_round (s j)) }
{
    let (a0, b0, c0, d0) = half_mixed(x[0], x[5], x[10], x[15], 16, 12);
    let (a1, b1, c1, d1) = half_mixed(x[1], x[6], x[11], x[12], 16, 12);
    let (a2, b2, c2, d2) = half_mixed(x[2], x[7], x[8], x[13], 16, 12);
    let (a3, b3, c3, d3) = half_mixed(x[3], x[4], x[9], x[14], 16, 12);
    let (x0, x5, x10, x15) = half_mixed(a0, b0, c0, d0, 8, 7);
    let (x1, x6, x11, x12) = half_mixed(a1, b1, c1, d1, 8, 7);
    let (x2, x7, x8, x13) = half_mixed(a2, b2, c2, d2, 8, 7);
    let (x3, x4, x9, x14) = half_mixed(a3, b3, c3, d3, 8, 7);
    [
        x0, x1, x2, x3, x4, x5, x6, x7, x8, x9, x10, x11, x12, x13, x14, x15,
    ]
}

// The words of the four blocks with these starting words.
#[inline(always)]
fn blocks(start: [u32x4; 16]) -> [u32x4; 16]
    ensures { (s : ℕ → List ℕ) → start ≡ lanes s → result ≡ lanes (λ j. block_words (s j)) }
{
    let mut x = start;
    'rounds: for _round in 0..10u32 {
        x = diagonal_round(column_round(x));
    }
    [
        sum(x[0], start[0]),
        sum(x[1], start[1]),
        sum(x[2], start[2]),
        sum(x[3], start[3]),
        sum(x[4], start[4]),
        sum(x[5], start[5]),
        sum(x[6], start[6]),
        sum(x[7], start[7]),
        sum(x[8], start[8]),
        sum(x[9], start[9]),
        sum(x[10], start[10]),
        sum(x[11], start[11]),
        sum(x[12], start[12]),
        sum(x[13], start[13]),
        sum(x[14], start[14]),
        sum(x[15], start[15]),
    ]
}

// The starting words of the four blocks from number n on.
#[inline(always)]
fn starts(key: &[u32; 8], tail: &[u32; 2], n: u64) -> [u32x4; 16]
    ensures { result ≡ lanes (λ j. numbered key.now tail.now (n + j)) }
{
    [
        u32x4::splat(0x6170_7865),
        u32x4::splat(0x3320_646e),
        u32x4::splat(0x7962_2d32),
        u32x4::splat(0x6b20_6574),
        u32x4::splat(key[0]),
        u32x4::splat(key[1]),
        u32x4::splat(key[2]),
        u32x4::splat(key[3]),
        u32x4::splat(key[4]),
        u32x4::splat(key[5]),
        u32x4::splat(key[6]),
        u32x4::splat(key[7]),
        u32x4::from_array([
            low_half(n),
            low_half(n.wrapping_add(1)),
            low_half(n.wrapping_add(2)),
            low_half(n.wrapping_add(3)),
        ]),
        u32x4::from_array([
            high_half(n),
            high_half(n.wrapping_add(1)),
            high_half(n.wrapping_add(2)),
            high_half(n.wrapping_add(3)),
        ]),
        u32x4::splat(tail[0]),
        u32x4::splat(tail[1]),
    ]
}

// Four vectors as the rows of a square, turned into its columns.
#[inline(always)]
fn transposed(a: u32x4, b: u32x4, c: u32x4, d: u32x4) -> (u32x4, u32x4, u32x4, u32x4)
    ensures { (p q r s : ℕ → ℕ) → a ≡ four p → b ≡ four q → c ≡ four r → d ≡ four s
        → result ≡ rows p q r s }
{
    let (ac_front, ac_back) = a.interleave(c);
    let (bd_front, bd_back) = b.interleave(d);
    let (first, second) = ac_front.interleave(bd_front);
    let (third, fourth) = ac_back.interleave(bd_back);
    (first, second, third, fourth)
}

#[inline(always)]
fn bytes_of(words: u32x4) -> u8x16
    ensures { length words ≡ 4 → Each1 (λ w. w < 2 ^ 32) words → result ≡ serialized words }
{
    words.to_le_bytes()
}

// The bytes of the four blocks from number n on, in vectors of sixteen, one block after another.
#[inline(always)]
pub(super) fn keystream(key: &[u32; 8], tail: &[u32; 2], n: u64) -> [u8x16; 16]
    ensures { result ≡ quarters (λ j. block_bytes (numbered key.now tail.now (n + j))) }
{
    let x = blocks(starts(key, tail, n));
    let (a0, b0, c0, d0) = transposed(x[0], x[1], x[2], x[3]);
    let (a1, b1, c1, d1) = transposed(x[4], x[5], x[6], x[7]);
    let (a2, b2, c2, d2) = transposed(x[8], x[9], x[10], x[11]);
    let (a3, b3, c3, d3) = transposed(x[12], x[13], x[14], x[15]);
    [
        bytes_of(a0),
        bytes_of(a1),
        bytes_of(a2),
        bytes_of(a3),
        bytes_of(b0),
        bytes_of(b1),
        bytes_of(b2),
        bytes_of(b3),
        bytes_of(c0),
        bytes_of(c1),
        bytes_of(c2),
        bytes_of(c3),
        bytes_of(d0),
        bytes_of(d1),
        bytes_of(d2),
        bytes_of(d3),
    ]
}
