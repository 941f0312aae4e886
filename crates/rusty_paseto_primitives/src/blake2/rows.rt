//! The rounds of one block. The work vector is a square of four rows, and each row is two vectors, of its even
//! and of its odd columns.

ghost use Rattle.std.specs.Prelude.{◌≡◌, ◌≤◌, ◌<◌, ◌+◌, ◌*◌, ℕ, List, [], ◌∷◌, IsTrue, length};
ghost use Rattle.rusty_paseto_primitives.specs.Blake2.Block.{all_places, column_step, diagonal_step, round, rounds, word_at, words};
ghost use Rattle.rusty_paseto_primitives.specs.Blake2.Rows.{columns, pair, pairs};
ghost use Rattle.rusty_paseto_primitives.specs.Square.{state_words};

use super::block::SIGMA;
use super::vectors::half_mix;
use std::simd::{u8x16, u64x2};

const VECTOR_LEN: usize = 16;

#[inline(always)]
fn columns_of(v: &[u64; 16]) -> [u64x2; 8]
    ensures { result ≡ columns v.now }
{
    [
        u64x2::from_array([v[0], v[2]]),
        u64x2::from_array([v[1], v[3]]),
        u64x2::from_array([v[4], v[6]]),
        u64x2::from_array([v[5], v[7]]),
        u64x2::from_array([v[8], v[10]]),
        u64x2::from_array([v[9], v[11]]),
        u64x2::from_array([v[12], v[14]]),
        u64x2::from_array([v[13], v[15]]),
    ]
}

#[inline(always)]
fn words_of(v: [u64x2; 8]) -> [u64; 16]
    ensures { (state : List ℕ) → v ≡ columns state → result ≡ state_words state }
{
    let [v0, v2] = v[0].to_array();
    let [v1, v3] = v[1].to_array();
    let [v4, v6] = v[2].to_array();
    let [v5, v7] = v[3].to_array();
    let [v8, v10] = v[4].to_array();
    let [v9, v11] = v[5].to_array();
    let [v12, v14] = v[6].to_array();
    let [v13, v15] = v[7].to_array();
    [
        v0, v1, v2, v3, v4, v5, v6, v7, v8, v9, v10, v11, v12, v13, v14, v15,
    ]
}

// The words 2 k and 2 k + 1 of a block, as they stand in it.
#[inline(always)]
fn pair_at(block: &[u8], k: usize) -> u64x2
    requires { 16 * k + 16 ≤ length block.now }
    ensures { result ≡ word_at block.now (2 * k) ∷ word_at block.now (2 * k + 1) ∷ [] }
{
    let at = VECTOR_LEN * k;
    u64x2::from_le_bytes(u8x16::from_slice(&block[at..at + VECTOR_LEN]))
}

#[inline(always)]
fn pairs_of(block: &[u8]) -> [u64x2; 8]
    requires { length block.now ≡ 128 }
    ensures { result ≡ pairs (words block.now) }
{
    [
        pair_at(block, 0),
        pair_at(block, 1),
        pair_at(block, 2),
        pair_at(block, 3),
        pair_at(block, 4),
        pair_at(block, 5),
        pair_at(block, 6),
        pair_at(block, 7),
    ]
}

// The vector of the words i and j. The places are constants of a caller, so that each is one shuffle.
#[inline(always)]
fn named(m: &[u64x2; 8], i: usize, j: usize) -> u64x2
    requires first { i < 16 }
    requires second { j < 16 }
    ensures { (words : List ℕ) → m.now ≡ pairs words → result ≡ pair words i j }
{
    let first = m[i / 2];
    let second = m[j / 2];
    match (i % 2 == 0, j % 2 == 0) {
        (true, true) => first.shuffle(second, [0, 2]),
        (true, false) => first.shuffle(second, [0, 3]),
        (false, true) => first.shuffle(second, [1, 2]),
        (false, false) => first.shuffle(second, [1, 3]),
    }
}

#[inline(always)]
fn exchanged(v: u64x2) -> u64x2
    ensures { (x y : ℕ) → v ≡ x ∷ y ∷ [] → result ≡ y ∷ x ∷ [] }
{
    v.swizzle([1, 0])
}

// G on each column: the first halves, and then the second halves.
#[inline(always)]
#[tactic(auto, using(crate::proofs::Blake2Rows::place_in_block))]
fn column_step(v: [u64x2; 8], m: &[u64x2; 8], s: [usize; 16]) -> [u64x2; 8]
    requires { IsTrue (all_places s) }
    ensures { (state words : List ℕ) → v ≡ columns state → m.now ≡ pairs words
        → result ≡ columns (column_step state words s) }
{
    let (a0, b0, c0, d0) = half_mix(v[0], v[2], v[4], v[6], named(m, s[0], s[4]), 32, 24);
    let (a1, b1, c1, d1) = half_mix(v[1], v[3], v[5], v[7], named(m, s[2], s[6]), 32, 24);
    let (a0, b0, c0, d0) = half_mix(a0, b0, c0, d0, named(m, s[1], s[5]), 16, 63);
    let (a1, b1, c1, d1) = half_mix(a1, b1, c1, d1, named(m, s[3], s[7]), 16, 63);
    [a0, a1, b0, b1, c0, c1, d0, d1]
}

// The same on each diagonal. The second row stays as it is, since its words come last, and the other rows
// are turned, so that each diagonal is a column.
#[inline(always)]
#[tactic(auto, using(crate::proofs::Blake2Rows::place_in_block))]
fn diagonal_step(v: [u64x2; 8], m: &[u64x2; 8], s: [usize; 16]) -> [u64x2; 8]
    requires { IsTrue (all_places s) }
    ensures { (state words : List ℕ) → v ≡ columns state → m.now ≡ pairs words
        → result ≡ columns (diagonal_step state words s) }
{
    let (a0, c1) = (exchanged(v[1]), exchanged(v[4]));
    let (d0, d1) = (exchanged(v[6]), exchanged(v[7]));
    let (a0, b0, c0, d0) = half_mix(a0, v[2], v[5], d0, named(m, s[14], s[10]), 32, 24);
    let (a1, b1, c1, d1) = half_mix(v[0], v[3], c1, d1, named(m, s[8], s[12]), 32, 24);
    let (a0, b0, c0, d0) = half_mix(a0, b0, c0, d0, named(m, s[15], s[11]), 16, 63);
    let (a1, b1, c1, d1) = half_mix(a1, b1, c1, d1, named(m, s[9], s[13]), 16, 63);
    [
        a1,
        exchanged(a0),
        b0,
        b1,
        exchanged(c1),
        c0,
        exchanged(d0),
        exchanged(d1),
    ]
}

// A round with a row of the message schedule. A caller's row is a constant, so that no table is read
// when it runs.
#[inline(always)]
fn round(v: [u64x2; 8], m: &[u64x2; 8], s: [usize; 16]) -> [u64x2; 8]
    requires { IsTrue (all_places s) }
    ensures { (state words : List ℕ) → v ≡ columns state → m.now ≡ pairs words
        → result ≡ columns (round state words s) }
{
    diagonal_step(column_step(v, m, s), m, s)
}

// The work vector after the twelve rounds with the words of a block (section 3.2).
#[inline(always)]
pub(super) fn twelve_rounds(v: [u64; 16], block: &[u8]) -> [u64; 16]
    requires { length block.now ≡ 128 }
    ensures { result ≡ rounds v (words block.now) 12 }
{
    let m = pairs_of(block);
    let v = columns_of(&v);
    let v = round(v, &m, SIGMA[0]);
    let v = round(v, &m, SIGMA[1]);
    let v = round(v, &m, SIGMA[2]);
    let v = round(v, &m, SIGMA[3]);
    let v = round(v, &m, SIGMA[4]);
    let v = round(v, &m, SIGMA[5]);
    let v = round(v, &m, SIGMA[6]);
    let v = round(v, &m, SIGMA[7]);
    let v = round(v, &m, SIGMA[8]);
    let v = round(v, &m, SIGMA[9]);
    let v = round(v, &m, SIGMA[0]);
    let v = round(v, &m, SIGMA[1]);
    words_of(v)
}
