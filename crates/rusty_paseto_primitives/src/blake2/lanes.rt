//! Two blocks at once, each of a hash of its own: each word of their states is a vector, with one lane
//! for each hash.

ghost use Rattle.std.specs.Prelude.{◌≡◌, ℕ, ◌<◌, List, IsTrue, slice_index};
ghost use Rattle.rusty_paseto_primitives.specs.Blake2.Block.{all_places, column_step, compress, diagonal_step, folded, round, words, work_vector};
ghost use Rattle.rusty_paseto_primitives.specs.Blake2.Lanes.{both, hash_lanes, hash_words, lanes};

use super::block::{IV, SIGMA};
use super::vectors::half_mix;
use std::simd::u64x2;

#[inline(always)]
#[tactic(auto, using(crate::proofs::Blake2Rows::place_in_block))]
fn column_step(v: [u64x2; 16], m: &[u64x2; 16], s: [usize; 16]) -> [u64x2; 16]
    requires { IsTrue (all_places s) }
    ensures { (states messages : ℕ → List ℕ) → v ≡ lanes states → m.now ≡ lanes messages
        → result ≡ lanes (λ j. column_step (states j) (messages j) s) }
{
    let (a0, b0, c0, d0) = half_mix(v[0], v[4], v[8], v[12], m[s[0]], 32, 24);
    let (a1, b1, c1, d1) = half_mix(v[1], v[5], v[9], v[13], m[s[2]], 32, 24);
    let (a2, b2, c2, d2) = half_mix(v[2], v[6], v[10], v[14], m[s[4]], 32, 24);
    let (a3, b3, c3, d3) = half_mix(v[3], v[7], v[11], v[15], m[s[6]], 32, 24);
    let (v0, v4, v8, v12) = half_mix(a0, b0, c0, d0, m[s[1]], 16, 63);
    let (v1, v5, v9, v13) = half_mix(a1, b1, c1, d1, m[s[3]], 16, 63);
    let (v2, v6, v10, v14) = half_mix(a2, b2, c2, d2, m[s[5]], 16, 63);
    let (v3, v7, v11, v15) = half_mix(a3, b3, c3, d3, m[s[7]], 16, 63);
    [
        v0, v1, v2, v3, v4, v5, v6, v7, v8, v9, v10, v11, v12, v13, v14, v15,
    ]
}

#[inline(always)]
#[tactic(auto, using(crate::proofs::Blake2Rows::place_in_block))]
fn diagonal_step(v: [u64x2; 16], m: &[u64x2; 16], s: [usize; 16]) -> [u64x2; 16]
    requires { IsTrue (all_places s) }
    ensures { (states messages : ℕ → List ℕ) → v ≡ lanes states → m.now ≡ lanes messages
        → result ≡ lanes (λ j. diagonal_step (states j) (messages j) s) }
{
    let (a0, b0, c0, d0) = half_mix(v[0], v[5], v[10], v[15], m[s[8]], 32, 24);
    let (a1, b1, c1, d1) = half_mix(v[1], v[6], v[11], v[12], m[s[10]], 32, 24);
    let (a2, b2, c2, d2) = half_mix(v[2], v[7], v[8], v[13], m[s[12]], 32, 24);
    let (a3, b3, c3, d3) = half_mix(v[3], v[4], v[9], v[14], m[s[14]], 32, 24);
    let (v0, v5, v10, v15) = half_mix(a0, b0, c0, d0, m[s[9]], 16, 63);
    let (v1, v6, v11, v12) = half_mix(a1, b1, c1, d1, m[s[11]], 16, 63);
    let (v2, v7, v8, v13) = half_mix(a2, b2, c2, d2, m[s[13]], 16, 63);
    let (v3, v4, v9, v14) = half_mix(a3, b3, c3, d3, m[s[15]], 16, 63);
    [
        v0, v1, v2, v3, v4, v5, v6, v7, v8, v9, v10, v11, v12, v13, v14, v15,
    ]
}

#[inline(always)]
fn round(v: [u64x2; 16], m: &[u64x2; 16], s: [usize; 16]) -> [u64x2; 16]
    requires { IsTrue (all_places s) }
    ensures { (states messages : ℕ → List ℕ) → v ≡ lanes states → m.now ≡ lanes messages
        → result ≡ lanes (λ j. round (states j) (messages j) s) }
{
    diagonal_step(column_step(v, m, s), m, s)
}

// `offsets` are below 2^64, so that their high words are 0.
#[inline(always)]
fn work_vectors(hashes: &[u64x2; 8], offsets: [u64; 2], is_last: bool) -> [u64x2; 16]
    ensures { (values : ℕ → List ℕ) → hashes.now ≡ hash_lanes values
        → result ≡ lanes (λ j. work_vector (values j) (slice_index offsets j) is_last) }
{
    let flag = if is_last { u64::MAX } else { 0 };
    [
        hashes[0],
        hashes[1],
        hashes[2],
        hashes[3],
        hashes[4],
        hashes[5],
        hashes[6],
        hashes[7],
        u64x2::splat(IV[0]),
        u64x2::splat(IV[1]),
        u64x2::splat(IV[2]),
        u64x2::splat(IV[3]),
        u64x2::from_array([IV[4] ^ offsets[0], IV[4] ^ offsets[1]]),
        u64x2::splat(IV[5]),
        u64x2::splat(IV[6] ^ flag),
        u64x2::splat(IV[7]),
    ]
}

#[inline(always)]
fn folded(hashes: &[u64x2; 8], v: &[u64x2; 16]) -> [u64x2; 8]
    ensures { (values states : ℕ → List ℕ) → hashes.now ≡ hash_lanes values → v.now ≡ lanes states
        → result ≡ hash_lanes (λ j. folded (values j) (states j)) }
{
    [
        hashes[0] ^ v[0] ^ v[8],
        hashes[1] ^ v[1] ^ v[9],
        hashes[2] ^ v[2] ^ v[10],
        hashes[3] ^ v[3] ^ v[11],
        hashes[4] ^ v[4] ^ v[12],
        hashes[5] ^ v[5] ^ v[13],
        hashes[6] ^ v[6] ^ v[14],
        hashes[7] ^ v[7] ^ v[15],
    ]
}

// Takes the words of a block into each lane's hash value. `offsets` are the numbers of bytes up to the
// blocks' ends.
pub(super) fn compress(hashes: &mut [u64x2; 8], m: &[u64x2; 16], offsets: [u64; 2], is_last: bool)
    ensures { (values blocks : ℕ → List ℕ) → hashes.old ≡ hash_lanes values → m.now ≡ lanes
        (λ j. words (blocks j))
        → hashes.new ≡ hash_lanes (λ j. compress (values j) (blocks j)
        (slice_index offsets j) is_last) }
{
    let v = work_vectors(hashes, offsets, is_last);
    let v = round(v, m, SIGMA[0]);
    let v = round(v, m, SIGMA[1]);
    let v = round(v, m, SIGMA[2]);
    let v = round(v, m, SIGMA[3]);
    let v = round(v, m, SIGMA[4]);
    let v = round(v, m, SIGMA[5]);
    let v = round(v, m, SIGMA[6]);
    let v = round(v, m, SIGMA[7]);
    let v = round(v, m, SIGMA[8]);
    let v = round(v, m, SIGMA[9]);
    let v = round(v, m, SIGMA[0]);
    let v = round(v, m, SIGMA[1]);
    *hashes = folded(hashes, &v);
}

// The words of two blocks in lanes.
#[inline(always)]
pub(super) fn words_side_by_side(first: &[u64; 16], second: &[u64; 16]) -> [u64x2; 16]
    ensures { result ≡ lanes (both first.now second.now) }
{
    [
        u64x2::from_array([first[0], second[0]]),
        u64x2::from_array([first[1], second[1]]),
        u64x2::from_array([first[2], second[2]]),
        u64x2::from_array([first[3], second[3]]),
        u64x2::from_array([first[4], second[4]]),
        u64x2::from_array([first[5], second[5]]),
        u64x2::from_array([first[6], second[6]]),
        u64x2::from_array([first[7], second[7]]),
        u64x2::from_array([first[8], second[8]]),
        u64x2::from_array([first[9], second[9]]),
        u64x2::from_array([first[10], second[10]]),
        u64x2::from_array([first[11], second[11]]),
        u64x2::from_array([first[12], second[12]]),
        u64x2::from_array([first[13], second[13]]),
        u64x2::from_array([first[14], second[14]]),
        u64x2::from_array([first[15], second[15]]),
    ]
}

// Two hash values in lanes.
#[inline(always)]
pub(super) fn hashes_side_by_side(first: &[u64; 8], second: &[u64; 8]) -> [u64x2; 8]
    ensures { result ≡ hash_lanes (both first.now second.now) }
{
    [
        u64x2::from_array([first[0], second[0]]),
        u64x2::from_array([first[1], second[1]]),
        u64x2::from_array([first[2], second[2]]),
        u64x2::from_array([first[3], second[3]]),
        u64x2::from_array([first[4], second[4]]),
        u64x2::from_array([first[5], second[5]]),
        u64x2::from_array([first[6], second[6]]),
        u64x2::from_array([first[7], second[7]]),
    ]
}

// The hash value in lane `j`.
#[inline(always)]
pub(super) fn hash_in_lane(hashes: &[u64x2; 8], j: usize) -> [u64; 8]
    requires { j < 2 }
    ensures { (values : ℕ → List ℕ) → hashes.now ≡ hash_lanes values → result ≡ hash_words
        (values j) }
{
    [
        hashes[0].to_array()[j],
        hashes[1].to_array()[j],
        hashes[2].to_array()[j],
        hashes[3].to_array()[j],
        hashes[4].to_array()[j],
        hashes[5].to_array()[j],
        hashes[6].to_array()[j],
        hashes[7].to_array()[j],
    ]
}
