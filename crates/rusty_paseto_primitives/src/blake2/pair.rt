//! BLAKE2b of two messages under one key, both at once (RFC 7693).

ghost use Rattle.std.specs.Prelude.{◌≡◌, ℕ, ◌≤◌, List, length};
ghost use Rattle.rusty_paseto_primitives.specs.Blake2.Keyed.{blake2b, final_hash, keyed_input};
ghost use Rattle.rusty_paseto_primitives.specs.Blake2.Lanes.{both, hash_lanes};

use super::block::{BLOCK_LEN, front_bytes, initial_hash, words, zero_padded};
use super::keyed::{blake2b_keyed, is_one_block};
use super::lanes::{compress, hash_in_lane, hashes_side_by_side, words_side_by_side};
use std::simd::u64x2;

/// The BLAKE2b hashes of two messages under one key of up to 64 bytes, the first of `N` bytes and the
/// second of `M`, each 1 to 64 (RFC 7693). They are those of `blake2b_keyed`. If there is a key, and each message has 1
/// to 128 bytes, both are computed at once.
pub fn blake2b_keyed_pair<const N: usize, const M: usize>(
    key: &[u8],
    first: &[u8],
    second: &[u8],
) -> ([u8; N], [u8; M])
    requires key_len { length key.now ≤ 64 }
    requires first_low { 1 ≤ N }
    requires first_high { N ≤ 64 }
    requires second_low { 1 ≤ M }
    requires second_high { M ≤ 64 }
    ensures first { result.0 ≡ blake2b key.now N first.now }
    ensures second { result.1 ≡ blake2b key.now M second.now }
{
    if !key.is_empty() && is_one_block(first) && is_one_block(second) {
        return of_two_blocks_each(key, first, second);
    }
    (blake2b_keyed(key, first), blake2b_keyed(key, second))
}

// Both hashes, where the key's block and one more are all blocks of each.
fn of_two_blocks_each<const N: usize, const M: usize>(
    key: &[u8],
    first: &[u8],
    second: &[u8],
) -> ([u8; N], [u8; M])
    requires key { 1 ≤ length key.now }
    requires key_len { length key.now ≤ 64 }
    requires first { 1 ≤ length first.now }
    requires first_len { length first.now ≤ 128 }
    requires second { 1 ≤ length second.now }
    requires second_len { length second.now ≤ 128 }
    requires first_high { N ≤ 64 }
    requires second_high { M ≤ 64 }
    ensures first { result.0 ≡ blake2b key.now N first.now }
    ensures second { result.1 ≡ blake2b key.now M second.now }
{
    let start = hashes_side_by_side(&initial_hash(N, key.len()), &initial_hash(M, key.len()));
    let hashes = final_hashes(start, key, first, second);
    (
        front_bytes(&hash_in_lane(&hashes, 0)),
        front_bytes(&hash_in_lane(&hashes, 1)),
    )
}

// The hash values in lanes after the key's block and the message of each.
fn final_hashes(start: [u64x2; 8], key: &[u8], first: &[u8], second: &[u8]) -> [u64x2; 8]
    requires key { 1 ≤ length key.now }
    requires key_len { length key.now ≤ 64 }
    requires first { 1 ≤ length first.now }
    requires first_len { length first.now ≤ 128 }
    requires second { 1 ≤ length second.now }
    requires second_len { length second.now ≤ 128 }
    ensures { (values : ℕ → List ℕ) → start ≡ hash_lanes values
        → result ≡ hash_lanes (λ j. final_hash (values j)
        (keyed_input key.now (both first.now second.now j))) }
{
    let mut hashes = start;
    let block_len = BLOCK_LEN as u64;
    let key_words = words(&zero_padded(key));
    let key_blocks = words_side_by_side(&key_words, &key_words);
    compress(&mut hashes, &key_blocks, [block_len, block_len], false);
    let ends = [
        block_len + first.len() as u64,
        block_len + second.len() as u64,
    ];
    let messages = words_side_by_side(&words(&zero_padded(first)), &words(&zero_padded(second)));
    compress(&mut hashes, &messages, ends, true);
    hashes
}
