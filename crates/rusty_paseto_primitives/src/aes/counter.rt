//! The counter mode of AES with a key of 256 bits (SP 800-38A, section 6.5).

ghost use Rattle.std.specs.Prelude.{◌≡◌, ℕ, ◌+◌, ◌%◌, ◌^◌, ◌≤◌, List, length};
ghost use Rattle.std.specs.Int.{w128, to_be_bytes};
ghost use Rattle.rusty_paseto_primitives.specs.Bytes.{IsBytes};
ghost use Rattle.rusty_paseto_primitives.specs.Keystream.{xored, stream_of_blocks};
ghost use Rattle.rusty_paseto_primitives.specs.Aes.Cipher.{cipher};
ghost use Rattle.rusty_paseto_primitives.specs.Aes.Counter.{aes256_ctr_stream};
ghost use Rattle.rusty_paseto_primitives.specs.Aes.Planes.{AreRoundKeys};

use crate::aes::group::{keystream, round_keys};
use crate::aes::key_schedule::key_expansion;
use crate::keystream::{apply_by_vectors, apply_keystream};
use std::simd::u8x16;

// Eight blocks.
const GROUP_LEN: usize = 128;

// Masks whole groups of eight blocks, from the counter `start` on.
fn apply_groups(keys: &[[u8x16; 8]; 15], start: u128, data: &mut [u8])
    requires { length «data».old % 128 ≡ 0 }
    ensures { (w : List ℕ) → IsBytes w → AreRoundKeys keys.now w
        → «data».new ≡ xored (stream_of_blocks 16
        (λ n. cipher w (to_be_bytes w128 ((start + n) % 2 ^ 128)))) «data».old }
{
    'groups: for g in 0..data.len() / GROUP_LEN {
        let at = GROUP_LEN * g;
        let vectors = keystream(keys, start.wrapping_add(8 * g as u128));
        apply_by_vectors(&mut data[at..at + GROUP_LEN], &vectors);
    }
}

// Masks less than a group, from the counter `start` on.
fn apply_rest(keys: &[[u8x16; 8]; 15], start: u128, data: &mut [u8])
    requires { length «data».old ≤ 128 }
    ensures { (w : List ℕ) → IsBytes w → AreRoundKeys keys.now w
        → «data».new ≡ xored (stream_of_blocks 16
        (λ n. cipher w (to_be_bytes w128 ((start + n) % 2 ^ 128)))) «data».old }
{
    if data.is_empty() {
        return;
    }
    let vectors = keystream(keys, start);
    let mut bytes = [0u8; GROUP_LEN];
    apply_by_vectors(&mut bytes, &vectors);
    apply_keystream(data, &bytes);
}

/// Encrypts or decrypts `data`, in place, with AES with a key of 256 bits in counter mode: the byte-wise exclusive or
/// with the keystream (SP 800-38A, section 6.5). `data` may have any length.
///
/// **Nothing is authenticated**: a modified ciphertext decrypts to a modified text, without an error. Never encrypt two
/// texts with the same key and overlapping ranges of counters: the exclusive or of the two ciphertexts is that of the
/// texts. To encrypt tokens, use `Paseto` of `rusty_paseto_core`.
///
/// `counter` is the first counter block. It is one number of 128 bits, most significant byte first, which increases by
/// one from block to block, and wraps to 0.
pub fn aes256_ctr_apply(key: &[u8; 32], counter: &[u8; 16], data: &mut [u8])
    ensures { «data».new ≡ xored (aes256_ctr_stream key.now counter.now) «data».old }
{
    let keys = round_keys(&key_expansion(key));
    let start = u128::from_be_bytes(*counter);
    let group_count = data.len() / GROUP_LEN;
    let end = GROUP_LEN * group_count;
    apply_groups(&keys, start, &mut data[..end]);
    let next = start.wrapping_add(8 * group_count as u128);
    apply_rest(&keys, next, &mut data[end..]);
}
