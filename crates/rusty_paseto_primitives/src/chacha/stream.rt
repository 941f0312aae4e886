//! The keystream of XChaCha20, block after block.

ghost use Rattle.std.specs.Prelude.{◌≡◌, ◌+◌, ◌*◌, ◌%◌, ◌≤◌, length, take};
ghost use Rattle.rusty_paseto_primitives.specs.Keystream.{xored, xored_from, stream_of_blocks};
ghost use Rattle.rusty_paseto_primitives.specs.ChaCha.Block.{block_bytes, key_words};
ghost use Rattle.rusty_paseto_primitives.specs.ChaCha.Stream.{numbered, tail_words, xchacha20_stream};
ghost use Rattle.rusty_paseto_primitives.specs.ChaCha.Subkey.{hchacha20};

use crate::chacha::block::{self, high_half, low_half};
use crate::chacha::lanes;
use crate::chacha::subkey::hchacha20;
use crate::keystream::{apply_by_vectors, apply_keystream};

const BLOCK_LEN: usize = 64;

// Four blocks.
const GROUP_LEN: usize = 256;

// The words of the subkey, by which all blocks are made.
fn subkey_words(key: &[u8; 32], nonce: &[u8; 24]) -> [u32; 8]
    ensures { result ≡ key_words (hchacha20 key.now (take 16 nonce.now)) }
{
    let mut front = [0u8; 16];
    front.copy_from_slice(&nonce[..16]);
    block::load_key(&hchacha20(key, &front))
}

fn tail_words(nonce: &[u8; 24]) -> [u32; 2]
    ensures { result ≡ tail_words nonce.now }
{
    [block::load_word(nonce, 16), block::load_word(nonce, 20)]
}

#[inline(always)]
fn block_at(key: &[u32; 8], tail: &[u32; 2], n: u64) -> [u8; 64]
    ensures { result ≡ block_bytes (numbered key.now tail.now n) }
{
    block::block_bytes(block::start_words(*key, low_half(n), high_half(n), tail[0], tail[1]))
}

// Masks whole groups of four blocks, from block number `first` on.
fn apply_groups(key: &[u32; 8], tail: &[u32; 2], first: u64, data: &mut [u8])
    requires { length «data».old % 256 ≡ 0 }
    ensures { «data».new ≡ xored (stream_of_blocks 64
        (λ n. block_bytes (numbered key.now tail.now (first + n)))) «data».old }
{
    'groups: for g in 0..data.len() / GROUP_LEN {
        let at = GROUP_LEN * g;
        let number = first.wrapping_add(4 * g as u64);
        let keystream = lanes::keystream(key, tail, number);
        apply_by_vectors(&mut data[at..at + GROUP_LEN], &keystream);
    }
}

// Masks no more than a group, from block number `first` on. Four blocks by lanes cost less than two
// one after the other.
fn apply_rest(key: &[u32; 8], tail: &[u32; 2], first: u64, data: &mut [u8])
    requires { length «data».old ≤ 256 }
    ensures { «data».new ≡ xored (stream_of_blocks 64
        (λ n. block_bytes (numbered key.now tail.now (first + n)))) «data».old }
{
    if data.is_empty() {
        return;
    }
    if data.len() <= BLOCK_LEN {
        apply_keystream(data, &block_at(key, tail, first));
        return;
    }
    let vectors = lanes::keystream(key, tail, first);
    let mut bytes = [0u8; GROUP_LEN];
    apply_by_vectors(&mut bytes, &vectors);
    apply_keystream(data, &bytes);
}

/// Encrypts or decrypts `data`, in place, with XChaCha20: the byte-wise exclusive or with the keystream from its start
/// (draft-irtf-cfrg-xchacha, section 2.3). `data` may have any length.
///
/// **Nothing is authenticated**: a modified ciphertext decrypts to a modified text, without an error. Never encrypt two
/// texts with the same key and nonce: the exclusive or of the two ciphertexts is that of the texts. To encrypt tokens,
/// use `Paseto` of `rusty_paseto_core`.
///
/// Block numbers have 64 bits, in words 12 and 13 of a block, so no data is too long for the keystream.
pub fn xchacha20_apply(key: &[u8; 32], nonce: &[u8; 24], data: &mut [u8])
    ensures { «data».new ≡ xored (xchacha20_stream key.now nonce.now) «data».old }
{
    xchacha20_apply_from(key, nonce, 0, data);
}

/// The same as [`xchacha20_apply`], with the keystream from block number `first_block` on, that is from byte `64 *
/// first_block`: for protocols that use the first blocks otherwise, as XChaCha20-Poly1305 uses block 0 (RFC 8439,
/// section 2.8).
///
/// The block after number 2^64 - 1 is block 0 again.
///
/// ```rust
/// use rusty_paseto_primitives::{xchacha20_apply, xchacha20_apply_from};
///
/// /// Encrypts a text from block 1 on, and answers the one-time key, which stands in block 0.
/// pub fn encrypt(key: &[u8; 32], nonce: &[u8; 24], text: &mut [u8]) -> [u8; 32] {
///     let mut one_time_key = [0u8; 32];
///     xchacha20_apply(key, nonce, &mut one_time_key);
///     xchacha20_apply_from(key, nonce, 1, text);
///     one_time_key
/// }
/// ```
pub fn xchacha20_apply_from(key: &[u8; 32], nonce: &[u8; 24], first_block: u64, data: &mut [u8])
    ensures { «data».new ≡ xored_from (xchacha20_stream key.now nonce.now)
        (64 * first_block) «data».old }
{
    let subkey = subkey_words(key, nonce);
    let tail = tail_words(nonce);
    let group_count = data.len() / GROUP_LEN;
    let end = GROUP_LEN * group_count;
    apply_groups(&subkey, &tail, first_block, &mut data[..end]);
    let rest = first_block.wrapping_add(4 * group_count as u64);
    apply_rest(&subkey, &tail, rest, &mut data[end..]);
}
