//! BLAKE2b of a message in one call (RFC 7693).

ghost use Rattle.std.specs.Prelude.{◌≡◌, ◌↔◌, ◌≤◌, IsTrue, length};
ghost use Rattle.rusty_paseto_primitives.specs.Blake2.Keyed.{blake2b};

use super::block::{BLOCK_LEN, compress, front_bytes, initial_hash, zero_padded};
use super::hasher::Blake2b;

/// The BLAKE2b hash of `message`, of `N` bytes, 1 to 64, under a key of up to 64 bytes (RFC 7693). The
/// empty key makes the hash without a key.
pub fn blake2b_keyed<const N: usize>(key: &[u8], message: &[u8]) -> [u8; N]
    requires key_len { length key.now ≤ 64 }
    requires low { 1 ≤ N }
    requires high { N ≤ 64 }
    ensures { result ≡ blake2b key.now N message.now }
{
    if !key.is_empty() && is_one_block(message) {
        return of_two_blocks(key, message);
    }
    let mut hasher = Blake2b::new(key, N);
    hasher.update(message);
    let mut digest = [0; N];
    hasher.finalize_into(&mut digest);
    digest
}

// Whether a message has bytes, and one block holds them.
#[inline(always)]
pub(super) fn is_one_block(message: &[u8]) -> bool
    ensures { IsTrue result ↔ ((1 ≤ length message.now) × (length message.now ≤ 128)) }
{
    !message.is_empty() && message.len() <= BLOCK_LEN
}

// The hash where the key's block and one more are all blocks, so that no hasher has to hold any back.
fn of_two_blocks<const N: usize>(key: &[u8], message: &[u8]) -> [u8; N]
    requires key { 1 ≤ length key.now }
    requires key_len { length key.now ≤ 64 }
    requires message { 1 ≤ length message.now }
    requires message_len { length message.now ≤ 128 }
    requires high { N ≤ 64 }
    ensures { result ≡ blake2b key.now N message.now }
{
    let mut hash = initial_hash(N, key.len());
    compress(&mut hash, &zero_padded(key), BLOCK_LEN as u128, false);
    let end = BLOCK_LEN + message.len();
    compress(&mut hash, &zero_padded(message), end as u128, true);
    front_bytes(&hash)
}
