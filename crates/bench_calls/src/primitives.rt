//! The primitives, each many times over.
//!
//! Each call answers 2^64 - 1 where a length is not one that its primitive has.

ghost use Rattle.std.specs.Prelude.{◌≡◌, ◌≢◌, ◌^◌, ◌-◌};
ghost use Rattle.rusty_paseto_primitives.specs.Blake2.Keyed.{blake2b};
ghost use Rattle.rusty_paseto_primitives.specs.Hmac.{hmac};

use rusty_paseto_primitives::{aes256_ctr_apply, blake2b_keyed, hmac_sha384, xchacha20_apply};

/// What is answered where a length is wrong.
const FAILED: u64 = u64::MAX;

/// Hashes `message` by BLAKE2b with 32 bytes of output, `reps` times and at least once. The last
/// digest is made under the key of 32 bytes as it is, and each other one with the number of the
/// repetition in the key's first four bytes. The answer is the sum of the digests' first bytes.
pub fn bench_blake2b(key: &[u8], message: &[u8], digest: &mut [u8], reps: u32) -> u64
    ensures { result ≢ 2 ^ 64 - 1 → digest.new ≡ blake2b key.now 32 message.now }
{
    let (Some(key), 32) = (key.as_array::<32>(), digest.len()) else {
        return FAILED;
    };
    let mut sum = 0u64;
    let mut numbered = *key;
    'repetitions: for repetition in 1..reps {
        numbered[..4].copy_from_slice(&repetition.to_le_bytes());
        let made: [u8; 32] = blake2b_keyed(&numbered, message);
        sum = sum.wrapping_add(made[0] as u64);
    }
    let last: [u8; 32] = blake2b_keyed(key, message);
    digest.copy_from_slice(&last);
    sum.wrapping_add(last[0] as u64)
}

/// Makes the HMAC-SHA384 code of `message` as `bench_blake2b` makes its digest, under a key of
/// 48 bytes and with 48 bytes of output.
pub fn bench_hmac_sha384(key: &[u8], message: &[u8], code: &mut [u8], reps: u32) -> u64
    ensures { result ≢ 2 ^ 64 - 1 → code.new ≡ hmac key.now message.now }
{
    let (Some(key), 48) = (key.as_array::<48>(), code.len()) else {
        return FAILED;
    };
    let mut sum = 0u64;
    let mut numbered = *key;
    'repetitions: for repetition in 1..reps {
        numbered[..4].copy_from_slice(&repetition.to_le_bytes());
        let made = hmac_sha384(&numbered, message);
        sum = sum.wrapping_add(made[0] as u64);
    }
    let last = hmac_sha384(key, message);
    code.copy_from_slice(&last);
    sum.wrapping_add(last[0] as u64)
}

/// Encrypts `data` in place by XChaCha20, `reps` times, under a key of 32 bytes and a nonce of 24 with
/// the number of the repetition in its first four. The answer is 0.
pub fn bench_xchacha20(key: &[u8], nonce: &[u8], data: &mut [u8], reps: u32) -> u64 {
    let (Some(key), Some(nonce)) = (key.as_array::<32>(), nonce.as_array::<24>()) else {
        return FAILED;
    };
    let mut numbered = *nonce;
    'repetitions: for repetition in 0..reps {
        numbered[..4].copy_from_slice(&repetition.to_le_bytes());
        xchacha20_apply(key, &numbered, data);
    }
    0
}

/// Encrypts `data` in place by AES-256 in counter mode, `reps` times, under a key of 32 bytes and from
/// a counter of 16 with the number of the repetition in its first four. The answer is 0.
pub fn bench_aes256_ctr(key: &[u8], counter: &[u8], data: &mut [u8], reps: u32) -> u64 {
    let (Some(key), Some(counter)) = (key.as_array::<32>(), counter.as_array::<16>()) else {
        return FAILED;
    };
    let mut numbered = *counter;
    'repetitions: for repetition in 0..reps {
        numbered[..4].copy_from_slice(&repetition.to_le_bytes());
        aes256_ctr_apply(key, &numbered, data);
    }
    0
}
