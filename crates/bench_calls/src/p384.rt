//! Signatures of version 3, and secrets that are shared by its keys, each call many times over.
//!
//! Each call answers 2^64 - 1 where a length is not one that it has, or the scheme refused.

ghost use Rattle.std.specs.Prelude.{◌≡◌, ◌≢◌, ◌^◌, ◌-◌, Some};
ghost use Rattle.paseto_p384.specs.Agreement.{p384_shared};
ghost use Rattle.paseto_p384.specs.P384.{P384Verifies, p384_public, p384_sign};

use paseto_p384::P384;
use rusty_paseto_core::{CompressedKey, SignatureScheme};
use std::alloc::Global;

/// What is answered where a length is wrong or the scheme refused.
const FAILED: u64 = u64::MAX;

/// Makes the public key of 49 bytes of a private key of 48, `reps` times and at least once. The last is that of the
/// private key as it is, and each other one that of the key with the number of the repetition in its last four
/// bytes. The answer is the sum of the public keys' last bytes.
pub fn bench_p384_public_key(alloc: Global, private: &[u8], public: &mut [u8], reps: u32) -> u64
    ensures { result ≢ 2 ^ 64 - 1 → public.new ≡ p384_public private.now }
{
    let (Some(private), 49) = (private.as_array::<48>(), public.len()) else {
        return FAILED;
    };
    let mut sum = 0u64;
    let mut numbered = *private;
    'repetitions: for repetition in 1..reps {
        numbered[44..].copy_from_slice(&repetition.to_le_bytes());
        match P384.public_key(alloc, &numbered) {
            Ok(made) => sum = sum.wrapping_add(made[48] as u64),
            Err(_) => return FAILED,
        }
    }
    match P384.public_key(alloc, private) {
        Ok(last) => {
            public.copy_from_slice(&last);
            sum.wrapping_add(last[48] as u64) % FAILED
        }
        Err(_) => FAILED,
    }
}

/// Signs `message` under a private key of 48 bytes, `reps` times and at least once, as
/// `bench_p384_public_key` makes its keys. The answer is 0.
pub fn bench_p384_sign(
    alloc: Global,
    private: &[u8],
    message: &[u8],
    signature: &mut [u8],
    reps: u32,
) -> u64
    ensures { result ≢ 2 ^ 64 - 1 → p384_sign private.now message.now ≡ Some signature.new }
{
    let (Some(private), 96) = (private.as_array::<48>(), signature.len()) else {
        return FAILED;
    };
    let mut numbered = *private;
    'repetitions: for repetition in 1..reps {
        numbered[44..].copy_from_slice(&repetition.to_le_bytes());
        match P384.sign(alloc, &numbered, message) {
            Ok(made) => signature.copy_from_slice(&made),
            Err(_) => return FAILED,
        }
    }
    match P384.sign(alloc, private, message) {
        Ok(last) => {
            signature.copy_from_slice(&last);
            0
        }
        Err(_) => FAILED,
    }
}

/// Makes the secret of 48 bytes that a private key of 48 and a public key of 49 share, `reps` times and at least once, as
/// `bench_p384_public_key` makes its keys. The answer is the sum of the secrets' last bytes.
pub fn bench_p384_shared_secret(private: &[u8], public: &[u8], shared: &mut [u8], reps: u32) -> u64
    ensures { result ≢ 2 ^ 64 - 1 → p384_shared private.now public.now ≡ Some shared.new }
{
    let (Some(private), Some(public), 48) = (
        private.as_array::<48>(),
        public.as_array::<49>(),
        shared.len(),
    ) else {
        return FAILED;
    };
    let mut sum = 0u64;
    let mut numbered = *private;
    'repetitions: for repetition in 1..reps {
        numbered[44..].copy_from_slice(&repetition.to_le_bytes());
        match P384::shared_secret(&numbered, public) {
            Ok(made) => sum = sum.wrapping_add(made[47] as u64),
            Err(_) => return FAILED,
        }
    }
    match P384::shared_secret(private, public) {
        Ok(last) => {
            shared.copy_from_slice(&last);
            sum.wrapping_add(last[47] as u64) % FAILED
        }
        Err(_) => FAILED,
    }
}

/// Verifies a signature of 96 bytes under a public key, `reps` times and at least once. The last is the signature as
/// it is, and each other one has the number of the repetition in its last four bytes. The answer is how many are
/// valid.
pub fn bench_p384_verify(
    alloc: Global,
    public: &[u8],
    message: &[u8],
    signature: &[u8],
    reps: u32,
) -> u64
    ensures { result ≢ 2 ^ 64 - 1 → P384Verifies public.now message.now signature.now }
{
    let Some(signature) = signature.as_array::<96>() else {
        return FAILED;
    };
    let mut valid = 0u64;
    let mut numbered = *signature;
    'repetitions: for repetition in 1..reps {
        numbered[92..].copy_from_slice(&repetition.to_le_bytes());
        if P384.verify(alloc, public, message, &numbered).is_ok() {
            valid = valid.wrapping_add(1);
        }
    }
    match P384.verify(alloc, public, message, signature) {
        Ok(()) => valid.wrapping_add(1) % FAILED,
        Err(_) => FAILED,
    }
}
