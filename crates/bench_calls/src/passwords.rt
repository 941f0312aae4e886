//! Keys of passwords, each many times over.

ghost use Rattle.std.specs.Prelude.{◌≡◌, ◌≢◌, ◌^◌, ◌-◌, [], IsSome, length};
ghost use Rattle.paseto_argon2.specs.Derivation.{argon2id};
ghost use Rattle.rusty_paseto_primitives.specs.Pbkdf2.{derived_key};
ghost use Rattle.bench_calls.specs.Passwords.{argon2_cost};

use crate::copying::last_byte;
use paseto_argon2::{Parameters, argon2id};
use rusty_paseto_primitives::pbkdf2_sha384;
use std::alloc::Global;

/// What is answered where something is not allowed or memory was refused.
const FAILED: u64 = u64::MAX;

/// What a key costs: 64 MiB, filled twice, which is the least that libsodium names.
const COST: Parameters = Parameters {
    memory: 65_536,
    passes: 2,
    lanes: 1,
};

/// Fills `key` with the key of a password by Argon2id, `reps` times and at least once, with 64 MiB and two passes.
///
/// The answer is the sum of the keys' last bytes, or 2^64 - 1 where a length is not allowed or memory was refused.
pub fn bench_argon2id(alloc: Global, password: &[u8], salt: &[u8], key: &mut [u8], reps: u32) -> u64
    ensures { result ≢ 2 ^ 64 - 1
        → key.new ≡ argon2id password.now salt.now [] [] argon2_cost (length key.old) }
{
    derive_often(alloc, password, salt, key, reps).unwrap_or(FAILED)
}

/// Fills `key`, which has 48 bytes, with the key of a password by PBKDF2 with so many iterations, `reps` times and at
/// least once. The answer is the sum of the keys' last bytes, or 2^64 - 1 where the key has another length.
pub fn bench_pbkdf2(password: &[u8], salt: &[u8], iterations: u32, key: &mut [u8], reps: u32) -> u64
    ensures { result ≢ 2 ^ 64 - 1 → key.new ≡ derived_key password.now salt.now iterations 48 }
{
    if key.len() != 48 {
        return FAILED;
    }
    let mut sum = 0u64;
    'repetitions: for _ in 1..reps {
        sum = sum.wrapping_add(pbkdf2_sha384(password, salt, iterations)[47] as u64);
    }
    let last = pbkdf2_sha384(password, salt, iterations);
    key.copy_from_slice(&last);
    sum.wrapping_add(last[47] as u64) % FAILED
}

/// Derives it `reps` times, and at least once, and adds up the last bytes.
fn derive_often(
    alloc: Global,
    password: &[u8],
    salt: &[u8],
    key: &mut [u8],
    reps: u32,
) -> Option<u64>
    ensures { IsSome result
        → key.new ≡ argon2id password.now salt.now [] [] argon2_cost (length key.old) }
{
    let mut sum = 0u64;
    'repetitions: for _ in 1..reps {
        sum = sum.wrapping_add(derive(alloc, password, salt, key)?);
    }
    Some(sum.wrapping_add(derive(alloc, password, salt, key)?))
}

/// Derives it, and gives its last byte.
fn derive(alloc: Global, password: &[u8], salt: &[u8], key: &mut [u8]) -> Option<u64>
    ensures { IsSome result
        → key.new ≡ argon2id password.now salt.now [] [] argon2_cost (length key.old) }
{
    argon2id(alloc, password, salt, COST, key).ok()?;
    Some(last_byte(key))
}
