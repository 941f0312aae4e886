//! Keys of passwords, each many times over.

ghost use Rattle.std.specs.Prelude.{◌≡◌, ◌≢◌, ◌^◌, ◌-◌, [], length};
ghost use Rattle.paseto_argon2.specs.Derivation.{argon2id};
ghost use Rattle.rusty_paseto_primitives.specs.Pbkdf2.{derived_key};
ghost use Rattle.bench_calls.specs.Passwords.{argon2_cost};

use std::alloc::Global;

/// `bench_argon2id` of `bench_calls`, for C.
#[unsafe(no_mangle)]
pub extern "C" fn paseto_bench_argon2id(
    alloc: Global,
    password: &[u8],
    salt: &[u8],
    key: &mut [u8],
    reps: u32,
) -> u64
    ensures { result ≢ 2 ^ 64 - 1
        → key.new ≡ argon2id password.now salt.now [] [] argon2_cost (length key.old) }
{
    bench_calls::bench_argon2id(alloc, password, salt, key, reps)
}

/// `bench_pbkdf2` of `bench_calls`, for C.
#[unsafe(no_mangle)]
pub extern "C" fn paseto_bench_pbkdf2(
    password: &[u8],
    salt: &[u8],
    iterations: u32,
    key: &mut [u8],
    reps: u32,
) -> u64
    ensures { result ≢ 2 ^ 64 - 1 → key.new ≡ derived_key password.now salt.now iterations 48 }
{
    bench_calls::bench_pbkdf2(password, salt, iterations, key, reps)
}
