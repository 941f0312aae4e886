//! Sealing and opening of local tokens, each many times over, with no footer and no implicit
//! assertion.

ghost use Rattle.std.specs.Prelude.{◌≡◌, ◌≢◌, ◌^◌, ◌-◌};
ghost use Rattle.rusty_paseto_core.specs.Local.V1.{v1};
ghost use Rattle.rusty_paseto_core.specs.Local.V3.{v3};
ghost use Rattle.rusty_paseto_core.specs.Local.V4.{v4};
ghost use Rattle.bench_calls.specs.Tokens.{OpensTo, token_of};

use std::alloc::Global;

/// `bench_v1_seal` of `bench_calls`, for C.
#[unsafe(no_mangle)]
pub extern "C" fn paseto_bench_v1_seal(
    alloc: Global,
    key: &[u8],
    nonce: &[u8],
    text: &[u8],
    token: &mut [u8],
    reps: u32,
) -> u64
    ensures { result ≢ 2 ^ 64 - 1 → token.new ≡ token_of v1 key.now nonce.now text.now }
{
    bench_calls::bench_v1_seal(alloc, key, nonce, text, token, reps)
}

/// `bench_v3_seal` of `bench_calls`, for C.
#[unsafe(no_mangle)]
pub extern "C" fn paseto_bench_v3_seal(
    alloc: Global,
    key: &[u8],
    nonce: &[u8],
    text: &[u8],
    token: &mut [u8],
    reps: u32,
) -> u64
    ensures { result ≢ 2 ^ 64 - 1 → token.new ≡ token_of v3 key.now nonce.now text.now }
{
    bench_calls::bench_v3_seal(alloc, key, nonce, text, token, reps)
}

/// `bench_v4_seal` of `bench_calls`, for C.
#[unsafe(no_mangle)]
pub extern "C" fn paseto_bench_v4_seal(
    alloc: Global,
    key: &[u8],
    nonce: &[u8],
    text: &[u8],
    token: &mut [u8],
    reps: u32,
) -> u64
    ensures { result ≢ 2 ^ 64 - 1 → token.new ≡ token_of v4 key.now nonce.now text.now }
{
    bench_calls::bench_v4_seal(alloc, key, nonce, text, token, reps)
}

/// `bench_v1_open` of `bench_calls`, for C.
#[unsafe(no_mangle)]
pub extern "C" fn paseto_bench_v1_open(
    alloc: Global,
    key: &[u8],
    token: &[u8],
    text: &mut [u8],
    reps: u32,
) -> u64
    ensures { result ≢ 2 ^ 64 - 1 → OpensTo v1 key.now token.now text.new }
{
    bench_calls::bench_v1_open(alloc, key, token, text, reps)
}

/// `bench_v3_open` of `bench_calls`, for C.
#[unsafe(no_mangle)]
pub extern "C" fn paseto_bench_v3_open(
    alloc: Global,
    key: &[u8],
    token: &[u8],
    text: &mut [u8],
    reps: u32,
) -> u64
    ensures { result ≢ 2 ^ 64 - 1 → OpensTo v3 key.now token.now text.new }
{
    bench_calls::bench_v3_open(alloc, key, token, text, reps)
}

/// `bench_v4_open` of `bench_calls`, for C.
#[unsafe(no_mangle)]
pub extern "C" fn paseto_bench_v4_open(
    alloc: Global,
    key: &[u8],
    token: &[u8],
    text: &mut [u8],
    reps: u32,
) -> u64
    ensures { result ≢ 2 ^ 64 - 1 → OpensTo v4 key.now token.now text.new }
{
    bench_calls::bench_v4_open(alloc, key, token, text, reps)
}
