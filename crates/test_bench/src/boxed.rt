//! The sealed box of version 2 and the version's local tokens, which it seals, each many times over.

ghost use Rattle.std.specs.Prelude.{◌≡◌, ◌≢◌, ◌^◌, ◌-◌, Some};
ghost use Rattle.paseto_xchacha20poly1305.specs.Sealing.{box_sealing};
ghost use Rattle.rusty_paseto_core.specs.Local.SealedBox.{IsOpening};
ghost use Rattle.bench_calls.specs.Boxed.{OpensToText, boxed_token};

use std::alloc::Global;

/// `bench_xchacha20poly1305_seal` of `bench_calls`, for C.
#[unsafe(no_mangle)]
pub extern "C" fn paseto_bench_xchacha20poly1305_seal(
    alloc: Global,
    key: &[u8],
    nonce: &[u8],
    data: &[u8],
    message: &[u8],
    boxed: &mut [u8],
    reps: u32,
) -> u64
    ensures { result ≢ 2 ^ 64 - 1
        → Some boxed.new ≡ box_sealing key.now nonce.now «data».now message.now }
{
    bench_calls::bench_xchacha20poly1305_seal(alloc, key, nonce, data, message, boxed, reps)
}

/// `bench_xchacha20poly1305_open` of `bench_calls`, for C.
#[unsafe(no_mangle)]
pub extern "C" fn paseto_bench_xchacha20poly1305_open(
    alloc: Global,
    key: &[u8],
    nonce: &[u8],
    data: &[u8],
    boxed: &[u8],
    message: &mut [u8],
    reps: u32,
) -> u64
    ensures { result ≢ 2 ^ 64 - 1
        → IsOpening (box_sealing key.now nonce.now «data».now) boxed.now (Some message.new) }
{
    bench_calls::bench_xchacha20poly1305_open(alloc, key, nonce, data, boxed, message, reps)
}

/// `bench_v2_seal` of `bench_calls`, for C.
#[unsafe(no_mangle)]
pub extern "C" fn paseto_bench_v2_seal(
    alloc: Global,
    key: &[u8],
    nonce: &[u8],
    text: &[u8],
    token: &mut [u8],
    reps: u32,
) -> u64
    ensures { result ≢ 2 ^ 64 - 1 → Some token.new ≡ boxed_token key.now nonce.now text.now }
{
    bench_calls::bench_v2_seal(alloc, key, nonce, text, token, reps)
}

/// `bench_v2_open` of `bench_calls`, for C.
#[unsafe(no_mangle)]
pub extern "C" fn paseto_bench_v2_open(
    alloc: Global,
    key: &[u8],
    token: &[u8],
    text: &mut [u8],
    reps: u32,
) -> u64
    ensures { result ≢ 2 ^ 64 - 1 → OpensToText key.now token.now text.new }
{
    bench_calls::bench_v2_open(alloc, key, token, text, reps)
}
