//! Ed25519 and public tokens of version 4, which it signs, each many times over.

ghost use Rattle.std.specs.Prelude.{◌≡◌, ◌≢◌, ◌^◌, ◌-◌};
ghost use Rattle.paseto_ed25519.specs.Ed25519.{Ed25519Verifies, ed25519_public, ed25519_sign};
ghost use Rattle.bench_calls.specs.Signed.{IsSignedToken, VerifiesAs};

use std::alloc::Global;

/// `bench_ed25519_public_key` of `bench_calls`, for C.
#[unsafe(no_mangle)]
pub extern "C" fn paseto_bench_ed25519_public_key(seed: &[u8], public: &mut [u8], reps: u32) -> u64
    ensures { result ≢ 2 ^ 64 - 1 → public.new ≡ ed25519_public seed.now }
{
    bench_calls::bench_ed25519_public_key(seed, public, reps)
}

/// `bench_ed25519_sign` of `bench_calls`, for C.
#[unsafe(no_mangle)]
pub extern "C" fn paseto_bench_ed25519_sign(
    alloc: Global,
    private: &[u8],
    message: &[u8],
    signature: &mut [u8],
    reps: u32,
) -> u64
    ensures { result ≢ 2 ^ 64 - 1 → signature.new ≡ ed25519_sign private.now message.now }
{
    bench_calls::bench_ed25519_sign(alloc, private, message, signature, reps)
}

/// `bench_ed25519_sign_with_key` of `bench_calls`, for C.
#[unsafe(no_mangle)]
pub extern "C" fn paseto_bench_ed25519_sign_with_key(
    alloc: Global,
    private: &[u8],
    message: &[u8],
    signature: &mut [u8],
    reps: u32,
) -> u64
    ensures { result ≢ 2 ^ 64 - 1 → signature.new ≡ ed25519_sign private.now message.now }
{
    bench_calls::bench_ed25519_sign_with_key(alloc, private, message, signature, reps)
}

/// `bench_ed25519_verify` of `bench_calls`, for C.
#[unsafe(no_mangle)]
pub extern "C" fn paseto_bench_ed25519_verify(
    alloc: Global,
    public: &[u8],
    message: &[u8],
    signature: &[u8],
    reps: u32,
) -> u64
    ensures { result ≢ 2 ^ 64 - 1 → Ed25519Verifies public.now message.now signature.now }
{
    bench_calls::bench_ed25519_verify(alloc, public, message, signature, reps)
}

/// `bench_v4_sign` of `bench_calls`, for C.
#[unsafe(no_mangle)]
pub extern "C" fn paseto_bench_v4_sign(
    alloc: Global,
    private: &[u8],
    text: &[u8],
    token: &mut [u8],
    reps: u32,
) -> u64
    ensures { result ≢ 2 ^ 64 - 1 → IsSignedToken private.now text.now token.new }
{
    bench_calls::bench_v4_sign(alloc, private, text, token, reps)
}

/// `bench_v4_verify` of `bench_calls`, for C.
#[unsafe(no_mangle)]
pub extern "C" fn paseto_bench_v4_verify(
    alloc: Global,
    public: &[u8],
    token: &[u8],
    text: &mut [u8],
    reps: u32,
) -> u64
    ensures { result ≢ 2 ^ 64 - 1 → VerifiesAs public.now token.now text.new }
{
    bench_calls::bench_v4_verify(alloc, public, token, text, reps)
}
