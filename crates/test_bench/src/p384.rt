//! Signatures of version 3, and secrets that are shared by its keys, each call many times over.
//!
//! Each call answers 2^64 - 1 where a length is not one that it has, or the scheme refused.

ghost use Rattle.std.specs.Prelude.{◌≡◌, ◌≢◌, ◌^◌, ◌-◌, Some};
ghost use Rattle.paseto_p384.specs.Agreement.{p384_shared};
ghost use Rattle.paseto_p384.specs.P384.{P384Verifies, p384_public, p384_sign};

use std::alloc::Global;

/// `bench_p384_public_key` of `bench_calls`, for C.
#[unsafe(no_mangle)]
pub extern "C" fn paseto_bench_p384_public_key(
    alloc: Global,
    private: &[u8],
    public: &mut [u8],
    reps: u32,
) -> u64
    ensures { result ≢ 2 ^ 64 - 1 → public.new ≡ p384_public private.now }
{
    bench_calls::bench_p384_public_key(alloc, private, public, reps)
}

/// `bench_p384_sign` of `bench_calls`, for C.
#[unsafe(no_mangle)]
pub extern "C" fn paseto_bench_p384_sign(
    alloc: Global,
    private: &[u8],
    message: &[u8],
    signature: &mut [u8],
    reps: u32,
) -> u64
    ensures { result ≢ 2 ^ 64 - 1 → p384_sign private.now message.now ≡ Some signature.new }
{
    bench_calls::bench_p384_sign(alloc, private, message, signature, reps)
}

/// `bench_p384_shared_secret` of `bench_calls`, for C.
#[unsafe(no_mangle)]
pub extern "C" fn paseto_bench_p384_shared_secret(
    private: &[u8],
    public: &[u8],
    shared: &mut [u8],
    reps: u32,
) -> u64
    ensures { result ≢ 2 ^ 64 - 1 → p384_shared private.now public.now ≡ Some shared.new }
{
    bench_calls::bench_p384_shared_secret(private, public, shared, reps)
}

/// `bench_p384_verify` of `bench_calls`, for C.
#[unsafe(no_mangle)]
pub extern "C" fn paseto_bench_p384_verify(
    alloc: Global,
    public: &[u8],
    message: &[u8],
    signature: &[u8],
    reps: u32,
) -> u64
    ensures { result ≢ 2 ^ 64 - 1 → P384Verifies public.now message.now signature.now }
{
    bench_calls::bench_p384_verify(alloc, public, message, signature, reps)
}
