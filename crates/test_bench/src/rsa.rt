//! Signatures of version 1, each call many times over.
//!
//! Each call answers 2^64 - 1 where a length is not one that it has, or the scheme refused.

ghost use Rattle.std.specs.Prelude.{◌≢◌, ◌^◌, ◌-◌};
ghost use Rattle.paseto_rsa.specs.Keys.{rsa_public};
ghost use Rattle.paseto_rsa.specs.RsaPss.{RsaPssVerifies};

use std::alloc::Global;

/// `bench_rsa_sign` of `bench_calls`, for C.
#[unsafe(no_mangle)]
pub extern "C" fn paseto_bench_rsa_sign(
    alloc: Global,
    private: &[u8],
    message: &[u8],
    signature: &mut [u8],
    reps: u32,
) -> u64
    ensures { result ≢ 2 ^ 64 - 1
        → RsaPssVerifies (rsa_public private.now) message.now signature.new }
{
    bench_calls::bench_rsa_sign(alloc, private, message, signature, reps)
}

/// `bench_rsa_verify` of `bench_calls`, for C.
#[unsafe(no_mangle)]
pub extern "C" fn paseto_bench_rsa_verify(
    alloc: Global,
    public: &[u8],
    message: &[u8],
    signature: &[u8],
    reps: u32,
) -> u64
    ensures { result ≢ 2 ^ 64 - 1 → RsaPssVerifies public.now message.now signature.now }
{
    bench_calls::bench_rsa_verify(alloc, public, message, signature, reps)
}

/// `bench_rsa_verify_read` of `bench_calls`, for C.
#[unsafe(no_mangle)]
pub extern "C" fn paseto_bench_rsa_verify_read(
    public: &[u8],
    message: &[u8],
    signature: &[u8],
    reps: u32,
) -> u64
    ensures { result ≢ 2 ^ 64 - 1 → RsaPssVerifies public.now message.now signature.now }
{
    bench_calls::bench_rsa_verify_read(public, message, signature, reps)
}
