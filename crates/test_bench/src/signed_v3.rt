//! Public tokens of version 3, which P-384 signs, each many times over.
//!
//! Each call answers 2^64 - 1 where a length is wrong, a text is not UTF-8, the scheme refused or memory was.

ghost use Rattle.std.specs.Prelude.{◌≢◌, ◌^◌, ◌-◌};
ghost use Rattle.bench_calls.specs.Signed.{IsSignedV3Token, VerifiesInV3As};

use std::alloc::Global;

/// `bench_v3_sign` of `bench_calls`, for C.
#[unsafe(no_mangle)]
pub extern "C" fn paseto_bench_v3_sign(
    alloc: Global,
    private: &[u8],
    text: &[u8],
    token: &mut [u8],
    reps: u32,
) -> u64
    ensures { result ≢ 2 ^ 64 - 1 → IsSignedV3Token private.now text.now token.new }
{
    bench_calls::bench_v3_sign(alloc, private, text, token, reps)
}

/// `bench_v3_verify` of `bench_calls`, for C.
#[unsafe(no_mangle)]
pub extern "C" fn paseto_bench_v3_verify(
    alloc: Global,
    public: &[u8],
    token: &[u8],
    text: &mut [u8],
    reps: u32,
) -> u64
    ensures { result ≢ 2 ^ 64 - 1 → VerifiesInV3As public.now token.now text.new }
{
    bench_calls::bench_v3_verify(alloc, public, token, text, reps)
}
