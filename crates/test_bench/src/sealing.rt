//! Keys of local tokens that are sealed to a public key, each many times over.
//!
//! Each call answers the sum of the last bytes of what it made, or 2^64 - 1 where the version is none of 2, 3 and 4, a
//! length is wrong, a key or a text is refused or memory was.

ghost use Rattle.std.specs.Prelude.{◌≢◌, ◌^◌, ◌-◌};
ghost use Rattle.paseto_wrapping.specs.Sealing.{IsSealed};
ghost use Rattle.bench_calls.specs.Versions.{OfVersion};
ghost use Rattle.bench_calls.specs.Wrapped.{IsSealedFor};

use std::alloc::Global;

/// `bench_seal_key` of `bench_calls`, for C.
#[unsafe(no_mangle)]
pub extern "C" fn paseto_bench_seal_key(
    alloc: Global,
    version: u32,
    public: &[u8],
    ephemeral: &[u8],
    key: &[u8],
    text: &mut [u8],
    reps: u32,
) -> u64
    ensures { result ≢ 2 ^ 64 - 1 → OfVersion version
        (λ version. IsSealed version public.now ephemeral.now key.now text.new) }
{
    bench_calls::bench_seal_key(alloc, version, public, ephemeral, key, text, reps)
}

/// `bench_unseal_key` of `bench_calls`, for C.
#[unsafe(no_mangle)]
pub extern "C" fn paseto_bench_unseal_key(
    alloc: Global,
    version: u32,
    private: &[u8],
    text: &[u8],
    key: &mut [u8],
    reps: u32,
) -> u64
    ensures { result ≢ 2 ^ 64 - 1 → OfVersion version (IsSealedFor private.now text.now key.new) }
{
    bench_calls::bench_unseal_key(alloc, version, private, text, key, reps)
}
