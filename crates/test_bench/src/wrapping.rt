//! Keys of local tokens under a wrapping key, each many times over.
//!
//! Each call answers the sum of the last bytes of what it made, or 2^64 - 1 where there is no such version, a length is
//! wrong, a text is no wrapped key or memory was refused.

ghost use Rattle.std.specs.Prelude.{◌≡◌, ◌≢◌, ◌^◌, ◌-◌};
ghost use Rattle.paseto_wrapping.specs.declared.header.WrappedType.TheVariants.{LocalWrap as LocalKey};
ghost use Rattle.paseto_wrapping.specs.Pie.{pie};
ghost use Rattle.bench_calls.specs.Versions.{OfVersion};
ghost use Rattle.bench_calls.specs.Wrapped.{IsWrapped};

use std::alloc::Global;

/// `bench_wrap_local` of `bench_calls`, for C.
#[unsafe(no_mangle)]
pub extern "C" fn paseto_bench_wrap_local(
    alloc: Global,
    version: u32,
    wrapping_key: &[u8],
    nonce: &[u8],
    key: &[u8],
    text: &mut [u8],
    reps: u32,
) -> u64
    ensures { result ≢ 2 ^ 64 - 1 → OfVersion version
        (λ version. text.new ≡ pie version LocalKey wrapping_key.now nonce.now key.now) }
{
    bench_calls::bench_wrap_local(alloc, version, wrapping_key, nonce, key, text, reps)
}

/// `bench_unwrap_local` of `bench_calls`, for C.
#[unsafe(no_mangle)]
pub extern "C" fn paseto_bench_unwrap_local(
    alloc: Global,
    version: u32,
    wrapping_key: &[u8],
    text: &[u8],
    key: &mut [u8],
    reps: u32,
) -> u64
    ensures { result ≢ 2 ^ 64 - 1
        → OfVersion version (IsWrapped LocalKey wrapping_key.now text.now key.new) }
{
    bench_calls::bench_unwrap_local(alloc, version, wrapping_key, text, key, reps)
}
