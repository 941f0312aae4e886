//! Keys of local tokens under a password, each many times over.
//!
//! Each call answers the sum of the last bytes of what it made, or 2^64 - 1 where there is no such version, a length is
//! wrong, a cost is not allowed, a text is no key under the password or memory was refused.

ghost use Rattle.std.specs.Prelude.{◌≡◌, ◌≢◌, ◌^◌, ◌-◌};
ghost use Rattle.paseto_wrapping.specs.declared.header.WrappedType.TheVariants.{LocalPassword as LocalKey};
ghost use Rattle.paseto_wrapping.specs.Password.{protected};
ghost use Rattle.bench_calls.specs.Versions.{OfVersion};
ghost use Rattle.bench_calls.specs.Wrapped.{IsUnder, cost_of, most};

use std::alloc::Global;

/// `bench_protect_local` of `bench_calls`, for C.
#[unsafe(no_mangle)]
pub extern "C" fn paseto_bench_protect_local(
    alloc: Global,
    version: u32,
    password: &[u8],
    iterations: u32,
    memory: u64,
    passes: u32,
    salt: &[u8],
    nonce: &[u8],
    key: &[u8],
    text: &mut [u8],
    reps: u32,
) -> u64
    ensures { result ≢ 2 ^ 64 - 1 → OfVersion version (λ version. text.new ≡ protected version LocalKey
        password.now (cost_of iterations memory passes) salt.now nonce.now key.now) }
{
    bench_calls::bench_protect_local(
        alloc, version, password, iterations, memory, passes, salt, nonce, key, text, reps,
    )
}

/// `bench_unprotect_local` of `bench_calls`, for C.
#[unsafe(no_mangle)]
pub extern "C" fn paseto_bench_unprotect_local(
    alloc: Global,
    version: u32,
    password: &[u8],
    text: &[u8],
    key: &mut [u8],
    reps: u32,
) -> u64
    ensures { result ≢ 2 ^ 64 - 1
        → OfVersion version (IsUnder LocalKey password.now most text.now key.new) }
{
    bench_calls::bench_unprotect_local(alloc, version, password, text, key, reps)
}
