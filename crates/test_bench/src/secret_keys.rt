//! Private keys under a wrapping key and under a password, once each: `tests/secrets.sh` follows what the machine code
//! does with them.
//!
//! Each call answers 0, or 2^64 - 1 where there is no such version, a length is wrong, a cost is not allowed, a text is
//! refused or memory was.

ghost use Rattle.std.specs.Prelude.{◌≡◌, ◌≢◌, ◌^◌, ◌-◌};
ghost use Rattle.paseto_wrapping.specs.declared.header.WrappedType.TheVariants.{SecretPassword as PasswordKey, SecretWrap as WrappedKey};
ghost use Rattle.paseto_wrapping.specs.Keys.{wrapped_form};
ghost use Rattle.paseto_wrapping.specs.Password.{protected};
ghost use Rattle.paseto_wrapping.specs.Pie.{pie};
ghost use Rattle.bench_calls.specs.Versions.{OfVersion};
ghost use Rattle.bench_calls.specs.Wrapped.{IsPrivateUnder, IsPrivateWrapped, cost_of, most};

use std::alloc::Global;

/// `bench_wrap_secret` of `bench_calls`, for C.
#[unsafe(no_mangle)]
pub extern "C" fn paseto_bench_wrap_secret(
    alloc: Global,
    version: u32,
    wrapping_key: &[u8],
    nonce: &[u8],
    key: &[u8],
    text: &mut [u8],
) -> u64
    ensures { result ≢ 2 ^ 64 - 1 → OfVersion version
        (λ version. text.new ≡ pie version WrappedKey wrapping_key.now nonce.now
        (wrapped_form version key.now)) }
{
    bench_calls::bench_wrap_secret(alloc, version, wrapping_key, nonce, key, text)
}

/// `bench_unwrap_secret` of `bench_calls`, for C.
#[unsafe(no_mangle)]
pub extern "C" fn paseto_bench_unwrap_secret(
    alloc: Global,
    version: u32,
    wrapping_key: &[u8],
    text: &[u8],
    key: &mut [u8],
) -> u64
    ensures { result ≢ 2 ^ 64 - 1
        → OfVersion version (IsPrivateWrapped WrappedKey wrapping_key.now text.now key.new) }
{
    bench_calls::bench_unwrap_secret(alloc, version, wrapping_key, text, key)
}

/// `bench_protect_secret` of `bench_calls`, for C.
#[unsafe(no_mangle)]
pub extern "C" fn paseto_bench_protect_secret(
    alloc: Global,
    version: u32,
    password: &[u8],
    iterations: u32,
    memory: u64,
    passes: u32,
    salt: &[u8],
    nonce: &[u8],
    key: &[u8],
    text: &mut [u8],
) -> u64
    ensures { result ≢ 2 ^ 64 - 1 → OfVersion version (λ version. text.new ≡ protected version PasswordKey
        password.now (cost_of iterations memory passes) salt.now nonce.now
        (wrapped_form version key.now)) }
{
    bench_calls::bench_protect_secret(
        alloc, version, password, iterations, memory, passes, salt, nonce, key, text,
    )
}

/// `bench_unprotect_secret` of `bench_calls`, for C.
#[unsafe(no_mangle)]
pub extern "C" fn paseto_bench_unprotect_secret(
    alloc: Global,
    version: u32,
    password: &[u8],
    text: &[u8],
    key: &mut [u8],
) -> u64
    ensures { result ≢ 2 ^ 64 - 1
        → OfVersion version (IsPrivateUnder PasswordKey password.now most text.now key.new) }
{
    bench_calls::bench_unprotect_secret(alloc, version, password, text, key)
}
