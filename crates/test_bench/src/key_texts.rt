//! Keys as PASERK text, each many times over: `tests/secrets.sh` also follows what the machine code does with them.
//!
//! Each call answers the sum of the last bytes of what it made, or 2^64 - 1 where no such key has a text, a length is
//! wrong, a text is refused or memory was.

ghost use Rattle.std.specs.Prelude.{◌≡◌, ◌≢◌, ◌^◌, ◌-◌};
ghost use Rattle.rusty_paseto_paserk.specs.Text.{writing};
ghost use Rattle.rusty_paseto_paserk.specs.declared.header.PaserkType.TheVariants.{Local as LocalKey, Secret};
ghost use Rattle.bench_calls.specs.Versions.{OfVersion};

use std::alloc::Global;

/// `bench_write_local` of `bench_calls`, for C.
#[unsafe(no_mangle)]
pub extern "C" fn paseto_bench_write_local(
    alloc: Global,
    version: u32,
    key: &[u8],
    text: &mut [u8],
    reps: u32,
) -> u64
    ensures { result ≢ 2 ^ 64 - 1 → OfVersion version
        (λ version. text.new ≡ writing version LocalKey key.now) }
{
    bench_calls::bench_write_local(alloc, version, key, text, reps)
}

/// `bench_read_local` of `bench_calls`, for C.
#[unsafe(no_mangle)]
pub extern "C" fn paseto_bench_read_local(
    alloc: Global,
    version: u32,
    text: &[u8],
    key: &mut [u8],
    reps: u32,
) -> u64
    ensures { result ≢ 2 ^ 64 - 1 → OfVersion version
        (λ version. text.now ≡ writing version LocalKey key.new) }
{
    bench_calls::bench_read_local(alloc, version, text, key, reps)
}

/// `bench_write_secret` of `bench_calls`, for C.
#[unsafe(no_mangle)]
pub extern "C" fn paseto_bench_write_secret(
    alloc: Global,
    version: u32,
    key: &[u8],
    text: &mut [u8],
    reps: u32,
) -> u64
    ensures { result ≢ 2 ^ 64 - 1 → OfVersion version
        (λ version. text.new ≡ writing version Secret key.now) }
{
    bench_calls::bench_write_secret(alloc, version, key, text, reps)
}

/// `bench_read_secret` of `bench_calls`, for C.
#[unsafe(no_mangle)]
pub extern "C" fn paseto_bench_read_secret(
    alloc: Global,
    version: u32,
    text: &[u8],
    key: &mut [u8],
    reps: u32,
) -> u64
    ensures { result ≢ 2 ^ 64 - 1 → OfVersion version
        (λ version. text.now ≡ writing version Secret key.new) }
{
    bench_calls::bench_read_secret(alloc, version, text, key, reps)
}
