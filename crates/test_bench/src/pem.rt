//! Private keys in PEM, once each: `tests/secrets.sh` follows what the machine code does with them.
//!
//! Each call answers 0, or 2^64 - 1 where there is no such version, a key or a text is refused, a room has another length
//! or memory was refused.

ghost use Rattle.std.specs.Prelude.{◌≢◌, ◌^◌, ◌-◌};
ghost use Rattle.bench_calls.specs.Pem.{AreContentsOf, IsInPem, IsPemOf};
ghost use Rattle.bench_calls.specs.Versions.{OfVersion};

use std::alloc::Global;

/// `bench_pem_write` of `bench_calls`, for C.
#[unsafe(no_mangle)]
pub extern "C" fn paseto_bench_pem_write(
    alloc: Global,
    version: u32,
    key: &[u8],
    text: &mut [u8],
) -> u64
    ensures { result ≢ 2 ^ 64 - 1 → OfVersion version (IsPemOf key.now text.new) }
{
    bench_calls::bench_pem_write(alloc, version, key, text)
}

/// `bench_pem_read` of `bench_calls`, for C.
#[unsafe(no_mangle)]
pub extern "C" fn paseto_bench_pem_read(
    alloc: Global,
    version: u32,
    text: &[u8],
    key: &mut [u8],
) -> u64
    ensures { result ≢ 2 ^ 64 - 1 → OfVersion version (IsInPem text.now key.new) }
{
    bench_calls::bench_pem_read(alloc, version, text, key)
}

/// `bench_pem_read_contents` of `bench_calls`, for C.
#[unsafe(no_mangle)]
pub extern "C" fn paseto_bench_pem_read_contents(
    alloc: Global,
    version: u32,
    contents: &[u8],
    key: &mut [u8],
) -> u64
    ensures { result ≢ 2 ^ 64 - 1 → OfVersion version (AreContentsOf contents.now key.new) }
{
    bench_calls::bench_pem_read_contents(alloc, version, contents, key)
}
