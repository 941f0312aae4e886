//! Keys of local tokens under a wrapping key, each many times over.
//!
//! Each call answers the sum of the last bytes of what it made, or 2^64 - 1 where there is no such version, a length is
//! wrong, a text is no wrapped key or memory was refused.

ghost use Rattle.std.specs.Prelude.{◌≡◌, ◌≢◌, ◌^◌, ◌-◌, IsSome};
ghost use Rattle.paseto_wrapping.specs.declared.header.WrappedType.TheVariants.{LocalWrap as LocalKey};
ghost use Rattle.paseto_wrapping.specs.Pie.{pie};
ghost use Rattle.bench_calls.specs.Versions.{OfVersion};
ghost use Rattle.bench_calls.specs.Wrapped.{IsWrapped};

use crate::copying::{copy_bytes, last_byte};
use crate::versions::version_of;
use paseto_wrapping::{WrappingKey, unwrap_local, wrap_local};
use rusty_paseto_parts::{Key, Local, PasetoSymmetricKey, V1, V2, V3, V4};
use rusty_paseto_paserk::{KeyVersion, PaserkVersion};
use std::alloc::Global;
use std::str;

/// What is answered where a length is wrong, a text is none or a repetition was refused.
const FAILED: u64 = u64::MAX;

/// Writes a key of local tokens of a version, which is named by its number, under a wrapping key, `reps` times and at
/// least once. `text` has just the room for the text.
pub fn bench_wrap_local(
    alloc: Global,
    version: u32,
    wrapping_key: &[u8],
    nonce: &[u8],
    key: &[u8],
    text: &mut [u8],
    reps: u32,
) -> u64
    ensures { result ≢ 2 ^ 64 - 1 → OfVersion version
        (λ version. text.new ≡ pie version LocalKey wrapping_key.now nonce.now key.now) }
{
    wrap_in(alloc, version, wrapping_key, nonce, key, text, reps).unwrap_or(FAILED)
}

/// Reads what `bench_wrap_local` writes, `reps` times and at least once. `key` has just the room for the key.
pub fn bench_unwrap_local(
    alloc: Global,
    version: u32,
    wrapping_key: &[u8],
    text: &[u8],
    key: &mut [u8],
    reps: u32,
) -> u64
    ensures { result ≢ 2 ^ 64 - 1
        → OfVersion version (IsWrapped LocalKey wrapping_key.now text.now key.new) }
{
    unwrap_in(alloc, version, wrapping_key, text, key, reps).unwrap_or(FAILED)
}

// Writes the key in the version of a number.
fn wrap_in(
    alloc: Global,
    version: u32,
    wrapping_key: &[u8],
    nonce: &[u8],
    key: &[u8],
    text: &mut [u8],
    reps: u32,
) -> Option<u64>
    ensures { IsSome result → OfVersion version
        (λ version. text.new ≡ pie version LocalKey wrapping_key.now nonce.now key.now) }
{
    match version_of(version)? {
        PaserkVersion::V1 => wrap::<V1>(alloc, wrapping_key, nonce, key, text, reps),
        PaserkVersion::V2 => wrap::<V2>(alloc, wrapping_key, nonce, key, text, reps),
        PaserkVersion::V3 => wrap::<V3>(alloc, wrapping_key, nonce, key, text, reps),
        PaserkVersion::V4 => wrap::<V4>(alloc, wrapping_key, nonce, key, text, reps),
    }
}

// Writes the key `reps` times, and at least once, and adds up the texts' last bytes.
fn wrap<V: KeyVersion>(
    alloc: Global,
    wrapping_key: &[u8],
    nonce: &[u8],
    key: &[u8],
    text: &mut [u8],
    reps: u32,
) -> Option<u64>
    ensures { IsSome result → text.new ≡ pie V.paserk LocalKey wrapping_key.now nonce.now key.now }
{
    let wrapping_key = WrappingKey::<V>::from(Key::from(*wrapping_key.as_array::<32>()?));
    let nonce = Key::from(nonce.as_array::<32>()?);
    let key = PasetoSymmetricKey::<V, Local>::from(Key::from(key.as_array::<32>()?));
    let mut sum = 0u64;
    'repetitions: for _ in 1..reps {
        let made = wrap_local(alloc, &wrapping_key, &nonce, &key).ok()?;
        sum = sum.wrapping_add(last_byte(made.as_bytes()));
    }
    let made = wrap_local(alloc, &wrapping_key, &nonce, &key).ok()?;
    copy_bytes(made.as_bytes(), text)?;
    Some(sum.wrapping_add(last_byte(made.as_bytes())))
}

// Reads the key in the version of a number.
fn unwrap_in(
    alloc: Global,
    version: u32,
    wrapping_key: &[u8],
    text: &[u8],
    key: &mut [u8],
    reps: u32,
) -> Option<u64>
    ensures { IsSome result → OfVersion version (IsWrapped LocalKey wrapping_key.now text.now key.new) }
{
    match version_of(version)? {
        PaserkVersion::V1 => unwrap::<V1>(alloc, wrapping_key, text, key, reps),
        PaserkVersion::V2 => unwrap::<V2>(alloc, wrapping_key, text, key, reps),
        PaserkVersion::V3 => unwrap::<V3>(alloc, wrapping_key, text, key, reps),
        PaserkVersion::V4 => unwrap::<V4>(alloc, wrapping_key, text, key, reps),
    }
}

// Reads the key `reps` times, and at least once, and adds up the keys' last bytes.
fn unwrap<V: KeyVersion>(
    alloc: Global,
    wrapping_key: &[u8],
    text: &[u8],
    key: &mut [u8],
    reps: u32,
) -> Option<u64>
    ensures { IsSome result → IsWrapped LocalKey wrapping_key.now text.now key.new V.paserk }
{
    let wrapping_key = WrappingKey::<V>::from(Key::from(*wrapping_key.as_array::<32>()?));
    let text = str::from_utf8(text).ok()?;
    let mut sum = 0u64;
    'repetitions: for _ in 1..reps {
        let read = unwrap_local(alloc, &wrapping_key, text).ok()?;
        sum = sum.wrapping_add(read.as_bytes()[31] as u64);
    }
    let read = unwrap_local(alloc, &wrapping_key, text).ok()?;
    copy_bytes(read.as_bytes(), key)?;
    Some(sum.wrapping_add(read.as_bytes()[31] as u64))
}
