//! Keys as PASERK text, each many times over: `tests/secrets.sh` also follows what the machine code does with them.
//!
//! Each call answers the sum of the last bytes of what it made, or 2^64 - 1 where no such key has a text, a length is
//! wrong, a text is refused or memory was.

ghost use Rattle.std.specs.Prelude.{◌≡◌, ◌≢◌, ◌^◌, ◌-◌, IsSome};
ghost use Rattle.rusty_paseto_paserk.specs.Text.{writing};
ghost use Rattle.rusty_paseto_paserk.specs.declared.header.PaserkType.TheVariants.{Local as LocalKey, Secret};
ghost use Rattle.bench_calls.specs.Versions.{OfVersion};

use crate::copying::{copy_bytes, last_byte};
use crate::versions::version_of;
use rusty_paseto_parts::{Key, Local, PasetoSymmetricKey, PrivateKey, V1, V2, V3, V4};
use rusty_paseto_paserk::{
    KeyPairVersion, KeyVersion, PaserkVersion, local_from_paserk, local_to_paserk,
    private_key_from_paserk, secret_to_paserk,
};
use std::alloc::Global;
use std::str;

/// What is answered where something is refused.
const FAILED: u64 = u64::MAX;

/// Writes a key of local tokens of a version, which is named by its number, `reps` times and at least once. `text` has
/// just the room for the text.
pub fn bench_write_local(alloc: Global, version: u32, key: &[u8], text: &mut [u8], reps: u32) -> u64
    ensures { result ≢ 2 ^ 64 - 1 → OfVersion version
        (λ version. text.new ≡ writing version LocalKey key.now) }
{
    write_local_in(alloc, version, key, text, reps).unwrap_or(FAILED)
}

/// Reads what `bench_write_local` writes, `reps` times and at least once. `key` has just the room for the key.
pub fn bench_read_local(alloc: Global, version: u32, text: &[u8], key: &mut [u8], reps: u32) -> u64
    ensures { result ≢ 2 ^ 64 - 1 → OfVersion version
        (λ version. text.now ≡ writing version LocalKey key.new) }
{
    read_local_in(alloc, version, text, key, reps).unwrap_or(FAILED)
}

/// Writes a private key of version 2, 3 or 4, as `bench_write_local` does.
pub fn bench_write_secret(
    alloc: Global,
    version: u32,
    key: &[u8],
    text: &mut [u8],
    reps: u32,
) -> u64
    ensures { result ≢ 2 ^ 64 - 1 → OfVersion version
        (λ version. text.new ≡ writing version Secret key.now) }
{
    write_secret_in(alloc, version, key, text, reps).unwrap_or(FAILED)
}

/// Reads what `bench_write_secret` writes, `reps` times and at least once. `key` has just the room for the key.
pub fn bench_read_secret(alloc: Global, version: u32, text: &[u8], key: &mut [u8], reps: u32) -> u64
    ensures { result ≢ 2 ^ 64 - 1 → OfVersion version
        (λ version. text.now ≡ writing version Secret key.new) }
{
    read_secret_in(alloc, version, text, key, reps).unwrap_or(FAILED)
}

// Writes the key of local tokens in the version of a number.
fn write_local_in(
    alloc: Global,
    version: u32,
    key: &[u8],
    text: &mut [u8],
    reps: u32,
) -> Option<u64>
    ensures { IsSome result → OfVersion version
        (λ version. text.new ≡ writing version LocalKey key.now) }
{
    match version_of(version)? {
        PaserkVersion::V1 => write_local::<V1>(alloc, key, text, reps),
        PaserkVersion::V2 => write_local::<V2>(alloc, key, text, reps),
        PaserkVersion::V3 => write_local::<V3>(alloc, key, text, reps),
        PaserkVersion::V4 => write_local::<V4>(alloc, key, text, reps),
    }
}

// Writes the key of local tokens `reps` times, and at least once, and adds up the texts' last bytes.
fn write_local<V: KeyVersion>(alloc: Global, key: &[u8], text: &mut [u8], reps: u32) -> Option<u64>
    ensures { IsSome result → text.new ≡ writing V.paserk LocalKey key.now }
{
    let key = PasetoSymmetricKey::<V, Local>::from(Key::from(key.as_array::<32>()?));
    let mut sum = 0u64;
    'repetitions: for _ in 1..reps {
        let made = local_to_paserk(alloc, &key).ok()?;
        sum = sum.wrapping_add(last_byte(made.as_bytes()));
    }
    let made = local_to_paserk(alloc, &key).ok()?;
    copy_bytes(made.as_bytes(), text)?;
    Some(sum.wrapping_add(last_byte(made.as_bytes())))
}

// Reads the key of local tokens in the version of a number.
fn read_local_in(alloc: Global, version: u32, text: &[u8], key: &mut [u8], reps: u32) -> Option<u64>
    ensures { IsSome result → OfVersion version
        (λ version. text.now ≡ writing version LocalKey key.new) }
{
    match version_of(version)? {
        PaserkVersion::V1 => read_local::<V1>(alloc, text, key, reps),
        PaserkVersion::V2 => read_local::<V2>(alloc, text, key, reps),
        PaserkVersion::V3 => read_local::<V3>(alloc, text, key, reps),
        PaserkVersion::V4 => read_local::<V4>(alloc, text, key, reps),
    }
}

// Reads the key of local tokens `reps` times, and at least once, and adds up the keys' last bytes.
fn read_local<V: KeyVersion>(alloc: Global, text: &[u8], key: &mut [u8], reps: u32) -> Option<u64>
    ensures { IsSome result → text.now ≡ writing V.paserk LocalKey key.new }
{
    let text = str::from_utf8(text).ok()?;
    let mut sum = 0u64;
    'repetitions: for _ in 1..reps {
        let read = local_from_paserk::<V>(alloc, text).ok()?;
        sum = sum.wrapping_add(last_byte(read.as_bytes()));
    }
    let read = local_from_paserk::<V>(alloc, text).ok()?;
    copy_bytes(read.as_bytes(), key)?;
    Some(sum.wrapping_add(last_byte(read.as_bytes())))
}

// Writes the private key in the version of a number.
fn write_secret_in(
    alloc: Global,
    version: u32,
    key: &[u8],
    text: &mut [u8],
    reps: u32,
) -> Option<u64>
    ensures { IsSome result → OfVersion version
        (λ version. text.new ≡ writing version Secret key.now) }
{
    match version_of(version)? {
        PaserkVersion::V1 => None,
        PaserkVersion::V2 => write_secret::<V2>(alloc, key, text, reps),
        PaserkVersion::V3 => write_secret::<V3>(alloc, key, text, reps),
        PaserkVersion::V4 => write_secret::<V4>(alloc, key, text, reps),
    }
}

// Writes the private key `reps` times, and at least once, and adds up the texts' last bytes.
fn write_secret<V: KeyPairVersion>(
    alloc: Global,
    key: &[u8],
    text: &mut [u8],
    reps: u32,
) -> Option<u64>
    ensures { IsSome result → text.new ≡ writing V.paserk Secret key.now }
{
    let key = PrivateKey::<V>::try_from(Vec::from_slice(alloc, key).ok()?).ok()?;
    let mut sum = 0u64;
    'repetitions: for _ in 1..reps {
        let made = secret_to_paserk(alloc, &key.lend()).ok()?;
        sum = sum.wrapping_add(last_byte(made.as_bytes()));
    }
    let made = secret_to_paserk(alloc, &key.lend()).ok()?;
    copy_bytes(made.as_bytes(), text)?;
    Some(sum.wrapping_add(last_byte(made.as_bytes())))
}

// Reads the private key in the version of a number.
fn read_secret_in(
    alloc: Global,
    version: u32,
    text: &[u8],
    key: &mut [u8],
    reps: u32,
) -> Option<u64>
    ensures { IsSome result → OfVersion version
        (λ version. text.now ≡ writing version Secret key.new) }
{
    match version_of(version)? {
        PaserkVersion::V1 => None,
        PaserkVersion::V2 => read_secret::<V2>(alloc, text, key, reps),
        PaserkVersion::V3 => read_secret::<V3>(alloc, text, key, reps),
        PaserkVersion::V4 => read_secret::<V4>(alloc, text, key, reps),
    }
}

// Reads the private key `reps` times, and at least once, and adds up the keys' last bytes.
fn read_secret<V: KeyPairVersion>(
    alloc: Global,
    text: &[u8],
    key: &mut [u8],
    reps: u32,
) -> Option<u64>
    ensures { IsSome result → text.now ≡ writing V.paserk Secret key.new }
{
    let text = str::from_utf8(text).ok()?;
    let mut sum = 0u64;
    'repetitions: for _ in 1..reps {
        let read = private_key_from_paserk::<V>(alloc, text).ok()?;
        sum = sum.wrapping_add(last_byte(read.lend().as_bytes()));
    }
    let read = private_key_from_paserk::<V>(alloc, text).ok()?;
    copy_bytes(read.lend().as_bytes(), key)?;
    Some(sum.wrapping_add(last_byte(read.lend().as_bytes())))
}
