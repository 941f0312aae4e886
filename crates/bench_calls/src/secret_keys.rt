//! Private keys under a wrapping key and under a password, once each: `tests/secrets.sh` follows what the machine code
//! does with them.
//!
//! Each call answers 0, or 2^64 - 1 where there is no such version, a length is wrong, a cost is not allowed, a text is
//! refused or memory was.

ghost use Rattle.std.specs.Prelude.{◌≡◌, ◌≢◌, ◌^◌, ◌-◌, IsSome};
ghost use Rattle.paseto_wrapping.specs.declared.header.WrappedType.TheVariants.{SecretPassword as PasswordKey, SecretWrap as WrappedKey};
ghost use Rattle.paseto_wrapping.specs.Keys.{wrapped_form};
ghost use Rattle.paseto_wrapping.specs.Password.{protected};
ghost use Rattle.paseto_wrapping.specs.Pie.{pie};
ghost use Rattle.bench_calls.specs.Versions.{OfVersion};
ghost use Rattle.bench_calls.specs.Wrapped.{IsPrivateUnder, IsPrivateWrapped, cost_of, most};

use crate::copying::copy_bytes;
use crate::protecting::{MOST, one_lane};
use crate::versions::version_of;
use paseto_wrapping::{
    PasswordCost, WrappingKey, protect_secret, unprotect_secret, unwrap_secret, wrap_secret,
};
use rusty_paseto_parts::{Key, PrivateKey, V1, V2, V3, V4};
use rusty_paseto_paserk::{KeyVersion, PaserkVersion};
use std::alloc::Global;
use std::str;

/// What is answered where something is refused.
const FAILED: u64 = u64::MAX;

/// Writes a private key of a version, which is named by its number, under a wrapping key. `text` has just the room for
/// the text.
pub fn bench_wrap_secret(
    alloc: Global,
    version: u32,
    wrapping_key: &[u8],
    nonce: &[u8],
    key: &[u8],
    text: &mut [u8],
) -> u64
    ensures { result ≢ 2 ^ 64 - 1 → OfVersion version
        (λ version. text.new ≡ pie version WrappedKey wrapping_key.now nonce.now
        (wrapped_form version key.now)) }
{
    match wrap_in(alloc, version, wrapping_key, nonce, key, text) {
        Some(()) => 0,
        None => FAILED,
    }
}

/// Reads what `bench_wrap_secret` writes. `key` has just the room for the key.
pub fn bench_unwrap_secret(
    alloc: Global,
    version: u32,
    wrapping_key: &[u8],
    text: &[u8],
    key: &mut [u8],
) -> u64
    ensures { result ≢ 2 ^ 64 - 1
        → OfVersion version (IsPrivateWrapped WrappedKey wrapping_key.now text.now key.new) }
{
    match unwrap_in(alloc, version, wrapping_key, text, key) {
        Some(()) => 0,
        None => FAILED,
    }
}

/// Writes a private key of a version under a password. The cost is as in `bench_protect_local`.
pub fn bench_protect_secret(
    alloc: Global,
    version: u32,
    password: &[u8],
    iterations: u32,
    memory: u64,
    passes: u32,
    salt: &[u8],
    nonce: &[u8],
    key: &[u8],
    text: &mut [u8],
) -> u64
    ensures { result ≢ 2 ^ 64 - 1 → OfVersion version (λ version. text.new ≡ protected version PasswordKey
        password.now (cost_of iterations memory passes) salt.now nonce.now
        (wrapped_form version key.now)) }
{
    let cost = one_lane(iterations, memory, passes);
    match protect_in(alloc, version, password, cost, salt, nonce, key, text) {
        Some(()) => 0,
        None => FAILED,
    }
}

/// Reads what `bench_protect_secret` writes, as `bench_unprotect_local` does.
pub fn bench_unprotect_secret(
    alloc: Global,
    version: u32,
    password: &[u8],
    text: &[u8],
    key: &mut [u8],
) -> u64
    ensures { result ≢ 2 ^ 64 - 1
        → OfVersion version (IsPrivateUnder PasswordKey password.now most text.now key.new) }
{
    match unprotect_in(alloc, version, password, text, key) {
        Some(()) => 0,
        None => FAILED,
    }
}

// Writes the key in the version of a number.
fn wrap_in(
    alloc: Global,
    version: u32,
    wrapping_key: &[u8],
    nonce: &[u8],
    key: &[u8],
    text: &mut [u8],
) -> Option<()>
    ensures { IsSome result → OfVersion version
        (λ version. text.new ≡ pie version WrappedKey wrapping_key.now nonce.now
        (wrapped_form version key.now)) }
{
    match version_of(version)? {
        PaserkVersion::V1 => wrap::<V1>(alloc, wrapping_key, nonce, key, text),
        PaserkVersion::V2 => wrap::<V2>(alloc, wrapping_key, nonce, key, text),
        PaserkVersion::V3 => wrap::<V3>(alloc, wrapping_key, nonce, key, text),
        PaserkVersion::V4 => wrap::<V4>(alloc, wrapping_key, nonce, key, text),
    }
}

// Writes the key.
fn wrap<V: KeyVersion>(
    alloc: Global,
    wrapping_key: &[u8],
    nonce: &[u8],
    key: &[u8],
    text: &mut [u8],
) -> Option<()>
    ensures { IsSome result → text.new ≡ pie V.paserk WrappedKey wrapping_key.now nonce.now
        (wrapped_form V.paserk key.now) }
{
    let wrapping_key = WrappingKey::<V>::from(Key::from(*wrapping_key.as_array::<32>()?));
    let nonce = Key::from(nonce.as_array::<32>()?);
    let key = PrivateKey::<V>::try_from(Vec::from_slice(alloc, key).ok()?).ok()?;
    let made = wrap_secret(alloc, &wrapping_key, &nonce, &key.lend()).ok()?;
    copy_bytes(made.as_bytes(), text)
}

// Reads the key in the version of a number.
fn unwrap_in(
    alloc: Global,
    version: u32,
    wrapping_key: &[u8],
    text: &[u8],
    key: &mut [u8],
) -> Option<()>
    ensures { IsSome result → OfVersion version (IsPrivateWrapped WrappedKey wrapping_key.now text.now key.new) }
{
    match version_of(version)? {
        PaserkVersion::V1 => unwrap::<V1>(alloc, wrapping_key, text, key),
        PaserkVersion::V2 => unwrap::<V2>(alloc, wrapping_key, text, key),
        PaserkVersion::V3 => unwrap::<V3>(alloc, wrapping_key, text, key),
        PaserkVersion::V4 => unwrap::<V4>(alloc, wrapping_key, text, key),
    }
}

// Reads the key.
fn unwrap<V: KeyVersion>(
    alloc: Global,
    wrapping_key: &[u8],
    text: &[u8],
    key: &mut [u8],
) -> Option<()>
    ensures { IsSome result → IsPrivateWrapped WrappedKey wrapping_key.now text.now key.new V.paserk }
{
    let wrapping_key = WrappingKey::<V>::from(Key::from(*wrapping_key.as_array::<32>()?));
    let text = str::from_utf8(text).ok()?;
    let read = unwrap_secret(alloc, &wrapping_key, text).ok()?;
    copy_bytes(read.lend().as_bytes(), key)
}

// Writes the key in the version of a number.
fn protect_in(
    alloc: Global,
    version: u32,
    password: &[u8],
    cost: PasswordCost,
    salt: &[u8],
    nonce: &[u8],
    key: &[u8],
    text: &mut [u8],
) -> Option<()>
    ensures { IsSome result → OfVersion version (λ version. text.new
        ≡ protected version PasswordKey password.now cost salt.now nonce.now
        (wrapped_form version key.now)) }
{
    match version_of(version)? {
        PaserkVersion::V1 => protect::<V1>(alloc, password, cost, salt, nonce, key, text),
        PaserkVersion::V2 => protect::<V2>(alloc, password, cost, salt, nonce, key, text),
        PaserkVersion::V3 => protect::<V3>(alloc, password, cost, salt, nonce, key, text),
        PaserkVersion::V4 => protect::<V4>(alloc, password, cost, salt, nonce, key, text),
    }
}

// Writes the key.
fn protect<V: KeyVersion>(
    alloc: Global,
    password: &[u8],
    cost: PasswordCost,
    salt: &[u8],
    nonce: &[u8],
    key: &[u8],
    text: &mut [u8],
) -> Option<()>
    ensures { IsSome result → text.new
        ≡ protected V.paserk PasswordKey password.now cost salt.now nonce.now
        (wrapped_form V.paserk key.now) }
{
    let key = PrivateKey::<V>::try_from(Vec::from_slice(alloc, key).ok()?).ok()?;
    let made = protect_secret(alloc, password, cost, salt, nonce, &key.lend()).ok()?;
    copy_bytes(made.as_bytes(), text)
}

// Reads the key in the version of a number.
fn unprotect_in(
    alloc: Global,
    version: u32,
    password: &[u8],
    text: &[u8],
    key: &mut [u8],
) -> Option<()>
    ensures { IsSome result → OfVersion version (IsPrivateUnder PasswordKey password.now most text.now key.new) }
{
    match version_of(version)? {
        PaserkVersion::V1 => unprotect::<V1>(alloc, password, text, key),
        PaserkVersion::V2 => unprotect::<V2>(alloc, password, text, key),
        PaserkVersion::V3 => unprotect::<V3>(alloc, password, text, key),
        PaserkVersion::V4 => unprotect::<V4>(alloc, password, text, key),
    }
}

// Reads the key.
fn unprotect<V: KeyVersion>(
    alloc: Global,
    password: &[u8],
    text: &[u8],
    key: &mut [u8],
) -> Option<()>
    ensures { IsSome result → IsPrivateUnder PasswordKey password.now most text.now key.new V.paserk }
{
    let text = str::from_utf8(text).ok()?;
    let read = unprotect_secret::<V>(alloc, password, MOST, text).ok()?;
    copy_bytes(read.lend().as_bytes(), key)
}
