//! Keys of local tokens under a password, each many times over.
//!
//! Each call answers the sum of the last bytes of what it made, or 2^64 - 1 where there is no such version, a length is
//! wrong, a cost is not allowed, a text is no key under the password or memory was refused.

ghost use Rattle.std.specs.Prelude.{◌≡◌, ◌≢◌, ◌^◌, ◌-◌, IsSome};
ghost use Rattle.paseto_wrapping.specs.declared.header.WrappedType.TheVariants.{LocalPassword as LocalKey};
ghost use Rattle.paseto_wrapping.specs.Password.{protected};
ghost use Rattle.bench_calls.specs.Versions.{OfVersion};
ghost use Rattle.bench_calls.specs.Wrapped.{IsUnder, cost_of, most};

use crate::copying::{copy_bytes, last_byte};
use crate::versions::version_of;
use paseto_wrapping::{PasswordCost, protect_local, unprotect_local};
use rusty_paseto_parts::{Key, Local, PasetoSymmetricKey, V1, V2, V3, V4};
use rusty_paseto_paserk::{KeyVersion, PaserkVersion};
use std::alloc::Global;
use std::str;

/// What is answered where a length is wrong, a text is none or a repetition was refused.
const FAILED: u64 = u64::MAX;

/// What a text may ask for: what `PasswordCost::most` allows.
pub(crate) const MOST: PasswordCost = PasswordCost {
    iterations: 10_000_000,
    memory: 1 << 30,
    passes: 32,
    lanes: 16,
};

/// Writes a key of local tokens of a version, which is named by its number, under a password, `reps` times and at least
/// once. The versions 1 and 3 use the iterations, and the others the memory, in bytes, and the passes, with one lane.
/// `text` has just the room for the text.
pub fn bench_protect_local(
    alloc: Global,
    version: u32,
    password: &[u8],
    iterations: u32,
    memory: u64,
    passes: u32,
    salt: &[u8],
    nonce: &[u8],
    key: &[u8],
    text: &mut [u8],
    reps: u32,
) -> u64
    ensures { result ≢ 2 ^ 64 - 1 → OfVersion version (λ version. text.new ≡ protected version LocalKey
        password.now (cost_of iterations memory passes) salt.now nonce.now key.now) }
{
    let cost = one_lane(iterations, memory, passes);
    protect_in(alloc, version, password, cost, salt, nonce, key, text, reps).unwrap_or(FAILED)
}

/// Reads what `bench_protect_local` writes, `reps` times and at least once, where it asks for no more than
/// `PasswordCost::most` allows. `key` has just the room for the key.
pub fn bench_unprotect_local(
    alloc: Global,
    version: u32,
    password: &[u8],
    text: &[u8],
    key: &mut [u8],
    reps: u32,
) -> u64
    ensures { result ≢ 2 ^ 64 - 1
        → OfVersion version (IsUnder LocalKey password.now most text.now key.new) }
{
    unprotect_in(alloc, version, password, text, key, reps).unwrap_or(FAILED)
}

/// The cost of so many iterations, bytes of memory and passes, with one lane.
pub(crate) fn one_lane(iterations: u32, memory: u64, passes: u32) -> PasswordCost
    ensures { result ≡ cost_of iterations memory passes }
{
    PasswordCost {
        iterations,
        memory,
        passes,
        lanes: 1,
    }
}

// Writes the key in the version of a number.
fn protect_in(
    alloc: Global,
    version: u32,
    password: &[u8],
    cost: PasswordCost,
    salt: &[u8],
    nonce: &[u8],
    key: &[u8],
    text: &mut [u8],
    reps: u32,
) -> Option<u64>
    ensures { IsSome result → OfVersion version (λ version. text.new
        ≡ protected version LocalKey password.now cost salt.now nonce.now key.now) }
{
    match version_of(version)? {
        PaserkVersion::V1 => protect::<V1>(alloc, password, cost, salt, nonce, key, text, reps),
        PaserkVersion::V2 => protect::<V2>(alloc, password, cost, salt, nonce, key, text, reps),
        PaserkVersion::V3 => protect::<V3>(alloc, password, cost, salt, nonce, key, text, reps),
        PaserkVersion::V4 => protect::<V4>(alloc, password, cost, salt, nonce, key, text, reps),
    }
}

// Writes the key `reps` times, and at least once, and adds up the texts' last bytes.
fn protect<V: KeyVersion>(
    alloc: Global,
    password: &[u8],
    cost: PasswordCost,
    salt: &[u8],
    nonce: &[u8],
    key: &[u8],
    text: &mut [u8],
    reps: u32,
) -> Option<u64>
    ensures { IsSome result → text.new
        ≡ protected V.paserk LocalKey password.now cost salt.now nonce.now key.now }
{
    let key = PasetoSymmetricKey::<V, Local>::from(Key::from(key.as_array::<32>()?));
    let mut sum = 0u64;
    'repetitions: for _ in 1..reps {
        let made = protect_local(alloc, password, cost, salt, nonce, &key).ok()?;
        sum = sum.wrapping_add(last_byte(made.as_bytes()));
    }
    let made = protect_local(alloc, password, cost, salt, nonce, &key).ok()?;
    copy_bytes(made.as_bytes(), text)?;
    Some(sum.wrapping_add(last_byte(made.as_bytes())))
}

// Reads the key in the version of a number.
fn unprotect_in(
    alloc: Global,
    version: u32,
    password: &[u8],
    text: &[u8],
    key: &mut [u8],
    reps: u32,
) -> Option<u64>
    ensures { IsSome result → OfVersion version (IsUnder LocalKey password.now most text.now key.new) }
{
    match version_of(version)? {
        PaserkVersion::V1 => unprotect::<V1>(alloc, password, text, key, reps),
        PaserkVersion::V2 => unprotect::<V2>(alloc, password, text, key, reps),
        PaserkVersion::V3 => unprotect::<V3>(alloc, password, text, key, reps),
        PaserkVersion::V4 => unprotect::<V4>(alloc, password, text, key, reps),
    }
}

// Reads the key `reps` times, and at least once, and adds up the keys' last bytes.
fn unprotect<V: KeyVersion>(
    alloc: Global,
    password: &[u8],
    text: &[u8],
    key: &mut [u8],
    reps: u32,
) -> Option<u64>
    ensures { IsSome result → IsUnder LocalKey password.now most text.now key.new V.paserk }
{
    let text = str::from_utf8(text).ok()?;
    let mut sum = 0u64;
    'repetitions: for _ in 1..reps {
        let read = unprotect_local::<V>(alloc, password, MOST, text).ok()?;
        sum = sum.wrapping_add(read.as_bytes()[31] as u64);
    }
    let read = unprotect_local::<V>(alloc, password, MOST, text).ok()?;
    copy_bytes(read.as_bytes(), key)?;
    Some(sum.wrapping_add(read.as_bytes()[31] as u64))
}
