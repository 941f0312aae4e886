//! Keys of local tokens that are sealed to a public key, each many times over.
//!
//! Each call answers the sum of the last bytes of what it made, or 2^64 - 1 where the version is none of 2, 3 and 4, a
//! length is wrong, a key or a text is refused or memory was.

ghost use Rattle.std.specs.Prelude.{◌≡◌, ◌≢◌, ◌^◌, ◌-◌, IsSome, IfSome};
ghost use Rattle.paseto_wrapping.specs.Family.{family_of};
ghost use Rattle.paseto_wrapping.specs.Sealing.{IsSealed, secret_length};
ghost use Rattle.bench_calls.specs.Versions.{OfVersion};
ghost use Rattle.bench_calls.specs.Wrapped.{IsSealedFor};

use crate::copying::{copy_bytes, last_byte};
use crate::versions::version_of;
use paseto_wrapping::{seal, unseal};
use rusty_paseto_parts::{Key, Local, PasetoSymmetricKey, PrivateKey, PublicKey, V2, V3, V4};
use rusty_paseto_paserk::{KeyPairVersion, PaserkVersion};
use std::alloc::Global;
use std::str;

/// What is answered where a length is wrong, a key or a text is refused or a repetition was.
const FAILED: u64 = u64::MAX;

/// Seals a key of local tokens of a version, which is named by its number, to a public key, by an ephemeral secret key,
/// `reps` times and at least once. `text` has just the room for the text.
pub fn bench_seal_key(
    alloc: Global,
    version: u32,
    public: &[u8],
    ephemeral: &[u8],
    key: &[u8],
    text: &mut [u8],
    reps: u32,
) -> u64
    ensures { result ≢ 2 ^ 64 - 1 → OfVersion version
        (λ version. IsSealed version public.now ephemeral.now key.now text.new) }
{
    seal_in(alloc, version, public, ephemeral, key, text, reps).unwrap_or(FAILED)
}

/// Unseals what `bench_seal_key` makes, `reps` times and at least once. `key` has just the room for the key.
pub fn bench_unseal_key(
    alloc: Global,
    version: u32,
    private: &[u8],
    text: &[u8],
    key: &mut [u8],
    reps: u32,
) -> u64
    ensures { result ≢ 2 ^ 64 - 1 → OfVersion version (IsSealedFor private.now text.now key.new) }
{
    unseal_in(alloc, version, private, text, key, reps).unwrap_or(FAILED)
}

// Seals the key in the version of a number.
fn seal_in(
    alloc: Global,
    version: u32,
    public: &[u8],
    ephemeral: &[u8],
    key: &[u8],
    text: &mut [u8],
    reps: u32,
) -> Option<u64>
    ensures { IsSome result → OfVersion version
        (λ version. IsSealed version public.now ephemeral.now key.now text.new) }
{
    match version_of(version)? {
        PaserkVersion::V1 => None,
        PaserkVersion::V2 => seal_often::<V2, 32>(alloc, public, ephemeral, key, text, reps),
        PaserkVersion::V3 => seal_often::<V3, 48>(alloc, public, ephemeral, key, text, reps),
        PaserkVersion::V4 => seal_often::<V4, 32>(alloc, public, ephemeral, key, text, reps),
    }
}

// Seals the key `reps` times, and at least once, and adds up the texts' last bytes.
fn seal_often<V: KeyPairVersion, const N: usize>(
    alloc: Global,
    public: &[u8],
    ephemeral: &[u8],
    key: &[u8],
    text: &mut [u8],
    reps: u32,
) -> Option<u64>
    requires { N ≡ secret_length (family_of V.paserk) }
    ensures { IsSome result → IsSealed V.paserk public.now ephemeral.now key.now text.new }
{
    let public = PublicKey::<V>::try_from(Vec::from_slice(alloc, public).ok()?).ok()?;
    let ephemeral = Key::from(ephemeral.as_array::<N>()?);
    let key = PasetoSymmetricKey::<V, Local>::from(Key::from(key.as_array::<32>()?));
    let mut sum = 0u64;
    'repetitions: for _ in 1..reps {
        let made = seal(alloc, &public.lend(), &ephemeral, &key).ok()?;
        sum = sum.wrapping_add(last_byte(made.as_bytes()));
    }
    let made = seal(alloc, &public.lend(), &ephemeral, &key).ok()?;
    copy_bytes(made.as_bytes(), text)?;
    Some(sum.wrapping_add(last_byte(made.as_bytes())))
}

// Unseals the key in the version of a number.
fn unseal_in(
    alloc: Global,
    version: u32,
    private: &[u8],
    text: &[u8],
    key: &mut [u8],
    reps: u32,
) -> Option<u64>
    ensures { IsSome result → OfVersion version (IsSealedFor private.now text.now key.new) }
{
    match version_of(version)? {
        PaserkVersion::V1 => None,
        PaserkVersion::V2 => unseal_often::<V2>(alloc, private, text, key, reps),
        PaserkVersion::V3 => unseal_often::<V3>(alloc, private, text, key, reps),
        PaserkVersion::V4 => unseal_often::<V4>(alloc, private, text, key, reps),
    }
}

// Unseals the key under a private key of these bytes.
fn unseal_often<V: KeyPairVersion>(
    alloc: Global,
    private: &[u8],
    text: &[u8],
    key: &mut [u8],
    reps: u32,
) -> Option<u64>
    ensures { IsSome result → IsSealedFor private.now text.now key.new V.paserk }
{
    let private = private_of::<V>(alloc, private)?;
    let text = str::from_utf8(text).ok()?;
    unseal_under(alloc, &private, text, key, reps)
}

// Unseals the key `reps` times, and at least once, and adds up the keys' last bytes.
fn unseal_under<V: KeyPairVersion>(
    alloc: Global,
    private: &PrivateKey<V>,
    text: &str,
    key: &mut [u8],
    reps: u32,
) -> Option<u64>
    ensures { IsSome result → IsSealedFor private.now text.now key.new V.paserk }
{
    let mut sum = 0u64;
    'repetitions: for _ in 1..reps {
        let read = unsealed(alloc, private, text)?;
        sum = sum.wrapping_add(read.as_bytes()[31] as u64);
    }
    let read = unsealed(alloc, private, text)?;
    copy_bytes(read.as_bytes(), key)?;
    Some(sum.wrapping_add(read.as_bytes()[31] as u64))
}

// The private key of these bytes.
fn private_of<V: KeyPairVersion>(alloc: Global, bytes: &[u8]) -> Option<PrivateKey<V>>
    ensures { IfSome result (λ private. private ≡ bytes.now) }
{
    PrivateKey::try_from(Vec::from_slice(alloc, bytes).ok()?).ok()
}

// The key that a text seals.
fn unsealed<V: KeyPairVersion>(
    alloc: Global,
    private: &PrivateKey<V>,
    text: &str,
) -> Option<PasetoSymmetricKey<V, Local>>
    ensures { IfSome result (λ key. IsSealedFor private.now text.now key V.paserk) }
{
    match unseal(alloc, &private.lend(), text) {
        Ok(key) => Some(key),
        Err(_) => None,
    }
}
