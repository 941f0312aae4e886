//! Sealing and opening of local tokens, each many times over, with no footer and no implicit
//! assertion.

ghost use Rattle.std.specs.Prelude.{◌≡◌, ◌≢◌, ◌^◌, ◌-◌, IsSome};
ghost use Rattle.rusty_paseto_core.specs.Local.V1.{v1};
ghost use Rattle.rusty_paseto_core.specs.Local.V3.{v3};
ghost use Rattle.rusty_paseto_core.specs.Local.V4.{v4};
ghost use Rattle.bench_calls.specs.Tokens.{OpensTo, token_of};

use crate::copying::{copy_bytes, last_byte};
use rusty_paseto_core::LocalVersion;
use rusty_paseto_parts::{Key, Local, PasetoNonce, PasetoSymmetricKey, Payload, V1, V3, V4};
use std::alloc::Global;
use std::str;

/// What is answered where a length is wrong, a text is none or a repetition was refused.
const FAILED: u64 = u64::MAX;

/// Seals `text` in version 1, `reps` times and at least once, under a key of 32 bytes. The last token,
/// which `token` has just the room for, is made with the nonce of 32 bytes as it is, and each other one
/// with the number of the repetition in its first four bytes.
///
/// The answer is the sum of the tokens' last bytes, or 2^64 - 1 where a length is wrong, the text is
/// not UTF-8 or memory was refused.
pub fn bench_v1_seal(
    alloc: Global,
    key: &[u8],
    nonce: &[u8],
    text: &[u8],
    token: &mut [u8],
    reps: u32,
) -> u64
    ensures { result ≢ 2 ^ 64 - 1 → token.new ≡ token_of v1 key.now nonce.now text.now }
{
    seal_all::<V1>(alloc, key, nonce, text, token, reps).unwrap_or(FAILED)
}

/// Seals as `bench_v1_seal` does, in version 3.
pub fn bench_v3_seal(
    alloc: Global,
    key: &[u8],
    nonce: &[u8],
    text: &[u8],
    token: &mut [u8],
    reps: u32,
) -> u64
    ensures { result ≢ 2 ^ 64 - 1 → token.new ≡ token_of v3 key.now nonce.now text.now }
{
    seal_all::<V3>(alloc, key, nonce, text, token, reps).unwrap_or(FAILED)
}

/// Seals as `bench_v1_seal` does, in version 4.
pub fn bench_v4_seal(
    alloc: Global,
    key: &[u8],
    nonce: &[u8],
    text: &[u8],
    token: &mut [u8],
    reps: u32,
) -> u64
    ensures { result ≢ 2 ^ 64 - 1 → token.new ≡ token_of v4 key.now nonce.now text.now }
{
    seal_all::<V4>(alloc, key, nonce, text, token, reps).unwrap_or(FAILED)
}

/// Opens a token of version 1, `reps` times and at least once, under a key of 32 bytes. `text` has just
/// the room for what it opens to.
///
/// The answer is the sum of the texts' last bytes, or 2^64 - 1 where a length is wrong, the token was
/// refused or memory was.
pub fn bench_v1_open(alloc: Global, key: &[u8], token: &[u8], text: &mut [u8], reps: u32) -> u64
    ensures { result ≢ 2 ^ 64 - 1 → OpensTo v1 key.now token.now text.new }
{
    open_all::<V1>(alloc, key, token, text, reps).unwrap_or(FAILED)
}

/// Opens as `bench_v1_open` does, in version 3.
pub fn bench_v3_open(alloc: Global, key: &[u8], token: &[u8], text: &mut [u8], reps: u32) -> u64
    ensures { result ≢ 2 ^ 64 - 1 → OpensTo v3 key.now token.now text.new }
{
    open_all::<V3>(alloc, key, token, text, reps).unwrap_or(FAILED)
}

/// Opens as `bench_v1_open` does, in version 4.
pub fn bench_v4_open(alloc: Global, key: &[u8], token: &[u8], text: &mut [u8], reps: u32) -> u64
    ensures { result ≢ 2 ^ 64 - 1 → OpensTo v4 key.now token.now text.new }
{
    open_all::<V4>(alloc, key, token, text, reps).unwrap_or(FAILED)
}

/// Seals the text `reps` times, and at least once, and adds up the tokens' last bytes.
fn seal_all<V: LocalVersion>(
    alloc: Global,
    key: &[u8],
    nonce: &[u8],
    text: &[u8],
    token: &mut [u8],
    reps: u32,
) -> Option<u64>
    ensures { IsSome result → token.new ≡ token_of V.design key.now nonce.now text.now }
{
    let key = PasetoSymmetricKey::<V, Local>::from(Key::from(key.as_array::<32>()?));
    let nonce = nonce.as_array::<32>()?;
    let text = Payload::from(str::from_utf8(text).ok()?);
    let mut sum = 0u64;
    let mut numbered = *nonce;
    'repetitions: for repetition in 1..reps {
        numbered[..4].copy_from_slice(&repetition.to_le_bytes());
        let nonce = Key::from(numbered);
        let sealed = V::seal(alloc, &key, &PasetoNonce::from(&nonce), text, None, None).ok()?;
        sum = sum.wrapping_add(last_byte(sealed.as_bytes()));
    }
    let nonce = Key::from(nonce);
    let sealed = V::seal(alloc, &key, &PasetoNonce::from(&nonce), text, None, None).ok()?;
    copy_bytes(sealed.as_bytes(), token)?;
    Some(sum.wrapping_add(last_byte(sealed.as_bytes())))
}

/// Opens the token `reps` times, and at least once, and adds up the texts' last bytes.
fn open_all<V: LocalVersion>(
    alloc: Global,
    key: &[u8],
    token: &[u8],
    text: &mut [u8],
    reps: u32,
) -> Option<u64>
    ensures { IsSome result → OpensTo V.design key.now token.now text.new }
{
    let key = PasetoSymmetricKey::<V, Local>::from(Key::from(key.as_array::<32>()?));
    let token = str::from_utf8(token).ok()?;
    let mut sum = 0u64;
    'repetitions: for _ in 1..reps {
        let opened = V::open(alloc, token, &key, None, None).ok()?;
        sum = sum.wrapping_add(last_byte(opened.as_bytes()));
    }
    let opened = V::open(alloc, token, &key, None, None).ok()?;
    copy_bytes(opened.as_bytes(), text)?;
    Some(sum.wrapping_add(last_byte(opened.as_bytes())))
}
