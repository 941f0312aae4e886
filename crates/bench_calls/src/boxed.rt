//! The sealed box of version 2 and the version's local tokens, which it seals, each many times over.

ghost use Rattle.std.specs.Prelude.{◌≡◌, ◌≢◌, ◌^◌, ◌-◌, IfSome, IsSome, Some};
ghost use Rattle.std.specs.String.{string_bytes};
ghost use Rattle.rusty_paseto_parts.specs.Payload.{payload_text};
ghost use Rattle.paseto_xchacha20poly1305.specs.Sealing.{box_sealing};
ghost use Rattle.rusty_paseto_core.specs.Local.SealedBox.{IsOpening};
ghost use Rattle.bench_calls.specs.Boxed.{OpensToText, boxed_token};

use crate::copying::{copy_bytes, last_byte};
use paseto_xchacha20poly1305::XChaCha20Poly1305;
use rusty_paseto_core::{Paseto, SealedBox};
use rusty_paseto_parts::{Key, Local, PasetoNonce, PasetoSymmetricKey, Payload, V2};
use std::alloc::Global;
use std::str;

/// What is answered where a length is wrong, a text is none or a repetition was refused.
const FAILED: u64 = u64::MAX;

/// Seals `message`, with `data` beside it, by XChaCha20-Poly1305, `reps` times and at least once, under a
/// key of 32 bytes. The last sealing, which `boxed` has just the room for, is made with the nonce of 24
/// bytes as it is, and each other one with the number of the repetition in its first four bytes.
///
/// The answer is the sum of the sealings' last bytes, or 2^64 - 1 where a length is wrong or memory was
/// refused.
pub fn bench_xchacha20poly1305_seal(
    alloc: Global,
    key: &[u8],
    nonce: &[u8],
    data: &[u8],
    message: &[u8],
    boxed: &mut [u8],
    reps: u32,
) -> u64
    ensures { result ≢ 2 ^ 64 - 1
        → Some boxed.new ≡ box_sealing key.now nonce.now «data».now message.now }
{
    seal_boxes(alloc, key, nonce, data, message, boxed, reps).unwrap_or(FAILED)
}

/// Opens what `bench_xchacha20poly1305_seal` makes, `reps` times and at least once. `message` has just
/// the room for what it opens to.
///
/// The answer is the sum of the messages' last bytes, or 2^64 - 1 where a length is wrong, the box does not
/// open or memory was refused.
pub fn bench_xchacha20poly1305_open(
    alloc: Global,
    key: &[u8],
    nonce: &[u8],
    data: &[u8],
    boxed: &[u8],
    message: &mut [u8],
    reps: u32,
) -> u64
    ensures { result ≢ 2 ^ 64 - 1
        → IsOpening (box_sealing key.now nonce.now «data».now) boxed.now (Some message.new) }
{
    open_boxes(alloc, key, nonce, data, boxed, message, reps).unwrap_or(FAILED)
}

/// Seals `text` in version 2 by that box, as `bench_v1_seal` does in version 1.
pub fn bench_v2_seal(
    alloc: Global,
    key: &[u8],
    nonce: &[u8],
    text: &[u8],
    token: &mut [u8],
    reps: u32,
) -> u64
    ensures { result ≢ 2 ^ 64 - 1 → Some token.new ≡ boxed_token key.now nonce.now text.now }
{
    seal_tokens(alloc, key, nonce, text, token, reps).unwrap_or(FAILED)
}

/// Opens a token of version 2 by that box, as `bench_v1_open` does in version 1.
pub fn bench_v2_open(alloc: Global, key: &[u8], token: &[u8], text: &mut [u8], reps: u32) -> u64
    ensures { result ≢ 2 ^ 64 - 1 → OpensToText key.now token.now text.new }
{
    open_tokens(alloc, key, token, text, reps).unwrap_or(FAILED)
}

/// Seals the message `reps` times, and at least once, and adds up the sealings' last bytes.
fn seal_boxes(
    alloc: Global,
    key: &[u8],
    nonce: &[u8],
    data: &[u8],
    message: &[u8],
    boxed: &mut [u8],
    reps: u32,
) -> Option<u64>
    ensures { IsSome result
        → Some boxed.new ≡ box_sealing key.now nonce.now «data».now message.now }
{
    let (key, nonce) = (key.as_array::<32>()?, nonce.as_array::<24>()?);
    let mut sum = 0u64;
    let mut numbered = *nonce;
    'repetitions: for repetition in 1..reps {
        numbered[..4].copy_from_slice(&repetition.to_le_bytes());
        let made = XChaCha20Poly1305
            .seal(alloc, key, &numbered, data, message)
            .ok()??;
        sum = sum.wrapping_add(last_byte(&made));
    }
    let made = XChaCha20Poly1305
        .seal(alloc, key, nonce, data, message)
        .ok()??;
    copy_bytes(&made, boxed)?;
    Some(sum.wrapping_add(last_byte(&made)))
}

/// Opens the box `reps` times, and at least once, and adds up the messages' last bytes.
fn open_boxes(
    alloc: Global,
    key: &[u8],
    nonce: &[u8],
    data: &[u8],
    boxed: &[u8],
    message: &mut [u8],
    reps: u32,
) -> Option<u64>
    ensures { IsSome result
        → IsOpening (box_sealing key.now nonce.now «data».now) boxed.now (Some message.new) }
{
    let (key, nonce) = (key.as_array::<32>()?, nonce.as_array::<24>()?);
    let mut sum = 0u64;
    'repetitions: for _ in 1..reps {
        let opened = XChaCha20Poly1305
            .open(alloc, key, nonce, data, boxed)
            .ok()??;
        sum = sum.wrapping_add(last_byte(&opened));
    }
    let opened = XChaCha20Poly1305
        .open(alloc, key, nonce, data, boxed)
        .ok()??;
    copy_bytes(&opened, message)?;
    Some(sum.wrapping_add(last_byte(&opened)))
}

/// Seals the text `reps` times, and at least once, and adds up the tokens' last bytes.
fn seal_tokens(
    alloc: Global,
    key: &[u8],
    nonce: &[u8],
    text: &[u8],
    token: &mut [u8],
    reps: u32,
) -> Option<u64>
    ensures { IsSome result → Some token.new ≡ boxed_token key.now nonce.now text.now }
{
    let key = PasetoSymmetricKey::<V2, Local>::from(Key::from(key.as_array::<32>()?));
    let nonce = nonce.as_array::<32>()?;
    let text = Payload::from(str::from_utf8(text).ok()?);
    let mut sum = 0u64;
    let mut numbered = *nonce;
    'repetitions: for repetition in 1..reps {
        numbered[..4].copy_from_slice(&repetition.to_le_bytes());
        let sealed = seal_token(alloc, &key, numbered, text)?;
        sum = sum.wrapping_add(last_byte(sealed.as_bytes()));
    }
    let sealed = seal_token(alloc, &key, *nonce, text)?;
    copy_bytes(sealed.as_bytes(), token)?;
    Some(sum.wrapping_add(last_byte(sealed.as_bytes())))
}

/// The token of a text.
fn seal_token(
    alloc: Global,
    key: &PasetoSymmetricKey<V2, Local>,
    nonce: [u8; 32],
    text: Payload<'_>,
) -> Option<String>
    ensures { IfSome result (λ token. Some (string_bytes token)
        ≡ boxed_token key.now nonce (payload_text text.entry)) }
{
    let nonce = Key::from(nonce);
    let mut paseto = Paseto::<V2, Local>::default();
    paseto.set_payload(text);
    paseto
        .try_encrypt(alloc, &XChaCha20Poly1305, key, &PasetoNonce::from(&nonce))
        .ok()
}

/// Opens the token `reps` times, and at least once, and adds up the texts' last bytes.
fn open_tokens(alloc: Global, key: &[u8], token: &[u8], text: &mut [u8], reps: u32) -> Option<u64>
    ensures { IsSome result → OpensToText key.now token.now text.new }
{
    let key = PasetoSymmetricKey::<V2, Local>::from(Key::from(key.as_array::<32>()?));
    let token = str::from_utf8(token).ok()?;
    let mut sum = 0u64;
    'repetitions: for _ in 1..reps {
        let opened = Paseto::<V2, Local>::try_decrypt(
            alloc,
            &XChaCha20Poly1305,
            token,
            &key,
            None,
        ).ok()?;
        sum = sum.wrapping_add(last_byte(opened.as_bytes()));
    }
    let opened = Paseto::<V2, Local>::try_decrypt(
        alloc,
        &XChaCha20Poly1305,
        token,
        &key,
        None,
    ).ok()?;
    copy_bytes(opened.as_bytes(), text)?;
    Some(sum.wrapping_add(last_byte(opened.as_bytes())))
}
