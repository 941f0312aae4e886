//! The opening of a token, for versions 1, 3 and 4.

ghost use Rattle.std.specs.Prelude.{◌≡◌, ◌↔◌, ◌+◌, ◌≤◌, ℕ, List, IsTrue, IfOk, IfErr, take, drop, vec_len};
ghost use Rattle.std.specs.String.{string_bytes};
ghost use Rattle.rusty_paseto_core.specs.Context.{bound};
ghost use Rattle.rusty_paseto_core.specs.Local.Opening.{HasRoom, HasTag, HoldsText, IsSealedFault, nonce_in, opening};
ghost use Rattle.rusty_paseto_core.specs.Reading.{IsAnswer};

use crate::context::Context;
use crate::local::{LocalSuite, NONCE_LENGTH};
use crate::reading::{nonce_of, unframe};
use crate::tag::{LONGEST_TAG, write_tag};
use rusty_paseto_parts::{Local, PasetoError};
use rusty_paseto_primitives::same_bytes;
use std::alloc::Global;

/// The text to which a token opens, or the first fault of reading it.
pub(crate) fn open<V: LocalSuite>(
    alloc: Global,
    token: &str,
    key: &[u8; 32],
    context: &Context<'_>,
) -> Result<String, PasetoError>
    ensures { IsAnswer (opening V.design (bound key.now context.now)) token.now result }
{
    let payload = unframe::<V, Local>(alloc, token, context.footer())?;
    open_payload::<V>(payload, key, context)
}

// The text that a payload holds. It is decrypted in the payload's own memory.
pub(crate) fn open_payload<V: LocalSuite>(
    mut payload: Vec<u8>,
    key: &[u8; 32],
    context: &Context<'_>,
) -> Result<String, PasetoError>
    ensures holds { IfOk result (λ text. HoldsText V.design
        (bound key.now context.now) payload.items (string_bytes text)) }
    ensures fault { IfErr result (IsSealedFault V.design
        (bound key.now context.now) payload.items) }
{
    let len = payload.len();
    if len < NONCE_LENGTH + V::tag_length() {
        return Err(PasetoError::IncorrectSize);
    }
    let nonce = nonce_of::<NONCE_LENGTH>(&payload);
    let keys = V::split(key, &nonce);
    if !has_tag::<V>(&keys, &nonce, context, &payload) {
        return Err(PasetoError::Cryption);
    }
    keep_ciphertext(&mut payload, len - V::tag_length());
    V::apply_keystream(&keys, &mut payload);
    match String::from_utf8(payload) {
        Ok(text) => Ok(text),
        Err(error) => Err(PasetoError::Utf8Error {
            source: error.utf8_error(),
        }),
    }
}

// Whether a payload ends in the tag of its pieces.
fn has_tag<V: LocalSuite>(
    keys: &V::Keys,
    nonce: &[u8; 32],
    context: &Context<'_>,
    payload: &[u8],
) -> bool
    requires room { HasRoom V.design payload.now }
    requires nonce { nonce.now ≡ nonce_in payload.now }
    ensures { (key : List ℕ) → V.IsSplit keys.now key nonce.now
        → (IsTrue result ↔ HasTag V.design (bound key context.now) payload.now) }
{
    let end = payload.len() - V::tag_length();
    let mut space = [0u8; LONGEST_TAG];
    let tag = &mut space[..V::tag_length()];
    write_tag::<V>(keys, nonce, &payload[NONCE_LENGTH..end], context, tag);
    same_bytes(tag, &payload[end..])
}

// Keeps what stands between the nonce and `end`, with no second buffer.
fn keep_ciphertext(payload: &mut Vec<u8>, end: usize)
    requires low { 32 ≤ end }
    requires high { end ≤ vec_len payload.old }
    ensures { payload.new.items ≡ drop 32 (take end payload.old.items) }
{
    payload.copy_within(NONCE_LENGTH..end, 0);
    payload.truncate(end - NONCE_LENGTH);
}
