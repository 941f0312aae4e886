//! The sealing of a text, for versions 1, 3 and 4.

ghost use Rattle.std.specs.Prelude.{◌≡◌, ◌++◌, IfOk, IfErr, OnOk, length, is_some, take, drop, vec_len, ◌≤◌, ℕ, List};
ghost use Rattle.std.specs.String.{string_bytes};
ghost use Rattle.rusty_paseto_parts.specs.Error.{IsMemory};
ghost use Rattle.rusty_paseto_core.specs.Context.{binding_of, bound};
ghost use Rattle.rusty_paseto_core.specs.Local.Sealing.{sealed_payload, sealing, tag_of};

use crate::context::Context;
use crate::framing::frame;
use crate::local::{LocalSuite, NONCE_LENGTH};
use crate::tag::{LONGEST_TAG, write_tag};
use rusty_paseto_parts::{Footer, Header, ImplicitAssertion, Local, PasetoError};
use std::alloc::Global;

/// The token of a text, with the footer's section where a footer is given.
pub(crate) fn seal<V: LocalSuite>(
    alloc: Global,
    key: &[u8; 32],
    seed: &[u8],
    text: &str,
    footer: Option<Footer<'_>>,
    assertion: Option<ImplicitAssertion<'_>>,
) -> Result<String, PasetoError>
    requires { length seed.now ≡ 32 }
    ensures ok { let binding = binding_of key.now footer.entry assertion.entry in
        let nonce = V.design.token_nonce seed.now text.now in
        IfOk result (λ token. string_bytes token ≡ sealing V.design binding nonce
        (is_some footer.entry) text.now) }
    ensures err { IfErr result IsMemory }
{
    let nonce = V::token_nonce(seed, text.as_bytes());
    let context = Context::new(footer, assertion);
    let payload = sealed_payload::<V>(alloc, key, &nonce, &context, text.as_bytes())?;
    frame(
        alloc,
        Header::<V, Local>::default().as_str(),
        &payload,
        footer,
    )
}

// The payload of a sealed token: the nonce, the ciphertext and the tag.
fn sealed_payload<V: LocalSuite>(
    alloc: Global,
    key: &[u8; 32],
    nonce: &[u8; 32],
    context: &Context<'_>,
    text: &[u8],
) -> Result<Vec<u8>, PasetoError>
    ensures ok { IfOk result (λ payload. payload.items
        ≡ sealed_payload V.design (bound key.now context.now) nonce.now text.now) }
    ensures err { IfErr result IsMemory }
{
    let keys = V::split(key, nonce);
    let len = NONCE_LENGTH + V::tag_length() + text.len();
    let mut payload = Vec::with_capacity(alloc, len)?;
    payload.extend_from_slice(nonce)?;
    payload.extend_from_slice(text)?;
    encrypt_text::<V>(&keys, &mut payload);
    push_tag::<V>(&keys, nonce, context, &mut payload)?;
    Ok(payload)
}

// Encrypts what stands behind the nonce, in place.
fn encrypt_text<V: LocalSuite>(keys: &V::Keys, payload: &mut [u8])
    requires { 32 ≤ length payload.old }
    ensures { (key nonce : List ℕ) → V.IsSplit keys.now key nonce
        → payload.new ≡ take 32 payload.old ++ V.design.apply_keystream key nonce
        (drop 32 payload.old) }
{
    V::apply_keystream(keys, &mut payload[NONCE_LENGTH..]);
}

// Appends the tag of what stands behind the nonce.
fn push_tag<V: LocalSuite>(
    keys: &V::Keys,
    nonce: &[u8; 32],
    context: &Context<'_>,
    payload: &mut Vec<u8>,
) -> Result<(), PasetoError>
    requires { 32 ≤ vec_len payload.old }
    ensures ok { OnOk result ((key : List ℕ) → V.IsSplit keys.now key nonce.now → payload.new.items
        ≡ payload.old.items ++ tag_of V.design (bound key context.now) nonce.now
        (drop 32 payload.old.items)) }
    ensures err { IfErr result IsMemory }
{
    let mut space = [0u8; LONGEST_TAG];
    let tag = &mut space[..V::tag_length()];
    write_tag::<V>(keys, nonce, &payload[NONCE_LENGTH..], context, tag);
    payload.extend_from_slice(tag)?;
    Ok(())
}
