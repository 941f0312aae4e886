//! Local tokens of version 2: a nonce and a sealed box (PASETO specification, "Version 2").

ghost use Rattle.std.specs.Prelude.{◌≡◌, ◌<◌, ◌^◌, ◌≤◌, ◌⊎◌, None, Some, IfOk, IfErr, is_some, length, option_map};
ghost use Rattle.std.specs.String.{string_bytes};
ghost use Rattle.rusty_paseto_parts.specs.Error.{IsMemory};
ghost use Rattle.rusty_paseto_core.specs.Context.{binding_of, bound};
ghost use Rattle.rusty_paseto_core.specs.Local.Boxed.{HasRoom, HoldsBoxed, IsBoxedFault, IsFound, associated, box_opening, boxed_payload, boxed_sealing, token_nonce};
ghost use Rattle.rusty_paseto_core.specs.Reading.{IsAnswer};

use crate::context::Context;
use crate::framing::frame;
use crate::local::sealed_box::SealedBox;
use crate::reading::{nonce_of, unframe};
use rusty_paseto_parts::{Footer, Local, PasetoError, PreAuthenticationEncoding, V2};
use rusty_paseto_primitives::blake2b_keyed;
use std::alloc::Global;

/// The header that begins the version's local tokens.
const HEADER: &str = "v2.local.";

/// How many bytes a token's nonce has.
pub(crate) const NONCE_LENGTH: usize = 24;

/// The token of a text, with the footer's section where a footer is given.
#[tactic(auto, unfolding(rusty_paseto_parts::specs::Header::header_text))]
pub(crate) fn seal<B: SealedBox>(
    alloc: Global,
    sealed_box: &B,
    key: &[u8; 32],
    seed: &[u8],
    text: &str,
    footer: Option<Footer<'_>>,
) -> Result<String, PasetoError>
    requires { length seed.now ≤ 64 }
    ensures ok { let binding = binding_of key.now footer.entry None in
        let nonce = token_nonce seed.now text.now in
        IfOk result (λ token. boxed_sealing B.sealing binding nonce (is_some footer.entry) text.now
        ≡ Some (string_bytes token)) }
    ensures err { let binding = binding_of key.now footer.entry None in
        let nonce = token_nonce seed.now text.now in
        IfErr result (λ error. IsMemory error ⊎ ((error ≡ PasetoError.ChaChaCipherError)
        × (boxed_sealing B.sealing binding nonce (is_some footer.entry) text.now ≡ None))) }
{
    let nonce: [u8; 24] = blake2b_keyed(seed, text.as_bytes());
    let context = Context::new(footer, None);
    let payload = boxed_payload(alloc, sealed_box, key, &nonce, &context, text.as_bytes())?;
    frame(alloc, HEADER, &payload, footer)
}

// The payload of a sealed token: the nonce and the text's box.
fn boxed_payload<B: SealedBox>(
    alloc: Global,
    sealed_box: &B,
    key: &[u8; 32],
    nonce: &[u8; 24],
    context: &Context<'_>,
    text: &[u8],
) -> Result<Vec<u8>, PasetoError>
    ensures ok { IfOk result (λ payload. boxed_payload B.sealing
        (bound key.now context.now) nonce.now text.now
        ≡ Some payload.items) }
    ensures err { IfErr result (λ error. IsMemory error ⊎ ((error ≡ PasetoError.ChaChaCipherError)
        × (boxed_payload B.sealing (bound key.now context.now) nonce.now text.now ≡ None))) }
{
    let associated = associated(alloc, nonce, context)?;
    let found = sealed_box.seal(alloc, key, nonce, associated.as_bytes(), text)?;
    let Some(boxed) = found else {
        return Err(PasetoError::ChaChaCipherError);
    };
    let mut payload = Vec::with_capacity(alloc, NONCE_LENGTH + boxed.len())?;
    payload.extend_from_slice(nonce)?;
    payload.extend_from_slice(&boxed)?;
    Ok(payload)
}

/// What is bound to the text, and not encrypted: the header, the nonce and the footer.
#[tactic(auto, unfolding(rusty_paseto_parts::specs::Header::header_text))]
pub(crate) fn associated(
    alloc: Global,
    nonce: &[u8; 24],
    context: &Context<'_>,
) -> Result<PreAuthenticationEncoding, PasetoError>
    ensures ok { IfOk result (λ encoding. encoding ≡ associated nonce.now context.now.footer) }
    ensures fits { IfOk result (λ encoding. length encoding < 2 ^ 64) }
    ensures err { IfErr result IsMemory }
{
    PreAuthenticationEncoding::parse(alloc, &[HEADER.as_bytes(), nonce, context.footer()])
}

/// The text to which a token opens, or the first fault of reading it.
pub(crate) fn open<B: SealedBox>(
    alloc: Global,
    sealed_box: &B,
    token: &str,
    key: &[u8; 32],
    context: &Context<'_>,
) -> Result<String, PasetoError>
    ensures { IsAnswer (box_opening B.sealing (bound key.now context.now)) token.now result }
{
    let payload = unframe::<V2, Local>(alloc, token, context.footer())?;
    open_payload(alloc, sealed_box, &payload, key, context)
}

/// The text that a payload holds. A payload with no room for a nonce is refused before the box is asked.
pub(crate) fn open_payload<B: SealedBox>(
    alloc: Global,
    sealed_box: &B,
    payload: &[u8],
    key: &[u8; 32],
    context: &Context<'_>,
) -> Result<String, PasetoError>
    ensures holds { IfOk result (λ text. HoldsBoxed B.sealing
        (bound key.now context.now) payload.now (string_bytes text)) }
    ensures fault { IfErr result (λ error. IsMemory error
        ⊎ IsBoxedFault B.sealing (bound key.now context.now) payload.now error) }
{
    if payload.len() < NONCE_LENGTH {
        return Err(PasetoError::IncorrectSize);
    }
    let Some(message) = open_box(alloc, sealed_box, payload, key, context)? else {
        return Err(PasetoError::ChaChaCipherError);
    };
    match String::from_utf8(message) {
        Ok(text) => Ok(text),
        Err(error) => Err(PasetoError::Utf8Error {
            source: error.utf8_error(),
        }),
    }
}

// The message whose box a payload holds, or `None` where it holds the box of no message.
fn open_box<B: SealedBox>(
    alloc: Global,
    sealed_box: &B,
    payload: &[u8],
    key: &[u8; 32],
    context: &Context<'_>,
) -> Result<Option<Vec<u8>>, PasetoError>
    requires { HasRoom payload.now }
    ensures ok { IfOk result (λ found. IsFound B.sealing (bound key.now context.now) payload.now
        (option_map (λ bytes. bytes.items) found)) }
    ensures err { IfErr result IsMemory }
{
    let nonce = nonce_of::<NONCE_LENGTH>(payload);
    let associated = associated(alloc, &nonce, context)?;
    let boxed = &payload[NONCE_LENGTH..];
    let found = sealed_box.open(alloc, key, &nonce, associated.as_bytes(), boxed)?;
    Ok(found)
}
