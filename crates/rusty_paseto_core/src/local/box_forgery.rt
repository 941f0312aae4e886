//! The forgery of a box that a token of version 2 is if it was never issued.

ghost use Rattle.std.specs.Prelude.{◌≡◌, ◌↔◌, ◌<◌, ◌^◌, ◌≤◌, None, IsTrue, IfOk, IfErr, length};
ghost use Rattle.rusty_paseto_parts.specs.Error.{IsMemory};
ghost use Rattle.rusty_paseto_core.specs.Context.{binding_of, footer_of};
ghost use Rattle.rusty_paseto_core.specs.Local.BoxForgery.{IsBoxForgeryAnswer, IsBoxOpened, IsBoxUnopened, box_case, box_cases};
ghost use Rattle.rusty_paseto_core.specs.Local.Boxed.{HasRoom, associated, box_in, nonce_in};

use crate::context::Context;
use crate::local::boxed::{NONCE_LENGTH, associated, open_payload};
use crate::local::sealed_box::SealedBox;
use crate::local::tag_collision::Opening;
use crate::paseto::Paseto;
use crate::reading::{nonce_of, unframe};
use rusty_paseto_parts::{Footer, Local, PasetoError, PreAuthenticationEncoding, V2};
use std::alloc::Global;

/// A sealing by a box, and what it was made with besides the key and the message.
#[derive(Drop)]
pub struct BoxForgery {
    /// The token's nonce.
    pub nonce: [u8; 24],
    /// The associated data: the encoding of the token's header, nonce and footer.
    pub encoding: PreAuthenticationEncoding,
    /// The sealing: the ciphertext and the tag of 16 bytes behind it.
    pub sealing: Vec<u8>,
}

impl Paseto<'_, V2, Local> {
    /// What a token shows that decrypts: a sealing by the box, with a nonce and associated data, that no issued token under
    /// its key is. `None` means that it is one of them, up to the dot before the section of an empty footer. An implicit
    /// assertion is ignored.
    ///
    /// So whoever makes a new token, without the key, from any number of issued ones has forged a sealing, as
    /// `laws::box_forgeries_are_new` says. Of XChaCha20-Poly1305 that is a tag of Poly1305 under the one-time key of the
    /// nonce, as a law of that box says.
    ///
    /// The errors are as those of `forgery` in the other versions, by `try_decrypt` of this one.
    pub fn forgery<B: SealedBox>(
        alloc: Global,
        sealed_box: &B,
        issued: &[Opening<'_, V2>],
        token: Opening<'_, V2>,
    ) -> Result<Option<BoxForgery>, PasetoError>
        ensures { IsBoxForgeryAnswer B.sealing (box_cases issued.now) (box_case token.entry) result }
    {
        find_forgery(alloc, sealed_box, issued, token)
    }
}

// The sealing of a token, unless it is one of those that were issued.
fn find_forgery<B: SealedBox>(
    alloc: Global,
    sealed_box: &B,
    issued: &[Opening<'_, V2>],
    token: Opening<'_, V2>,
) -> Result<Option<BoxForgery>, PasetoError>
    ensures { IsBoxForgeryAnswer B.sealing (box_cases issued.now) (box_case token.entry) result }
{
    let own = payload_of(
        alloc,
        sealed_box,
        token.token,
        token.key.as_bytes(),
        token.footer,
    )?;
    let found = forgery_of(alloc, &own, token.footer)?;
    'each: for one in issued {
        let other = payload_of(alloc, sealed_box, one.token, one.key.as_bytes(), one.footer)?;
        if is_same(*one, &other, token, &own) {
            return Ok(None);
        }
    }
    Ok(Some(found))
}

// The payload of a token, which opens.
fn payload_of<B: SealedBox>(
    alloc: Global,
    sealed_box: &B,
    token: &str,
    key: &[u8; 32],
    footer: Option<Footer<'_>>,
) -> Result<Vec<u8>, PasetoError>
    ensures ok { IfOk result (λ payload. IsBoxOpened B.sealing
        (record { token = token.now; binding = binding_of key.now footer.entry None }) payload.items) }
    ensures room { IfOk result (λ payload. HasRoom payload.items) }
    ensures err { IfErr result (IsBoxUnopened B.sealing
        (record { token = token.now; binding = binding_of key.now footer.entry None })) }
{
    let context = Context::new(footer, None);
    let payload = unframe::<V2, Local>(alloc, token, context.footer())?;
    let text = open_payload(alloc, sealed_box, &payload, key, &context)?;
    drop(text);
    Ok(payload)
}

// The parts of a payload, and the associated data.
fn forgery_of(
    alloc: Global,
    payload: &[u8],
    footer: Option<Footer<'_>>,
) -> Result<BoxForgery, PasetoError>
    requires { HasRoom payload.now }
    ensures nonce { IfOk result (λ found. found.nonce ≡ nonce_in payload.now) }
    ensures encoding { IfOk result (λ found. found.encoding ≡ associated (nonce_in payload.now)
        (footer_of footer.entry)) }
    ensures fits { IfOk result (λ found. length found.encoding < 2 ^ 64) }
    ensures sealing { IfOk result (λ found. found.sealing.items ≡ box_in payload.now) }
    ensures err { IfErr result IsMemory }
{
    let nonce = nonce_of::<NONCE_LENGTH>(payload);
    let context = Context::new(footer, None);
    let encoding = associated(alloc, &nonce, &context)?;
    let sealing = Vec::from_slice(alloc, &payload[NONCE_LENGTH..])?;
    Ok(BoxForgery {
        nonce,
        encoding,
        sealing,
    })
}

// Whether two tokens have one key, payload and footer.
fn is_same(first: Opening<'_, V2>, one: &[u8], second: Opening<'_, V2>, other: &[u8]) -> bool
    ensures { IsTrue result ↔ (((box_case first.entry).binding ≡ (box_case second.entry).binding)
        × (one.now ≡ other.now)) }
{
    let context = Context::new(first.footer, first.assertion);
    let other_context = Context::new(second.footer, second.assertion);
    first.key.as_bytes() == second.key.as_bytes()
        && context.footer() == other_context.footer()
        && one == other
}
