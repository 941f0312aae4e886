//! What a token shows that opens under a key: what its tag or its signature covers, and that.

ghost use Rattle.std.specs.Prelude.{◌≡◌, ℕ, List, IfErr, IfOk, None, false, string_bytes, true};
ghost use Rattle.rusty_paseto_parts.specs.Error.{IsMemory};
ghost use Rattle.rusty_paseto_core.specs.Context.{assertion_of, binding_of, footer_of};
ghost use Rattle.rusty_paseto_core.specs.Local.BoxForgery.{BoxOpens};
ghost use Rattle.rusty_paseto_core.specs.Local.TagCollision.{Opens};
ghost use Rattle.rusty_paseto_core.specs.Public.SignatureForgery.{IsVerified};
ghost use Rattle.rusty_paseto_core.specs.Reading.{IsRead};
ghost use Rattle.paseto_keys.specs.AnyKey.{binding, parts_of, reads_tokens, takes_assertion};
ghost use Rattle.paseto_keys.specs.Reading.{reading_by};
ghost use Rattle.paseto_xchacha20poly1305.specs.Sealing.{box_sealing};
ghost use Rattle.paseto_tasks.specs.Arguments.{Takes};
ghost use Rattle.paseto_tasks.specs.Error.{Fails, nothing};
ghost use Rattle.paseto_tasks.specs.Output.{Makes};
ghost use Rattle.paseto_tasks.specs.Shown.{Shows, ShowsBox, ShowsBy, ShowsSignature, ShowsTag, box_text, case_with, signature_text, tag_text};
ghost use Rattle.paseto_tasks.specs.Tokens.{RefusesReading};

use crate::arguments::Options;
use crate::error::ProgramError;
use crate::rsa::verifier;
use crate::tokens::{bound, text_of};
use paseto_ed25519::Ed25519;
use paseto_keys::AnyKey;
use paseto_p384::P384;
use paseto_xchacha20poly1305::XChaCha20Poly1305;
use rusty_paseto_core::{
    BoxForgery, Footer, ImplicitAssertion, Local, LocalVersion, Opening, Paseto,
    PasetoAsymmetricPublicKey, PasetoError, PasetoSymmetricKey, Public, SignatureForgery,
    SignedToken, TagForgery, V2, Verifies,
};
use std::alloc::{AllocError, Global};

/// The lines that tell what a token shows. A token that does not open or verify under the key is refused as the commands
/// `decrypt` and `verify` refuse it.
pub fn shown(
    alloc: Global,
    key: &AnyKey,
    options: &Options<'_>,
    token: &str,
) -> Result<String, ProgramError>
    requires reads { reads_tokens (parts_of key.now).kind ≡ true }
    requires taken { Takes (parts_of key.now).version options.now.assertion }
    ensures { Makes (Shows (parts_of key.now) options.now token.now)
        (RefusesReading (parts_of key.now) options.now token.now) (Fails nothing) result }
{
    let text = text_of(alloc, key, options, token)?;
    drop(text);
    let assertion = bound(key, options.assertion);
    Ok(shown_by(alloc, key, options.footer, assertion, token)?)
}

/// The lines of a token that is read.
fn shown_by<'x>(
    alloc: Global,
    key: &'x AnyKey,
    footer: Option<Footer<'x>>,
    assertion: Option<ImplicitAssertion<'x>>,
    token: &'x str,
) -> Result<String, PasetoError>
    requires reads { reads_tokens (parts_of key.now).kind ≡ true }
    requires bound { takes_assertion (parts_of key.now).version ≡ false → assertion ≡ None }
    ensures ok { IfOk result (λ lines. ShowsBy (parts_of key.now).kind (parts_of key.now).version
        (binding (parts_of key.now).bytes (footer_of footer.entry) (assertion_of assertion.entry))
        token.now (string_bytes lines)) }
    ensures err { (text : List ℕ) → IsRead (reading_by (parts_of key.now) (footer_of footer.entry)
        (assertion_of assertion.entry)) token.now text → IfErr result IsMemory }
{
    match key {
        AnyKey::V1Local(key) => tag_shown(alloc, key, footer, assertion, token),
        AnyKey::V2Local(key) => box_shown(alloc, key, footer, token),
        AnyKey::V3Local(key) => tag_shown(alloc, key, footer, assertion, token),
        AnyKey::V4Local(key) => tag_shown(alloc, key, footer, assertion, token),
        AnyKey::V1Public(key) => {
            signature_shown(alloc, &verifier(), &key.lend(), footer, assertion, token)
        }
        AnyKey::V2Public(key) => {
            signature_shown(alloc, &Ed25519, &key.lend(), footer, assertion, token)
        }
        AnyKey::V3Public(key) => {
            signature_shown(alloc, &P384, &key.lend(), footer, assertion, token)
        }
        AnyKey::V4Public(key) => {
            signature_shown(alloc, &Ed25519, &key.lend(), footer, assertion, token)
        }
        AnyKey::V1Secret(_) | AnyKey::V2Secret(_) | AnyKey::V3Secret(_) | AnyKey::V4Secret(_) =>
            Err(PasetoError::InvalidKey),
    }
}

/// The lines of a tag that opens: beside none that was issued, it is always a new one.
fn tag_shown<'x, V: LocalVersion>(
    alloc: Global,
    key: &'x PasetoSymmetricKey<V, Local>,
    footer: Option<Footer<'x>>,
    assertion: Option<ImplicitAssertion<'x>>,
    token: &'x str,
) -> Result<String, PasetoError>
    ensures ok { IfOk result (λ lines. ShowsTag V.design
        (binding_of key.now footer.entry assertion.entry) token.now (string_bytes lines)) }
    ensures err { Opens V.design (case_with (binding_of key.now footer.entry assertion.entry) token.now)
        → IfErr result IsMemory }
{
    let asked = Opening {
        key,
        token,
        footer,
        assertion,
    };
    match Paseto::<V, Local>::forgery(alloc, &[], asked)? {
        Some(found) => Ok(tag_text(alloc, &found)?),
        None => unreachable!(),
    }
}

/// The lines of a tag.
fn tag_text(alloc: Global, found: &TagForgery) -> Result<String, AllocError>
    ensures { IfOk result (λ text. string_bytes text ≡ tag_text found.now) }
{
    let nonce = hex::encode(alloc, &found.nonce)?;
    let message = hex::encode(alloc, found.message.as_bytes())?;
    let tag = hex::encode(alloc, found.tag.as_slice())?;
    format!(in alloc; "nonce: {nonce}\nmessage: {message}\ntag: {tag}\n")
}

/// The same in version 2, by the box.
fn box_shown<'x>(
    alloc: Global,
    key: &'x PasetoSymmetricKey<V2, Local>,
    footer: Option<Footer<'x>>,
    token: &'x str,
) -> Result<String, PasetoError>
    ensures ok { IfOk result (λ lines. ShowsBox (binding_of key.now footer.entry None) token.now
        (string_bytes lines)) }
    ensures err { BoxOpens box_sealing (case_with (binding_of key.now footer.entry None) token.now)
        → IfErr result IsMemory }
{
    let asked = Opening {
        key,
        token,
        footer,
        assertion: None,
    };
    match Paseto::<V2, Local>::forgery(alloc, &XChaCha20Poly1305, &[], asked)? {
        Some(found) => Ok(box_text(alloc, &found)?),
        None => unreachable!(),
    }
}

/// The lines of a sealing.
fn box_text(alloc: Global, found: &BoxForgery) -> Result<String, AllocError>
    ensures { IfOk result (λ text. string_bytes text ≡ box_text found.now) }
{
    let nonce = hex::encode(alloc, &found.nonce)?;
    let data = hex::encode(alloc, found.encoding.as_bytes())?;
    let sealing = hex::encode(alloc, found.sealing.as_slice())?;
    format!(in alloc; "nonce: {nonce}\nassociated data: {data}\nsealing: {sealing}\n")
}

/// The lines of a signature that verifies.
fn signature_shown<V: Verifies<S>, S>(
    alloc: Global,
    scheme: &S,
    key: &PasetoAsymmetricPublicKey<'_, V, Public>,
    footer: Option<Footer<'_>>,
    assertion: Option<ImplicitAssertion<'_>>,
    token: &str,
) -> Result<String, PasetoError>
    requires { V.public_design.binds_assertion ≡ false → assertion ≡ None }
    ensures ok { IfOk result (λ lines. ShowsSignature V.valid V.refused V.public_design
        (binding_of key.now footer.entry assertion.entry) token.now (string_bytes lines)) }
    ensures err { IsVerified V.valid V.refused V.public_design
        (case_with (binding_of key.now footer.entry assertion.entry) token.now)
        → IfErr result IsMemory }
{
    let asked = SignedToken {
        token,
        footer,
        assertion,
    };
    match Paseto::<V, Public>::signature_forgery(alloc, scheme, key, &[], asked)? {
        Some(found) => Ok(signature_text(alloc, &found)?),
        None => unreachable!(),
    }
}

/// The lines of a signature.
fn signature_text(alloc: Global, found: &SignatureForgery) -> Result<String, AllocError>
    ensures { IfOk result (λ text. string_bytes text ≡ signature_text found.now) }
{
    let message = hex::encode(alloc, found.message.as_bytes())?;
    let signature = hex::encode(alloc, found.signature.as_slice())?;
    format!(in alloc; "message: {message}\nsignature: {signature}\n")
}
