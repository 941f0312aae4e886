//! The signing of a text, for every version of public tokens.

ghost use Rattle.std.specs.Prelude.{◌≡◌, ◌⊎◌, ◌++◌, ℕ, List, true, IfOk, IfErr, length, ◌≤◌};
ghost use Rattle.rusty_paseto_primitives.specs.Bytes.{IsBytes};
ghost use Rattle.rusty_paseto_parts.specs.Error.{IsMemory};
ghost use Rattle.rusty_paseto_core.specs.Public.{HasPrivateLength};
ghost use Rattle.rusty_paseto_core.specs.Public.Signing.{IsSignAnswer};

use crate::context::Context;
use crate::framing::frame;
use crate::public::scheme::SignatureScheme;
use crate::public::{PublicSuite, message};
use rusty_paseto_parts::{Footer, Header, ImplicitAssertion, PasetoError, Public};
use std::alloc::Global;

/// The token of a text and its signature, with the footer's section where a footer is given. `public` is
/// the private key's public key, or any bytes if the version does not sign it. The scheme is called once, unless the
/// private key has another length than the version's.
pub(crate) fn sign<V: PublicSuite, S: SignatureScheme<SIG>, const SIG: usize>(
    alloc: Global,
    scheme: &mut S,
    private: &[u8],
    public: &[u8],
    text: &str,
    footer: Option<Footer<'_>>,
    assertion: Option<ImplicitAssertion<'_>>,
) -> Result<String, PasetoError>
    requires size { SIG ≡ V.public_design.signature_length }
    requires partner { V.public_design.binds_key ≡ true → public.now ≡ S.partner private.now }
    ensures answer { IsSignAnswer S.valid (S.declined private.now) V.public_design private.now
        (S.partner private.now)
        footer.entry assertion.entry text.now result }
    ensures asked { ¬ HasPrivateLength V.public_design private.now → scheme.new ≡ scheme.old }
{
    if !V::has_private_length(private) {
        return Err(PasetoError::TryFromSlice);
    }
    let text = text.as_bytes();
    let context = Context::new(footer, assertion);
    let message = message::<V>(alloc, public, &context, text)?;
    let payload = signed_payload(alloc, scheme, private, message.as_bytes(), text)?;
    frame(
        alloc,
        Header::<V, Public>::default().as_str(),
        &payload,
        footer,
    )
}

// The payload of a signed token: the text and the signature of its message.
fn signed_payload<S: SignatureScheme<SIG>, const SIG: usize>(
    alloc: Global,
    scheme: &mut S,
    private: &[u8],
    message: &[u8],
    text: &[u8],
) -> Result<Vec<u8>, PasetoError>
    requires { SIG ≤ 256 }
    ensures ok { IfOk result (λ payload. (signature : List ℕ) × (length signature ≡ SIG)
        × IsBytes signature
        × S.valid (S.partner private.now) message.now signature
        × (payload.items ≡ text.now ++ signature)) }
    ensures err { IfErr result (λ error. IsMemory error ⊎ S.declined private.now message.now error) }
{
    let signature = scheme.sign(alloc, private, message)?;
    let mut payload = Vec::with_capacity(alloc, text.len() + SIG)?;
    payload.extend_from_slice(text)?;
    payload.extend_from_slice(&signature)?;
    Ok(payload)
}
