//! The forgery of a signature that a token is if it was never issued.

ghost use Rattle.std.specs.Prelude.{◌≡◌, ◌↔◌, IsTrue, IfOk, IfErr};
ghost use Rattle.rusty_paseto_core.specs.Public.SignatureForgery.{IsSignatureAnswer, IsSigned, IsUnverified, signed_case, signed_cases};

use crate::context::Context;
use crate::paseto::Paseto;
use crate::public::{PublicVersion, Verifies, message};
use crate::reading::unframe;
use rusty_paseto_parts::{
    Footer, ImplicitAssertion, PasetoAsymmetricPublicKey, PasetoError, PreAuthenticationEncoding,
    Public,
};
use std::alloc::Global;

/// A token, and the footer and the implicit assertion to verify it with.
#[derive(Clone, Copy)]
pub struct SignedToken<'a> {
    /// The token.
    pub token: &'a str,
    /// The footer. An absent one is the empty one.
    pub footer: Option<Footer<'a>>,
    /// The implicit assertion. An absent one is the empty one. Versions 1 and 2 ignore it.
    pub assertion: Option<ImplicitAssertion<'a>>,
}

/// A message and a valid signature of it.
#[derive(Drop)]
pub struct SignatureForgery {
    /// What the signature covers: in version 3 the public key, and the token's header, text, footer and, in versions 3
    /// and 4, implicit assertion.
    pub message: PreAuthenticationEncoding,
    /// The signature.
    pub signature: Vec<u8>,
}

impl<V: PublicVersion> Paseto<'_, V, Public> {
    /// What a token shows that verifies: a message with a valid signature that none of the issued tokens has, since its
    /// message or its signature is another one. `None` means that it is one of them, up to the dot before the section of
    /// an empty footer.
    ///
    /// So whoever makes a new token, without the private key, from any number of issued ones has forged a signature, as
    /// `laws::signature_forgeries_are_new` says. Whether a message may have more than one signature is a matter of the
    /// scheme: with Ed25519 each R has at most one S, and with P-384 there are at least two.
    ///
    /// If the token does not verify, or one of those issued, the error is that of `try_verify` for the first of them, the
    /// token first; what was issued after one that the token is a spelling of is not verified. `Memory` may be returned in
    /// place of any result.
    pub fn signature_forgery<S>(
        alloc: Global,
        scheme: &S,
        key: &PasetoAsymmetricPublicKey<'_, V, Public>,
        issued: &[SignedToken<'_>],
        token: SignedToken<'_>,
    ) -> Result<Option<SignatureForgery>, PasetoError>
    where
        V: Verifies<S>,
        ensures { IsSignatureAnswer V.valid V.refused V.public_design
            (signed_cases V.public_design key.now issued.now)
            (signed_case V.public_design key.now token.entry) result }
    {
        find_forgery::<V, S>(alloc, scheme, key, issued, token)
    }
}

// The message and the signature of a token, unless it is one of those that were issued.
fn find_forgery<V: Verifies<S>, S>(
    alloc: Global,
    scheme: &S,
    key: &PasetoAsymmetricPublicKey<'_, V, Public>,
    issued: &[SignedToken<'_>],
    token: SignedToken<'_>,
) -> Result<Option<SignatureForgery>, PasetoError>
    ensures { IsSignatureAnswer V.valid V.refused V.public_design
        (signed_cases V.public_design key.now issued.now)
        (signed_case V.public_design key.now token.entry) result }
{
    let own = signed::<V, S>(alloc, scheme, key, token)?;
    'each: for one in issued {
        let other = signed::<V, S>(alloc, scheme, key, *one)?;
        if is_same(&other, &own) {
            return Ok(None);
        }
    }
    Ok(Some(own))
}

// Verifies a token, and reads its signature and what that covers.
fn signed<V: Verifies<S>, S>(
    alloc: Global,
    scheme: &S,
    key: &PasetoAsymmetricPublicKey<'_, V, Public>,
    asked: SignedToken<'_>,
) -> Result<SignatureForgery, PasetoError>
    ensures ok { IfOk result (IsSigned V.valid V.refused V.public_design
        (signed_case V.public_design key.now asked.entry)) }
    ensures err { IfErr result (IsUnverified V.valid V.refused V.public_design
        (signed_case V.public_design key.now asked.entry)) }
{
    let assertion = V::signed_assertion(asked.assertion);
    let context = Context::new(asked.footer, assertion);
    let footer = context.footer();
    let text = V::verify(alloc, scheme, asked.token, key, asked.footer, assertion)?;
    let payload = unframe::<V, Public>(alloc, asked.token, footer)?;
    let message = message::<V>(alloc, key.as_bytes(), &context, text.as_bytes())?;
    let signature = Vec::from_slice(alloc, &payload[text.len()..])?;
    Ok(SignatureForgery { message, signature })
}

// Whether two tokens have one signature of one message.
fn is_same(one: &SignatureForgery, other: &SignatureForgery) -> bool
    ensures { IsTrue result ↔ ((one.now.message ≡ other.now.message)
        × (one.now.signature.items ≡ other.now.signature.items)) }
{
    one.message.as_bytes() == other.message.as_bytes()
        && one.signature.as_slice() == other.signature.as_slice()
}
