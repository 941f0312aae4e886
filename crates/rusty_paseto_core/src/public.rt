//! Public tokens: a text and its signature (PASETO specification, "Version 1" to "Version 4").

ghost use Rattle.std.specs.Prelude.{◌≡◌, ◌↔◌, ◌<◌, ◌^◌, true, false, None, IsTrue, IfOk, IfErr, length};
ghost use Rattle.rusty_paseto_parts.specs.Error.{IsMemory};
ghost use Rattle.rusty_paseto_core.specs.Context.{bound};
ghost use Rattle.rusty_paseto_core.specs.Public.{HasPrivateLength, IsLawful, PublicDesign, header, message};

use crate::context::Context;
use rusty_paseto_parts::{
    Header, ImplicitAssertion, PasetoError, PreAuthenticationEncoding, Public, VersionTrait,
};
use std::alloc::Global;

pub(crate) mod scheme;
pub(crate) mod signature_forgery;
mod signing;
mod tokens;
mod verifying;
mod versions;

pub use tokens::{Signs, Verifies};

/// Which pieces the signatures of a version cover, and how long they and its private keys are.
///
/// Signing and verifying are written and proved once, over this trait.
pub(crate) trait PublicSuite: VersionTrait {
    // What the version means.
    ghost public_design: { PublicDesign };

    /// Whether the public key is the first piece that is signed.
    fn signs_key() -> bool
        ensures { result ≡ public_design.binds_key };

    /// Whether the implicit assertion is the last piece that is signed.
    fn signs_assertion() -> bool
        ensures { result ≡ public_design.binds_assertion };

    /// Whether a private key has the length that the version tells. A version that tells none leaves
    /// that to the scheme.
    fn has_private_length(private: &[u8]) -> bool
        ensures { IsTrue result ↔ HasPrivateLength public_design private.now };

    ghost public_lawful: { IsLawful public_design Self.text };
}

/// A version of public tokens: each of the four.
pub trait PublicVersion: PublicSuite {
    /// The implicit assertion in a version that has one, and `None` in versions 1 and 2.
    final fn signed_assertion(
        implicit_assertion: Option<ImplicitAssertion<'_>>,
    ) -> Option<ImplicitAssertion<'_>>
        ensures bound { Self.public_design.binds_assertion ≡ true → result
            ≡ implicit_assertion.entry }
        ensures none { Self.public_design.binds_assertion ≡ false → result ≡ None }
    {
        if Self::signs_assertion() {
            implicit_assertion
        } else {
            None
        }
    }
}

impl<V: PublicSuite> PublicVersion for V {}

/// The message that is signed: the encoding of the pieces that the version binds.
fn message<V: PublicSuite>(
    alloc: Global,
    public: &[u8],
    context: &Context<'_>,
    text: &[u8],
) -> Result<PreAuthenticationEncoding, PasetoError>
    ensures ok { IfOk result (λ encoding. encoding
        ≡ message V.public_design (bound public.now context.now) text.now) }
    ensures fits { IfOk result (λ encoding. length encoding < 2 ^ 64) }
    ensures err { IfErr result IsMemory }
{
    let header = Header::<V, Public>::default();
    let pieces = context.five_pieces(public, header.as_bytes(), text);
    let start = if V::signs_key() { 0 } else { 1 };
    let end = if V::signs_assertion() { 5 } else { 4 };
    PreAuthenticationEncoding::parse(alloc, &pieces[start..end])
}
