//! Public tokens of the four versions.

ghost use Rattle.std.specs.Prelude.{◌≡◌, ℕ, List, false, None};
ghost use Rattle.rusty_paseto_parts.specs.Payload.{payload_text};
ghost use Rattle.rusty_paseto_parts.specs.declared.error.PasetoError.{PasetoError};
ghost use Rattle.rusty_paseto_core.specs.Context.{binding_of};
ghost use Rattle.rusty_paseto_core.specs.Public.{HasPrivateLength, v1_public, v2_public};
ghost use Rattle.rusty_paseto_core.specs.Public.Scheme.{Declining, Refusal, Validity};
ghost use Rattle.rusty_paseto_core.specs.Public.Signing.{IsSignAnswer};
ghost use Rattle.rusty_paseto_core.specs.Public.Verifying.{verification};
ghost use Rattle.rusty_paseto_core.specs.Reading.{IsAnswer};

use crate::context::Context;
use crate::paseto::{AssertionVersion, Paseto};
use crate::public::PublicVersion;
use crate::public::scheme::{CompressedKey, SignatureScheme};
use crate::public::signing::sign;
use crate::public::verifying::verify;
use rusty_paseto_parts::{
    Footer, ImplicitAssertion, PasetoAsymmetricPrivateKey, PasetoAsymmetricPublicKey, PasetoError,
    Payload, Public, V1, V2, V3, V4,
};
use std::alloc::Global;

/// A version whose public tokens a scheme signs: version 1 with a `SignatureScheme<256>`, 2 and 4 with a
/// `SignatureScheme<64>`, and 3 with a `CompressedKey`.
///
/// Use this trait for code that is generic over the versions. Code for one of them uses `try_sign` of `Paseto`.
pub trait Signs<S>: PublicVersion {
    // Whether a signature is valid for a public key and a message.
    ghost valid: { Validity };

    // The public key of a private key.
    ghost partner: { List ℕ → List ℕ };

    // The errors that the scheme may answer for a private key and a message.
    ghost declined: { Declining };

    /// Signs a payload, as `try_sign` of `Paseto` does. In versions 1 and 2 the implicit assertion must be `None`.
    fn sign(
        alloc: Global,
        scheme: &mut S,
        key: &PasetoAsymmetricPrivateKey<'_, Self, Public>,
        payload: Payload<'_>,
        footer: Option<Footer<'_>>,
        implicit_assertion: Option<ImplicitAssertion<'_>>,
    ) -> Result<String, PasetoError>
        requires { Self.public_design.binds_assertion ≡ false → implicit_assertion ≡ None }
        ensures answer { IsSignAnswer valid (declined key.now) Self.public_design key.now
            (partner key.now)
            footer.entry implicit_assertion.entry (payload_text payload.entry) result }
        ensures asked { ¬ HasPrivateLength Self.public_design key.now → scheme.new ≡ scheme.old };
}

/// A version whose public tokens a scheme verifies: version 1 with a `SignatureScheme<256>`, 2 and 4 with
/// a `SignatureScheme<64>`, and 3 with a `SignatureScheme<96>`.
///
/// Use this trait for code that is generic over the versions. Code for one of them uses `try_verify` of `Paseto`.
pub trait Verifies<S>: PublicVersion {
    // Whether a signature is valid for a public key and a message.
    ghost valid: { Validity };

    // The errors that the scheme may answer for a signature that is not valid.
    ghost refused: { Refusal };

    /// Verifies a token, as `try_verify` of `Paseto` does, with the same errors. In versions 1 and 2 the implicit
    /// assertion must be `None`.
    fn verify(
        alloc: Global,
        scheme: &S,
        token: &str,
        key: &PasetoAsymmetricPublicKey<'_, Self, Public>,
        footer: Option<Footer<'_>>,
        implicit_assertion: Option<ImplicitAssertion<'_>>,
    ) -> Result<String, PasetoError>
        requires { Self.public_design.binds_assertion ≡ false → implicit_assertion ≡ None }
        ensures { let binding = binding_of key.now footer.entry implicit_assertion.entry in
            IsAnswer (verification valid refused Self.public_design binding) token.now result };
}

impl<S: SignatureScheme<256>> Signs<S> for V1 {
    ghost valid = { S.valid };

    ghost partner = { S.partner };

    ghost declined = { S.declined };

    fn sign(
        alloc: Global,
        scheme: &mut S,
        key: &PasetoAsymmetricPrivateKey<'_, V1, Public>,
        payload: Payload<'_>,
        footer: Option<Footer<'_>>,
        implicit_assertion: Option<ImplicitAssertion<'_>>,
    ) -> Result<String, PasetoError> {
        let (key, text) = (key.as_bytes(), payload.as_str());
        sign::<V1, S, 256>(alloc, scheme, key, &[], text, footer, implicit_assertion)
    }
}

impl<S: SignatureScheme<256>> Verifies<S> for V1 {
    ghost valid = { S.valid };

    ghost refused = { S.refused };

    fn verify(
        alloc: Global,
        scheme: &S,
        token: &str,
        key: &PasetoAsymmetricPublicKey<'_, V1, Public>,
        footer: Option<Footer<'_>>,
        implicit_assertion: Option<ImplicitAssertion<'_>>,
    ) -> Result<String, PasetoError> {
        let context = Context::new(footer, implicit_assertion);
        verify::<V1, S, 256>(alloc, scheme, token, key.as_bytes(), &context)
    }
}

impl<S: SignatureScheme<64>> Signs<S> for V2 {
    ghost valid = { S.valid };

    ghost partner = { S.partner };

    ghost declined = { S.declined };

    fn sign(
        alloc: Global,
        scheme: &mut S,
        key: &PasetoAsymmetricPrivateKey<'_, V2, Public>,
        payload: Payload<'_>,
        footer: Option<Footer<'_>>,
        implicit_assertion: Option<ImplicitAssertion<'_>>,
    ) -> Result<String, PasetoError> {
        let (key, text) = (key.as_bytes(), payload.as_str());
        sign::<V2, S, 64>(alloc, scheme, key, &[], text, footer, implicit_assertion)
    }
}

impl<S: SignatureScheme<64>> Verifies<S> for V2 {
    ghost valid = { S.valid };

    ghost refused = { S.refused };

    fn verify(
        alloc: Global,
        scheme: &S,
        token: &str,
        key: &PasetoAsymmetricPublicKey<'_, V2, Public>,
        footer: Option<Footer<'_>>,
        implicit_assertion: Option<ImplicitAssertion<'_>>,
    ) -> Result<String, PasetoError> {
        let context = Context::new(footer, implicit_assertion);
        verify::<V2, S, 64>(alloc, scheme, token, key.as_bytes(), &context)
    }
}

impl<S: CompressedKey> Signs<S> for V3 {
    ghost valid = { S.valid };

    ghost partner = { S.partner };

    ghost declined = { S.declined };

    fn sign(
        alloc: Global,
        scheme: &mut S,
        key: &PasetoAsymmetricPrivateKey<'_, V3, Public>,
        payload: Payload<'_>,
        footer: Option<Footer<'_>>,
        implicit_assertion: Option<ImplicitAssertion<'_>>,
    ) -> Result<String, PasetoError> {
        let (key, text) = (key.as_bytes(), payload.as_str());
        let point = scheme.public_key(alloc, key)?;
        sign::<V3, S, 96>(alloc, scheme, key, &point, text, footer, implicit_assertion)
    }
}

impl<S: SignatureScheme<96>> Verifies<S> for V3 {
    ghost valid = { S.valid };

    ghost refused = { S.refused };

    fn verify(
        alloc: Global,
        scheme: &S,
        token: &str,
        key: &PasetoAsymmetricPublicKey<'_, V3, Public>,
        footer: Option<Footer<'_>>,
        implicit_assertion: Option<ImplicitAssertion<'_>>,
    ) -> Result<String, PasetoError> {
        let context = Context::new(footer, implicit_assertion);
        verify::<V3, S, 96>(alloc, scheme, token, key.as_bytes(), &context)
    }
}

impl<S: SignatureScheme<64>> Signs<S> for V4 {
    ghost valid = { S.valid };

    ghost partner = { S.partner };

    ghost declined = { S.declined };

    fn sign(
        alloc: Global,
        scheme: &mut S,
        key: &PasetoAsymmetricPrivateKey<'_, V4, Public>,
        payload: Payload<'_>,
        footer: Option<Footer<'_>>,
        implicit_assertion: Option<ImplicitAssertion<'_>>,
    ) -> Result<String, PasetoError> {
        let (key, text) = (key.as_bytes(), payload.as_str());
        sign::<V4, S, 64>(alloc, scheme, key, &[], text, footer, implicit_assertion)
    }
}

impl<S: SignatureScheme<64>> Verifies<S> for V4 {
    ghost valid = { S.valid };

    ghost refused = { S.refused };

    fn verify(
        alloc: Global,
        scheme: &S,
        token: &str,
        key: &PasetoAsymmetricPublicKey<'_, V4, Public>,
        footer: Option<Footer<'_>>,
        implicit_assertion: Option<ImplicitAssertion<'_>>,
    ) -> Result<String, PasetoError> {
        let context = Context::new(footer, implicit_assertion);
        verify::<V4, S, 64>(alloc, scheme, token, key.as_bytes(), &context)
    }
}

impl<V: PublicVersion> Paseto<'_, V, Public> {
    /// Signs the payload, which stays readable, together with the footer and, in versions 3 and 4, the implicit
    /// assertion. It calls `sign` of the caller's scheme once. In version 3 it also signs the public key, which it
    /// first gets from the scheme.
    ///
    /// The token has a footer section if and only if a footer was set. The errors are, in versions 2 and 4,
    /// `TryFromSlice` for a private key that does not have 64 bytes, before the scheme is called; and those of the
    /// scheme, including `Memory`.
    ///
    /// Source: PASETO specification, "Version 1" to "Version 4", "Sign".
    pub fn try_sign<S>(
        &self,
        alloc: Global,
        scheme: &mut S,
        key: &PasetoAsymmetricPrivateKey<'_, V, Public>,
    ) -> Result<String, PasetoError>
    where
        V: Signs<S>,
        ensures answer { IsSignAnswer V.valid (V.declined key.now) V.public_design key.now
            (V.partner key.now)
            self.now.footer self.now.implicit_assertion (payload_text self.now.payload) result }
        ensures asked { ¬ HasPrivateLength V.public_design key.now → scheme.new ≡ scheme.old }
    {
        let assertion = V::signed_assertion(self.implicit_assertion);
        V::sign(alloc, scheme, key, self.payload, self.footer, assertion)
    }
}

impl<V: AssertionVersion> Paseto<'_, V, Public> {
    /// Verifies a token with the caller's scheme, this public key, footer and implicit assertion, and returns its text.
    /// An absent footer or assertion and the empty one are the same.
    ///
    /// Otherwise it returns the first of these errors: `IncorrectSize` unless there are three or four sections,
    /// `FooterInvalid` for a fourth section that is not the footer's, or for a missing one if the footer is not empty,
    /// `WrongHeader`, `PayloadBase64Decode`, `IncorrectSize` for a payload that is too short for a signature, the
    /// scheme's own error for an invalid signature, `FromUtf8Error` for bytes that are not UTF-8. The scheme is called
    /// once, and only if there is no earlier error. `Memory` may be returned in place of any result but the first.
    ///
    /// Source: PASETO specification, "Version 3" and "Version 4", "Verify".
    pub fn try_verify<S>(
        alloc: Global,
        scheme: &S,
        token: &str,
        key: &PasetoAsymmetricPublicKey<'_, V, Public>,
        footer: Option<Footer<'_>>,
        implicit_assertion: Option<ImplicitAssertion<'_>>,
    ) -> Result<String, PasetoError>
    where
        V: Verifies<S>,
        ensures { let binding = binding_of key.now footer.entry implicit_assertion.entry in
            IsAnswer (verification V.valid V.refused V.public_design binding) token.now result }
    {
        V::verify(alloc, scheme, token, key, footer, implicit_assertion)
    }
}

impl Paseto<'_, V1, Public> {
    /// Verifies a token of version 1 with the caller's scheme, this public key and this footer, and returns its text.
    /// An absent footer and the empty one are the same. The errors are those of versions 3 and 4, in the same order.
    ///
    /// Source: PASETO specification, "Version 1", "Verify".
    pub fn try_verify<S: SignatureScheme<256>>(
        alloc: Global,
        scheme: &S,
        token: &str,
        key: &PasetoAsymmetricPublicKey<'_, V1, Public>,
        footer: Option<Footer<'_>>,
    ) -> Result<String, PasetoError>
        ensures { let binding = binding_of key.now footer.entry None in
            IsAnswer (verification S.valid S.refused v1_public binding) token.now result }
    {
        V1::verify(alloc, scheme, token, key, footer, None)
    }
}

impl Paseto<'_, V2, Public> {
    /// Verifies a token of version 2 with the caller's scheme, this public key and this footer, and returns its text.
    /// An absent footer and the empty one are the same. The errors are those of versions 3 and 4, in the same order.
    ///
    /// Source: PASETO specification, "Version 2", "Verify".
    pub fn try_verify<S: SignatureScheme<64>>(
        alloc: Global,
        scheme: &S,
        token: &str,
        key: &PasetoAsymmetricPublicKey<'_, V2, Public>,
        footer: Option<Footer<'_>>,
    ) -> Result<String, PasetoError>
        ensures { let binding = binding_of key.now footer.entry None in
            IsAnswer (verification S.valid S.refused v2_public binding) token.now result }
    {
        V2::verify(alloc, scheme, token, key, footer, None)
    }
}
