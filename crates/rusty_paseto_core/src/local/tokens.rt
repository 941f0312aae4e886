//! Local tokens of the versions that need no box: 1, 3 and 4.

ghost use Rattle.std.specs.Prelude.{◌≡◌, true, false, None, IfOk, IfErr, is_some};
ghost use Rattle.std.specs.String.{string_bytes};
ghost use Rattle.rusty_paseto_parts.specs.Error.{IsMemory};
ghost use Rattle.rusty_paseto_parts.specs.Payload.{payload_text};
ghost use Rattle.rusty_paseto_core.specs.Context.{binding_of};
ghost use Rattle.rusty_paseto_core.specs.Local.Opening.{opening};
ghost use Rattle.rusty_paseto_core.specs.Local.Sealing.{sealing};
ghost use Rattle.rusty_paseto_core.specs.Local.V1.{v1};
ghost use Rattle.rusty_paseto_core.specs.Reading.{IsAnswer};

use crate::context::Context;
use crate::local::LocalSuite;
use crate::local::opening::open;
use crate::local::sealing::seal;
use crate::paseto::{AssertionVersion, Paseto};
use rusty_paseto_parts::{
    Footer, ImplicitAssertion, Local, PasetoError, PasetoNonce, PasetoSymmetricKey, Payload, V1,
    V3, V4,
};
use std::alloc::Global;

/// A version whose local tokens need no box from the caller: 1, 3 and 4.
///
/// Use this trait for code that is generic over these versions. Code for one of them uses `try_encrypt` and
/// `try_decrypt` of `Paseto`.
pub trait LocalVersion: LocalSuite {
    /// The implicit assertion in a version that has one, and `None` in version 1.
    final fn bound_assertion(
        implicit_assertion: Option<ImplicitAssertion<'_>>,
    ) -> Option<ImplicitAssertion<'_>>
        ensures bound { Self.design.binds_assertion ≡ true → result ≡ implicit_assertion.entry }
        ensures none { Self.design.binds_assertion ≡ false → result ≡ None }
    {
        if Self::binds_assertion() {
            implicit_assertion
        } else {
            None
        }
    }

    /// Encrypts a payload, as `try_encrypt` of `Paseto` does. In version 1 the implicit assertion must be `None`.
    final fn seal(
        alloc: Global,
        key: &PasetoSymmetricKey<Self, Local>,
        nonce: &PasetoNonce<'_, Self, Local>,
        payload: Payload<'_>,
        footer: Option<Footer<'_>>,
        implicit_assertion: Option<ImplicitAssertion<'_>>,
    ) -> Result<String, PasetoError>
        requires { Self.design.binds_assertion ≡ false → implicit_assertion ≡ None }
        ensures ok { let binding = binding_of key.now footer.entry implicit_assertion.entry in
            let text = payload_text payload.entry in
            IfOk result (λ token. string_bytes token
            ≡ sealing Self.design binding (Self.design.token_nonce nonce.now text)
            (is_some footer.entry) text) }
        ensures err { IfErr result IsMemory }
    {
        let (key, nonce, text) = (key.as_bytes(), nonce.as_bytes(), payload.as_str());
        seal::<Self>(alloc, key, nonce, text, footer, implicit_assertion)
    }

    /// Decrypts a token, as `try_decrypt` of `Paseto` does, with the same errors. In version 1 the implicit assertion
    /// must be `None`.
    final fn open(
        alloc: Global,
        token: &str,
        key: &PasetoSymmetricKey<Self, Local>,
        footer: Option<Footer<'_>>,
        implicit_assertion: Option<ImplicitAssertion<'_>>,
    ) -> Result<String, PasetoError>
        requires { Self.design.binds_assertion ≡ false → implicit_assertion ≡ None }
        ensures { let binding = binding_of key.now footer.entry implicit_assertion.entry in
            IsAnswer (opening Self.design binding) token.now result }
    {
        let context = Context::new(footer, implicit_assertion);
        open::<Self>(alloc, token, key.as_bytes(), &context)
    }
}

impl<V: LocalSuite> LocalVersion for V {}

impl<V: LocalVersion> Paseto<'_, V, Local> {
    /// Encrypts the payload, and authenticates it together with the footer and, in versions 3 and 4, the implicit
    /// assertion. Use each nonce only once under a key.
    ///
    /// In versions 3 and 4 the token contains the given nonce. In version 1 the token's nonce is computed from the
    /// given one and the payload, so the given one stays hidden.
    ///
    /// The token has a footer section if and only if a footer was set. The only error is `Memory`.
    ///
    /// Source: PASETO specification, "Version 1", "Version 3" and "Version 4", "Encrypt".
    pub fn try_encrypt(
        &self,
        alloc: Global,
        key: &PasetoSymmetricKey<V, Local>,
        nonce: &PasetoNonce<'_, V, Local>,
    ) -> Result<String, PasetoError>
        ensures ok { let binding = binding_of key.now self.now.footer self.now.implicit_assertion in
            let text = payload_text self.now.payload in
            IfOk result (λ token. string_bytes token
            ≡ sealing V.design binding (V.design.token_nonce nonce.now text)
            (is_some self.now.footer) text) }
        ensures err { IfErr result IsMemory }
    {
        let (key, nonce) = (key.as_bytes(), nonce.as_bytes());
        let (text, assertion) = (self.payload.as_str(), self.implicit_assertion);
        seal::<V>(alloc, key, nonce, text, self.footer, assertion)
    }
}

impl<V: AssertionVersion> Paseto<'_, V, Local> {
    /// Decrypts a token with this key, footer and implicit assertion, and returns its text. An absent footer or
    /// assertion and the empty one are the same.
    ///
    /// Otherwise it returns the first of these errors: `IncorrectSize` unless there are three or four sections,
    /// `FooterInvalid` for a fourth section that is not the footer's, or for a missing one if the footer is not empty,
    /// `WrongHeader`, `PayloadBase64Decode`, `IncorrectSize` for a payload that is too short for a nonce and a tag,
    /// `Cryption` for a wrong tag, `Utf8Error` for bytes that are not UTF-8. `Memory` may be returned in place of any
    /// result but the first.
    ///
    /// Source: PASETO specification, "Version 3" and "Version 4", "Decrypt".
    pub fn try_decrypt(
        alloc: Global,
        token: &str,
        key: &PasetoSymmetricKey<V, Local>,
        footer: Option<Footer<'_>>,
        implicit_assertion: Option<ImplicitAssertion<'_>>,
    ) -> Result<String, PasetoError>
        ensures { let binding = binding_of key.now footer.entry implicit_assertion.entry in
            IsAnswer (opening V.design binding) token.now result }
    {
        let context = Context::new(footer, implicit_assertion);
        open::<V>(alloc, token, key.as_bytes(), &context)
    }
}

impl Paseto<'_, V1, Local> {
    /// Decrypts a token of version 1 with this key and footer, and returns its text. An absent footer and the empty one
    /// are the same. The errors are those of versions 3 and 4, in the same order.
    ///
    /// Source: PASETO specification, "Version 1", "Decrypt".
    pub fn try_decrypt(
        alloc: Global,
        token: &str,
        key: &PasetoSymmetricKey<V1, Local>,
        footer: Option<Footer<'_>>,
    ) -> Result<String, PasetoError>
        ensures { let binding = binding_of key.now footer.entry None in
            IsAnswer (opening v1 binding) token.now result }
    {
        open::<V1>(alloc, token, key.as_bytes(), &Context::new(footer, None))
    }
}
