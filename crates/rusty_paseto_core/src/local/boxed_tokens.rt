//! Local tokens of version 2.

ghost use Rattle.std.specs.Prelude.{◌≡◌, ◌⊎◌, None, Some, IfOk, IfErr, is_some};
ghost use Rattle.std.specs.String.{string_bytes};
ghost use Rattle.rusty_paseto_parts.specs.Error.{IsMemory};
ghost use Rattle.rusty_paseto_parts.specs.Payload.{payload_text};
ghost use Rattle.rusty_paseto_core.specs.Context.{binding_of};
ghost use Rattle.rusty_paseto_core.specs.Local.Boxed.{box_opening, boxed_sealing, token_nonce};
ghost use Rattle.rusty_paseto_core.specs.Reading.{IsAnswer};

use crate::context::Context;
use crate::local::boxed::{open, seal};
use crate::local::sealed_box::SealedBox;
use crate::paseto::Paseto;
use rusty_paseto_parts::{Footer, Local, PasetoError, PasetoNonce, PasetoSymmetricKey, V2};
use std::alloc::Global;

impl Paseto<'_, V2, Local> {
    /// Encrypts the payload with the caller's box, and authenticates it together with the footer. The nonce in the
    /// token is computed from the given nonce, of 24 or 32 bytes, and the payload, so the given one stays hidden. Use
    /// each nonce only once under a key.
    ///
    /// The token has a footer section if and only if a footer was set. The errors are `ChaChaCipherError`, if the box
    /// cannot encrypt the payload, and `Memory`.
    ///
    /// Source: PASETO specification, "Version 2", "Encrypt".
    pub fn try_encrypt<B: SealedBox>(
        &self,
        alloc: Global,
        sealed_box: &B,
        key: &PasetoSymmetricKey<V2, Local>,
        nonce: &PasetoNonce<'_, V2, Local>,
    ) -> Result<String, PasetoError>
        ensures ok { let binding = binding_of key.now self.now.footer None in
            let text = payload_text self.now.payload in
            IfOk result (λ token. boxed_sealing B.sealing binding (token_nonce nonce.now text)
            (is_some self.now.footer) text ≡ Some (string_bytes token)) }
        ensures err { let binding = binding_of key.now self.now.footer None in
            let text = payload_text self.now.payload in
            IfErr result (λ error. IsMemory error ⊎ ((error ≡ PasetoError.ChaChaCipherError)
            × (boxed_sealing B.sealing binding (token_nonce nonce.now text)
            (is_some self.now.footer) text ≡ None))) }
    {
        let (key, nonce) = (key.as_bytes(), nonce.as_bytes());
        let text = self.payload.as_str();
        seal(alloc, sealed_box, key, nonce, text, self.footer)
    }

    /// Decrypts a token with the caller's box, this key and this footer, and returns its text. An absent footer and the
    /// empty one are the same.
    ///
    /// Otherwise it returns the first of these errors: `IncorrectSize` unless there are three or four sections,
    /// `FooterInvalid` for a fourth section that is not the footer's, or for a missing one if the footer is not empty,
    /// `WrongHeader`, `PayloadBase64Decode`, `IncorrectSize` for a payload that is too short for a nonce of 24 bytes,
    /// `ChaChaCipherError` if the box does not open the rest, `Utf8Error` for bytes that are not UTF-8. `Memory` may be
    /// returned in place of any result but the first.
    ///
    /// Source: PASETO specification, "Version 2", "Decrypt".
    pub fn try_decrypt<B: SealedBox>(
        alloc: Global,
        sealed_box: &B,
        token: &str,
        key: &PasetoSymmetricKey<V2, Local>,
        footer: Option<Footer<'_>>,
    ) -> Result<String, PasetoError>
        ensures { let binding = binding_of key.now footer.entry None in
            IsAnswer (box_opening B.sealing binding) token.now result }
    {
        let context = Context::new(footer, None);
        open(alloc, sealed_box, token, key.as_bytes(), &context)
    }
}
