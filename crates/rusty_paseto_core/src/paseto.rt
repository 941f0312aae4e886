//! The parts of a token.

ghost use Rattle.std.specs.Prelude.{◌≡◌, [], None, Some, true};
ghost use Rattle.std.proofs.Common.{refl};
ghost use Rattle.rusty_paseto_core.specs.Local.V3Laws.{v3-binds_assertion};
ghost use Rattle.rusty_paseto_core.specs.Local.V4Laws.{v4-binds_assertion};
ghost use Rattle.rusty_paseto_parts.specs.Payload.{payload_text};

use crate::local::LocalVersion;
use crate::public::PublicVersion;
use rusty_paseto_parts::{
    Footer, ImplicitAssertion, ImplicitAssertionCapable, Payload, PurposeTrait, V3, V4,
    VersionTrait,
};
use std::marker::PhantomData;

/// A version with implicit assertions: 3 and 4.
pub trait AssertionVersion: LocalVersion + PublicVersion + ImplicitAssertionCapable {
    // Its local and its public tokens are.
    ghost binds_assertion: { (Self.design.binds_assertion ≡ true)
        × (Self.public_design.binds_assertion ≡ true) };
}

impl AssertionVersion for V3 {
    ghost binds_assertion = { (v3-binds_assertion, refl) };
}

impl AssertionVersion for V4 {
    ghost binds_assertion = { (v4-binds_assertion, refl) };
}

/// The parts of a token of a version and a purpose: a payload, and an optional footer and implicit assertion, from
/// which `try_encrypt` or `try_sign` makes a token.
///
/// ```rust
/// use rusty_paseto_core::{
///     Footer, Local, Paseto, PasetoError, PasetoNonce, PasetoSymmetricKey, Payload, V4,
/// };
/// use std::alloc::Global;
///
/// /// The token of a message, whose footer names the key.
/// pub fn encrypt(
///     alloc: Global,
///     key: &PasetoSymmetricKey<V4, Local>,
///     nonce: &PasetoNonce<'_, V4, Local>,
///     message: &str,
/// ) -> Result<String, PasetoError> {
///     let mut paseto = Paseto::<V4, Local>::builder();
///     paseto
///         .set_payload(Payload::from(message))
///         .set_footer(Footer::from("{\"kid\":\"2026-11\"}"));
///     paseto.try_encrypt(alloc, key, nonce)
/// }
/// ```
#[derive_where(Clone, Copy)]
pub struct Paseto<'a, Version, Purpose> {
    version: PhantomData<Version>,
    purpose: PhantomData<Purpose>,
    pub(crate) payload: Payload<'a>,
    pub(crate) footer: Option<Footer<'a>>,
    pub(crate) implicit_assertion: Option<ImplicitAssertion<'a>>,
}

impl<'a, Version: VersionTrait, Purpose: PurposeTrait> Default for Paseto<'a, Version, Purpose> {
    ghost is_default = { λ made. (payload_text made.payload ≡ []) × (made.footer ≡ None)
        × (made.implicit_assertion ≡ None) };

    fn default() -> Self {
        Paseto {
            version: PhantomData,
            purpose: PhantomData,
            payload: Payload::default(),
            footer: None,
            implicit_assertion: None,
        }
    }
}

impl<'a, Version: VersionTrait, Purpose: PurposeTrait> Paseto<'a, Version, Purpose> {
    /// An empty payload, without footer and implicit assertion.
    pub fn builder() -> Paseto<'a, Version, Purpose>
        ensures payload { payload_text result.payload ≡ [] }
        ensures footer { result.footer ≡ None }
        ensures implicit_assertion { result.implicit_assertion ≡ None }
    {
        Self::default()
    }

    /// Sets the payload, and changes nothing else.
    pub fn set_payload(&mut self, payload: Payload<'a>) -> &mut Self
        ensures lent { result.ghost_name ≡ self.entry.ghost_name }
        ensures change { result.now ≡ record self.entry.now { payload = payload.entry } }
    {
        self.payload = payload;
        self
    }

    /// Sets the footer, which may be empty, and changes nothing else.
    pub fn set_footer(&mut self, footer: Footer<'a>) -> &mut Self
        ensures lent { result.ghost_name ≡ self.entry.ghost_name }
        ensures change { result.now ≡ record self.entry.now { footer = Some footer.entry } }
    {
        self.footer = Some(footer);
        self
    }
}

impl<'a, Version: ImplicitAssertionCapable, Purpose: PurposeTrait> Paseto<'a, Version, Purpose> {
    /// Sets the implicit assertion, which may be empty, and changes nothing else.
    pub fn set_implicit_assertion(&mut self, implicit_assertion: ImplicitAssertion<'a>) -> &mut Self
        ensures lent { result.ghost_name ≡ self.entry.ghost_name }
        ensures change { result.now ≡ record self.entry.now
            { implicit_assertion = Some implicit_assertion.entry } }
    {
        self.implicit_assertion = Some(implicit_assertion);
        self
    }
}
