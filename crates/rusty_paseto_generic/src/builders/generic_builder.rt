//! The builder of tokens of every version and purpose.

ghost use Rattle.std.specs.Prelude.{◌≡◌, ◌⊎◌, None, Some, IfOk, IfErr, OnOk, is_some, string_bytes};
ghost use Rattle.serde_json.specs.Data.{no_members};
ghost use Rattle.serde_json.specs.Find.{get_member};
ghost use Rattle.rusty_paseto_core.specs.Context.{binding_of};
ghost use Rattle.rusty_paseto_core.specs.Payload.{payload_text};
ghost use Rattle.rusty_paseto_core.specs.Public.{HasPrivateLength};
ghost use Rattle.rusty_paseto_generic.specs.Error.{IsMemory, IsOfBox, IsOfGenerator};
ghost use Rattle.rusty_paseto_generic.specs.Builders.Claims.{IsReadBack, payload, without};
ghost use Rattle.rusty_paseto_generic.specs.Builders.Held.{held};
ghost use Rattle.rusty_paseto_generic.specs.Builders.GenericBuilder.{IsBoxAnswer, IsSealed, IsSignAnswer};

use crate::builders::claims::Claims;
use crate::builders::setter::ClaimSetter;
use crate::error::GenericBuilderError;
use rand_core::TryRng;
use rusty_paseto_claims::PasetoClaim;
use rusty_paseto_core::{
    Footer, ImplicitAssertion, ImplicitAssertionCapable, Key, Local, LocalVersion, Paseto,
    PasetoAsymmetricPrivateKey, PasetoNonce, PasetoSymmetricKey, Payload, Public, PublicVersion,
    PurposeTrait, SealedBox, Signs, V1, V2, V3, V4, VersionTrait,
};
use serde_json::Value;
use std::alloc::Global;
use std::collections::BTreeMap;

/// A version whose local tokens need no sealed box from the caller: 1, 3 and 4.
pub trait GenericLocalVersion: LocalVersion {}

impl GenericLocalVersion for V1 {}

impl GenericLocalVersion for V3 {}

impl GenericLocalVersion for V4 {}

/// A builder of tokens of any version and purpose: holds claims, and an optional footer and implicit assertion, from
/// which `try_encrypt` or `try_sign` makes a token.
///
/// Numbers in claims must be 64-bit integers. The builder keeps its claims, so it can make any number of tokens.
///
/// On an error a call leaves the builder unchanged. `set_claim` and `extend_claims` return the builder, for chains of
/// calls; `put_claim` and `put_claims` do the same without returning it, for code that continues after an error.
///
/// ```rust
/// use rand_core::TryRng;
/// use rusty_paseto_generic::{
///     AudienceClaim, ClaimSetter, Footer, GenericBuilder, GenericBuilderError, Local,
///     PasetoSymmetricKey, V4,
/// };
/// use std::alloc::Global;
///
/// /// A token of one claim, whose footer names the key.
/// pub fn build<R: TryRng>(
///     alloc: Global,
///     rng: &mut R,
///     key: &PasetoSymmetricKey<V4, Local>,
/// ) -> Result<String, GenericBuilderError> {
///     let mut builder = GenericBuilder::<V4, Local>::new(alloc);
///     builder
///         .set_claim(&AudienceClaim::from("customers"))?
///         .set_footer(Footer::from("{\"kid\":\"2026-11\"}"));
///     builder.try_encrypt(rng, key)
/// }
/// ```
#[derive(Drop)]
pub struct GenericBuilder<'a, V, P> {
    claims: Claims,
    // The footer and the implicit assertion. The payload is set for each token.
    paseto: Paseto<'a, V, P>,
}

impl<'a, V: VersionTrait, P: PurposeTrait> GenericBuilder<'a, V, P> {
    /// A builder without claims, footer and implicit assertion. It allocates with `alloc`, but not yet.
    pub fn new(alloc: Global) -> Self
        ensures claims { held result.claims ≡ no_members }
        ensures footer { result.paseto.footer ≡ None }
        ensures implicit_assertion { result.paseto.implicit_assertion ≡ None }
    {
        GenericBuilder {
            claims: Claims::new(alloc),
            paseto: Paseto::builder(),
        }
    }

    /// The same as `new`.
    pub fn default(alloc: Global) -> Self
        ensures claims { held result.claims ≡ no_members }
        ensures footer { result.paseto.footer ≡ None }
        ensures implicit_assertion { result.paseto.implicit_assertion ≡ None }
    {
        GenericBuilder::new(alloc)
    }

    /// Removes the claim under the key, if there is one. Does not allocate.
    pub fn remove_claim(&mut self, key: &str) -> &mut Self
        ensures lent { result.ghost_name ≡ self.entry.ghost_name }
        ensures claims { held result.now.claims ≡ without key.now (held self.entry.now.claims) }
        ensures gone { get_member key.now (held result.now.claims) ≡ None }
        ensures rest { result.now.paseto ≡ self.entry.now.paseto }
    {
        self.claims.remove(key);
        self
    }

    /// Sets the footer, which may be empty, and changes nothing else. Does not allocate.
    pub fn set_footer(&mut self, footer: Footer<'a>) -> &mut Self
        ensures lent { result.ghost_name ≡ self.entry.ghost_name }
        ensures change { result.now.paseto
            ≡ record self.entry.now.paseto { footer = Some footer.entry } }
        ensures rest { held result.now.claims ≡ held self.entry.now.claims }
    {
        self.paseto.set_footer(footer);
        self
    }

    /// The payload of a token with these claims: a compact JSON object, its keys in byte order. It is read back as that
    /// object if the values are nested at most 126 deep. It fails only if an allocation fails.
    pub fn build_payload_from_claims(&self) -> Result<String, GenericBuilderError>
        ensures ok { IfOk result (λ text. string_bytes text ≡ payload (held self.now.claims)) }
        ensures read_back { OnOk result (IsReadBack (held self.now.claims)) }
        ensures err { IfErr result IsMemory }
    {
        Ok(self.claims.to_text()?)
    }

    // The footer and the implicit assertion, at the lifetime of a loan.
    fn lent<'p>(&'p self) -> Paseto<'p, V, P>
        ensures { result ≡ self.now.paseto }
    {
        self.paseto
    }

    // What is to become the token of a payload.
    fn with_payload<'p>(&'p self, text: &'p str) -> Paseto<'p, V, P>
        ensures text { payload_text result.payload ≡ text.now }
        ensures footer { result.footer ≡ self.now.paseto.footer }
        ensures implicit_assertion { result.implicit_assertion
            ≡ self.now.paseto.implicit_assertion }
    {
        let mut paseto = self.lent();
        paseto.set_payload(Payload::from(text));
        paseto
    }
}

impl<'a, V: VersionTrait, P: PurposeTrait> ClaimSetter for GenericBuilder<'a, V, P> {
    ghost claims = { λ builder. held builder.claims };

    ghost is_rest = { λ builder other. builder.paseto ≡ other.paseto };

    fn put_claim<C: PasetoClaim>(&mut self, claim: &C) -> Result<(), GenericBuilderError> {
        self.claims.set(claim)
    }

    fn put_claims(&mut self, claims: BTreeMap<String, Value>) -> Result<(), GenericBuilderError> {
        self.claims.extend(claims)
    }
}

impl<'a, V: ImplicitAssertionCapable, P: PurposeTrait> GenericBuilder<'a, V, P> {
    /// Sets the implicit assertion, which may be empty, and changes nothing else. Does not allocate.
    pub fn set_implicit_assertion(&mut self, implicit_assertion: ImplicitAssertion<'a>) -> &mut Self
        ensures lent { result.ghost_name ≡ self.entry.ghost_name }
        ensures change { result.now.paseto
            ≡ record self.entry.now.paseto { implicit_assertion = Some implicit_assertion.entry } }
        ensures rest { held result.now.claims ≡ held self.entry.now.claims }
    {
        self.paseto.set_implicit_assertion(implicit_assertion);
        self
    }
}

impl<V: GenericLocalVersion> GenericBuilder<'_, V, Local> {
    /// Encrypts the claims, with the footer and, in versions 3 and 4, the implicit assertion, and a nonce of 32 bytes
    /// from the generator.
    ///
    /// `CipherError` of `Cipher` is returned if the generator fails. It is called once, after the payload is made.
    ///
    /// Source: PASETO specification, "Version 1", "Version 3" and "Version 4", "Encrypt".
    pub fn try_encrypt<R: TryRng>(
        &self,
        rng: &mut R,
        key: &PasetoSymmetricKey<V, Local>,
    ) -> Result<String, GenericBuilderError>
        ensures ok { let binding = binding_of key.now self.now.paseto.footer
            self.now.paseto.implicit_assertion in
            IfOk result (λ token. IsSealed V.design binding (is_some self.now.paseto.footer)
            (held self.now.claims)
            (λ nonce. R.may_fill rng.old nonce rng.new) (string_bytes token)) }
        ensures read_back { OnOk result (IsReadBack (held self.now.claims)) }
        ensures err { IfErr result (λ error. IsMemory error ⊎ IsOfGenerator R.Error error) }
    {
        let payload = self.build_payload_from_claims()?;
        let nonce = Key::<32>::try_new_random(rng)?;
        let paseto = self.with_payload(payload.as_str());
        Ok(paseto.try_encrypt(self.claims.allocator(), key, &PasetoNonce::from(&nonce))?)
    }
}

impl GenericBuilder<'_, V2, Local> {
    /// Encrypts the claims, with the footer, the caller's box, and a nonce of 24 bytes from the generator.
    ///
    /// `CipherError` of `Cipher` is returned if the generator fails, and of `ChaChaCipherError` if the box cannot
    /// encrypt the payload. The generator is called once, after the payload is made.
    ///
    /// Source: PASETO specification, "Version 2", "Encrypt".
    pub fn try_encrypt<B: SealedBox, R: TryRng>(
        &self,
        sealed_box: &B,
        rng: &mut R,
        key: &PasetoSymmetricKey<V2, Local>,
    ) -> Result<String, GenericBuilderError>
        ensures ok { let binding = binding_of key.now self.now.paseto.footer None in
            IfOk result (λ token. IsBoxAnswer B.sealing binding (is_some self.now.paseto.footer)
            (held self.now.claims)
            (λ nonce. R.may_fill rng.old nonce rng.new) (Some (string_bytes token))) }
        ensures read_back { OnOk result (IsReadBack (held self.now.claims)) }
        ensures err { let binding = binding_of key.now self.now.paseto.footer None in
            IfErr result (λ error. IsMemory error ⊎ (IsOfGenerator R.Error error
            ⊎ (IsOfBox error
            × IsBoxAnswer B.sealing binding (is_some self.now.paseto.footer) (held self.now.claims)
            (λ nonce. R.may_fill rng.old nonce rng.new) None))) }
    {
        let payload = self.build_payload_from_claims()?;
        let nonce = Key::<24>::try_new_random(rng)?;
        let paseto = self.with_payload(payload.as_str());
        let alloc = self.claims.allocator();
        Ok(paseto.try_encrypt(alloc, sealed_box, key, &PasetoNonce::from(&nonce))?)
    }
}

impl<V: PublicVersion> GenericBuilder<'_, V, Public> {
    /// Signs the claims, which stay readable, with the footer and, in versions 3 and 4, the implicit assertion, using
    /// the caller's scheme.
    ///
    /// `CipherError` is returned of the scheme's own errors, and in versions 2 and 4 of `TryFromSlice` for a private
    /// key that does not have 64 bytes.
    ///
    /// Source: PASETO specification, "Version 1" to "Version 4", "Sign".
    pub fn try_sign<S>(
        &self,
        scheme: &mut S,
        key: &PasetoAsymmetricPrivateKey<'_, V, Public>,
    ) -> Result<String, GenericBuilderError>
    where
        V: Signs<S>,
        ensures answer { IsSignAnswer V.valid (V.declined key.now) V.public_design key.now
            (V.partner key.now)
            self.now.paseto.footer self.now.paseto.implicit_assertion (held self.now.claims)
            result }
        ensures asked { ¬ HasPrivateLength V.public_design key.now → scheme.new ≡ scheme.old }
        ensures read_back { OnOk result (IsReadBack (held self.now.claims)) }
    {
        let payload = self.build_payload_from_claims()?;
        let paseto = self.with_payload(payload.as_str());
        Ok(paseto.try_sign(self.claims.allocator(), scheme, key)?)
    }
}
