//! The default builder of tokens.

ghost use Rattle.std.specs.Prelude.{◌≡◌, ◌⊎◌, None, Some, IsSome, IfOk, IfErr, OnOk, OnErr, is_some, ℕ, List, false, string_bytes};
ghost use Rattle.serde_json.specs.Data.{put, string};
ghost use Rattle.serde_json.specs.Find.{get_member};
ghost use Rattle.serde_json.specs.View.{members_view};
ghost use Rattle.rusty_paseto_core.specs.Context.{binding_of};
ghost use Rattle.rusty_paseto_core.specs.Public.{HasPrivateLength};
ghost use Rattle.rusty_paseto_generic.specs.Error.{IsMemory, IsOfBox, IsOfGenerator};
ghost use Rattle.rusty_paseto_generic.specs.Builders.Claims.{IsReadBack, IsRefusal, becomes, claim_set, payload, without};
ghost use Rattle.rusty_paseto_generic.specs.Builders.Held.{held};
ghost use Rattle.rusty_paseto_generic.specs.Builders.GenericBuilder.{IsBoxAnswer, IsSealed, IsSignAnswer};
ghost use Rattle.rusty_paseto.specs.Held.{counting};
ghost use Rattle.rusty_paseto.specs.Moment.{FitsDefault};
ghost use Rattle.rusty_paseto.specs.PasetoBuilder.{IsDefaultClaims, IsDuplicate, IsMomentFault, IsRefusedRepeat, IsSame, IsUnfitMoment, NeverExpires, acknowledged, counted, expiration_key, nothing_counted};

use crate::keys::Keys;
use crate::moment::{fits_default, hour_after, seconds_after};
use crate::setter::CountingSetter;
use crate::version::DefaultLocalVersion;
use jiff::Timestamp;
use rand_core::TryRng;
use rusty_paseto_claims::moment_text;
use rusty_paseto_core::{
    Footer, ImplicitAssertion, ImplicitAssertionCapable, Local, PasetoAsymmetricPrivateKey,
    PasetoSymmetricKey, Public, PublicVersion, PurposeTrait, SealedBox, Signs, V2, VersionTrait,
};
use rusty_paseto_generic::{
    ClaimSetter, ExpirationClaim, GenericBuilder, GenericBuilderError, PasetoClaim,
    PasetoClaimError,
};
use serde_json::{Map, Value};
use std::alloc::{AllocError, Global};

/// The key of the expiration claim.
const EXPIRATION: &str = "exp";

/// A builder of tokens that begins with the usual claims: an expiration (`exp`) an hour from now, and now as the time
/// of issue (`iat`) and the time from which the token may be used (`nbf`).
///
/// If a key is set twice, `build` returns an error, so that no claim silently replaces another; the three initial
/// claims may each be replaced once. `set_lifetime` replaces the expiration by one this many seconds after the
/// builder's moment.
///
/// On an error a call leaves the builder unchanged. The builder keeps its claims, so it can make any number of tokens.
///
/// ```rust
/// use anyhow::Result;
/// use jiff::Timestamp;
/// use rand_core::TryRng;
/// use rusty_paseto::prelude::*;
/// use std::alloc::Global;
///
/// /// A token for customers, whose footer names the key.
/// pub fn issue<R: TryRng>(
///     alloc: Global,
///     now: Timestamp,
///     rng: &mut R,
///     key: &PasetoSymmetricKey<V4, Local>,
/// ) -> Result<String> {
///     let mut builder = PasetoBuilder::<V4, Local>::try_default(alloc, now)?;
///     builder
///         .set_claim(&AudienceClaim::from("customers"))?
///         .set_footer(Footer::from("{\"kid\":\"2026-11\"}"));
///     Ok(builder.build(rng, key)?)
/// }
/// ```
#[derive(Drop)]
pub struct PasetoBuilder<'a, V, P> {
    alloc: Global,
    // The moment that it was made at.
    moment: Timestamp,
    builder: GenericBuilder<'a, V, P>,
    keys: Keys,
}

impl<'a, V: VersionTrait, P: PurposeTrait> PasetoBuilder<'a, V, P> {
    /// A builder with the claims `exp`, an hour after the moment, and `iat` and `nbf`, the moment, and without footer
    /// and implicit assertion. None of the keys counts as set yet. It fails only if an allocation fails.
    ///
    /// The moment must be one that `fits_default`; `try_default` returns an error for any other. Moments are written in
    /// UTC, with the fraction of the second if there is one, up to its last digit that is not zero.
    pub fn default(alloc: Global, now: Timestamp) -> Result<Self, GenericBuilderError>
        requires { FitsDefault now }
        ensures claims { IfOk result (λ made. IsDefaultClaims now (held made.builder.claims)) }
        ensures keys { IfOk result (λ made. IsSame nothing_counted (counting made.keys)) }
        ensures moment { IfOk result (λ made. made.moment ≡ now) }
        ensures footer { IfOk result (λ made. made.builder.paseto.footer ≡ None) }
        ensures implicit_assertion { IfOk result
            (λ made. made.builder.paseto.implicit_assertion ≡ None) }
        ensures err { IfErr result IsMemory }
    {
        let mut builder = GenericBuilder::new(alloc);
        builder.put_claims(default_claims(alloc, now)?)?;
        Ok(PasetoBuilder {
            alloc,
            moment: now,
            builder,
            keys: Keys::new(alloc),
        })
    }

    /// The builder that `default` makes, if the moment is one that `fits_default`: the moment, and the one an hour
    /// later, are in the years 0 to 9999 of UTC.
    ///
    /// For any other moment it returns `ClaimError` of `RFC3339Date`, with the moment's text.
    pub fn try_default(alloc: Global, now: Timestamp) -> Result<Self, GenericBuilderError>
        ensures fits { OnOk result (FitsDefault now) }
        ensures claims { IfOk result (λ made. IsDefaultClaims now (held made.builder.claims)) }
        ensures keys { IfOk result (λ made. IsSame nothing_counted (counting made.keys)) }
        ensures moment { IfOk result (λ made. made.moment ≡ now) }
        ensures footer { IfOk result (λ made. made.builder.paseto.footer ≡ None) }
        ensures implicit_assertion { IfOk result
            (λ made. made.builder.paseto.implicit_assertion ≡ None) }
        ensures err { IfErr result (λ error. IsMemory error ⊎ IsUnfitMoment now error) }
    {
        if !fits_default(now) {
            return Err(unfit_moment(alloc, now));
        }
        PasetoBuilder::default(alloc, now)
    }

    // The same for a key that was not counted. It is counted first, which takes memory, and taken out again
    // where the claim is refused.
    fn put_new<C: PasetoClaim>(&mut self, key: String, claim: &C) -> Result<(), GenericBuilderError>
        requires key { string_bytes key ≡ C.key claim.now }
        requires new { (counting self.now.keys).is_counted (string_bytes key) ≡ false }
        ensures ok { OnOk result (claim_set (C.key claim.now) (C.json claim.now)
            (held self.old.builder.claims)
            ≡ becomes (held self.new.builder.claims)) }
        ensures keys { OnOk result (IsSame (acknowledged (C.key claim.now) (counting self.old.keys))
            (counting self.new.keys)) }
        ensures rest { (self.new.builder.paseto ≡ self.old.builder.paseto)
            × (self.new.moment ≡ self.old.moment) }
        ensures err { OnErr result (held self.new.builder.claims ≡ held self.old.builder.claims) }
        ensures err_keys { OnErr result (IsSame (counting self.old.keys) (counting self.new.keys)) }
        ensures fault { IfErr result
            (IsRefusal (claim_set (C.key claim.now) (C.json claim.now)
            (held self.old.builder.claims))) }
    {
        self.keys.add(key)?;
        if let Err(refusal) = self.builder.put_claim(claim) {
            self.keys.take_out(claim.get_key());
            return Err(refusal);
        }
        Ok(())
    }

    // Takes out the expiration.
    fn take_out_expiration(&mut self)
        ensures claims { held self.new.builder.claims
            ≡ without expiration_key (held self.old.builder.claims) }
        ensures gone { get_member expiration_key (held self.new.builder.claims) ≡ None }
        ensures keys { self.new.keys ≡ self.old.keys }
        ensures rest { (self.new.builder.paseto ≡ self.old.builder.paseto)
            × (self.new.moment ≡ self.old.moment) }
    {
        self.builder.remove_claim(EXPIRATION);
    }

    /// Sets the footer, which may be empty, and changes nothing else. Does not allocate.
    pub fn set_footer(&mut self, footer: Footer<'a>) -> &mut Self
        ensures lent { result.ghost_name ≡ self.entry.ghost_name }
        ensures change { result.now.builder.paseto
            ≡ record self.entry.now.builder.paseto { footer = Some footer.entry } }
        ensures claims { held result.now.builder.claims ≡ held self.entry.now.builder.claims }
        ensures keys { result.now.keys ≡ self.entry.now.keys }
        ensures moment { result.now.moment ≡ self.entry.now.moment }
    {
        self.builder.set_footer(footer);
        self
    }

    /// The payload of a token with these claims, as that of a `GenericBuilder`, for a caller that encrypts or signs it.
    ///
    /// `DuplicateTopLevelPayloadClaim` is returned for the last key that was set again. There is no other error than
    /// `Memory` beside it.
    pub fn build_payload_from_claims(&self) -> Result<String, GenericBuilderError>
        ensures repeated { IsRefusedRepeat (counting self.now.keys).repeated result }
        ensures ok { IfOk result (λ text. string_bytes text
            ≡ payload (held self.now.builder.claims)) }
        ensures read_back { OnOk result (IsReadBack (held self.now.builder.claims)) }
        ensures err { (counting self.now.keys).repeated ≡ None → IfErr result IsMemory }
    {
        self.check_keys()?;
        self.builder.build_payload_from_claims()
    }

    // Refuses to build where a key was set again.
    fn check_keys(&self) -> Result<(), GenericBuilderError>
        ensures ok { OnOk result ((counting self.now.keys).repeated ≡ None) }
        ensures err { IfErr result (λ error. IsSome (counting self.now.keys).repeated
            × (IsMemory error ⊎ IsDuplicate (counting self.now.keys).repeated error)) }
    {
        let Some(key) = self.keys.repeated() else {
            return Ok(());
        };
        let key = String::from_str(self.alloc, key)?;
        Err(GenericBuilderError::DuplicateTopLevelPayloadClaim(key))
    }
}

impl<'a, V: VersionTrait, P: PurposeTrait> CountingSetter for PasetoBuilder<'a, V, P> {
    ghost claims = { λ made. held made.builder.claims };

    ghost keys = { λ made. counting made.keys };

    ghost moment = { λ made. made.moment };

    ghost is_rest = { λ made other. (made.builder.paseto ≡ other.builder.paseto)
        × (made.moment ≡ other.moment) };

    fn put_claim<C: PasetoClaim>(&mut self, claim: &C) -> Result<(), GenericBuilderError> {
        let key = String::from_str(self.alloc, claim.get_key())?;
        if self.keys.has(key.as_str()) {
            self.builder.put_claim(claim)?;
            self.keys.repeat(key);
            return Ok(());
        }
        self.put_new(key, claim)
    }

    fn put_lifetime(&mut self, seconds: u32) -> Result<(), GenericBuilderError> {
        let Some(end) = seconds_after(self.moment, seconds) else {
            return Err(unfit_moment(self.alloc, self.moment));
        };
        let claim = ExpirationClaim::at(self.alloc, end)?;
        self.put_claim(&claim)
    }

    fn put_no_expiration_danger_acknowledged(&mut self) -> Result<(), GenericBuilderError> {
        self.keys.add(String::from_str(self.alloc, EXPIRATION)?)?;
        self.take_out_expiration();
        Ok(())
    }
}

impl<'a, V: ImplicitAssertionCapable, P: PurposeTrait> PasetoBuilder<'a, V, P> {
    /// Sets the implicit assertion, which may be empty, and changes nothing else. Does not allocate.
    pub fn set_implicit_assertion(&mut self, implicit_assertion: ImplicitAssertion<'a>) -> &mut Self
        ensures lent { result.ghost_name ≡ self.entry.ghost_name }
        ensures change { result.now.builder.paseto
            ≡ record self.entry.now.builder.paseto
            { implicit_assertion = Some implicit_assertion.entry } }
        ensures claims { held result.now.builder.claims ≡ held self.entry.now.builder.claims }
        ensures keys { result.now.keys ≡ self.entry.now.keys }
        ensures moment { result.now.moment ≡ self.entry.now.moment }
    {
        self.builder.set_implicit_assertion(implicit_assertion);
        self
    }
}

impl<V: DefaultLocalVersion> PasetoBuilder<'_, V, Local> {
    /// Encrypts the claims, as `try_encrypt` of a `GenericBuilder` does.
    ///
    /// `DuplicateTopLevelPayloadClaim` is returned for the last key that was set again, before the generator is called.
    /// `CipherError` of `Cipher` is returned if the generator fails.
    ///
    /// Source: PASETO specification, "Version 1", "Version 3" and "Version 4", "Encrypt".
    pub fn build<R: TryRng>(
        &self,
        rng: &mut R,
        key: &PasetoSymmetricKey<V, Local>,
    ) -> Result<String, GenericBuilderError>
        ensures repeated { IsRefusedRepeat (counting self.now.keys).repeated result }
        ensures asked { IsSome (counting self.now.keys).repeated → rng.new ≡ rng.old }
        ensures ok { let binding = binding_of key.now self.now.builder.paseto.footer
            self.now.builder.paseto.implicit_assertion in
            IfOk result (λ token. IsSealed V.design binding (is_some self.now.builder.paseto.footer)
            (held self.now.builder.claims)
            (λ nonce. R.may_fill rng.old nonce rng.new) (string_bytes token)) }
        ensures read_back { OnOk result (IsReadBack (held self.now.builder.claims)) }
        ensures err { (counting self.now.keys).repeated ≡ None → IfErr result
            (λ error. IsMemory error ⊎ IsOfGenerator R.Error error) }
    {
        self.check_keys()?;
        self.builder.try_encrypt(rng, key)
    }
}

impl PasetoBuilder<'_, V2, Local> {
    /// Encrypts the claims with the caller's box, as `try_encrypt` of a `GenericBuilder` does.
    ///
    /// `DuplicateTopLevelPayloadClaim` is returned for the last key that was set again, before the generator is called.
    /// `CipherError` of `Cipher` is returned if the generator fails, and of `ChaChaCipherError` if the box cannot
    /// encrypt the payload.
    ///
    /// Source: PASETO specification, "Version 2", "Encrypt".
    pub fn build<B: SealedBox, R: TryRng>(
        &self,
        sealed_box: &B,
        rng: &mut R,
        key: &PasetoSymmetricKey<V2, Local>,
    ) -> Result<String, GenericBuilderError>
        ensures repeated { IsRefusedRepeat (counting self.now.keys).repeated result }
        ensures asked { IsSome (counting self.now.keys).repeated → rng.new ≡ rng.old }
        ensures ok { let binding = binding_of key.now self.now.builder.paseto.footer None in
            IfOk result (λ token. IsBoxAnswer B.sealing binding
            (is_some self.now.builder.paseto.footer)
            (held self.now.builder.claims) (λ nonce. R.may_fill rng.old nonce rng.new)
            (Some (string_bytes token))) }
        ensures read_back { OnOk result (IsReadBack (held self.now.builder.claims)) }
        ensures err { let binding = binding_of key.now self.now.builder.paseto.footer None in
            (counting self.now.keys).repeated ≡ None
            → IfErr result (λ error. IsMemory error ⊎ (IsOfGenerator R.Error error
            ⊎ (IsOfBox error
            × IsBoxAnswer B.sealing binding (is_some self.now.builder.paseto.footer)
            (held self.now.builder.claims)
            (λ nonce. R.may_fill rng.old nonce rng.new) None))) }
    {
        self.check_keys()?;
        self.builder.try_encrypt(sealed_box, rng, key)
    }
}

impl<V: PublicVersion> PasetoBuilder<'_, V, Public> {
    /// Signs the claims, which stay readable, as `try_sign` of a `GenericBuilder` does.
    ///
    /// `DuplicateTopLevelPayloadClaim` is returned for the last key that was set again, before the scheme is called.
    /// `CipherError` is returned of the scheme's own errors, and in versions 2 and 4 of `TryFromSlice` for a private
    /// key that does not have 64 bytes.
    ///
    /// Source: PASETO specification, "Version 1" to "Version 4", "Sign".
    pub fn build<S>(
        &self,
        scheme: &mut S,
        key: &PasetoAsymmetricPrivateKey<'_, V, Public>,
    ) -> Result<String, GenericBuilderError>
    where
        V: Signs<S>,
        ensures repeated { IsRefusedRepeat (counting self.now.keys).repeated result }
        ensures asked { IsSome (counting self.now.keys).repeated → scheme.new ≡ scheme.old }
        ensures asked_length { ¬ HasPrivateLength V.public_design key.now → scheme.new
            ≡ scheme.old }
        ensures answer { (counting self.now.keys).repeated ≡ None
            → IsSignAnswer V.valid (V.declined key.now) V.public_design key.now (V.partner key.now)
            self.now.builder.paseto.footer self.now.builder.paseto.implicit_assertion
            (held self.now.builder.claims) result }
        ensures read_back { OnOk result (IsReadBack (held self.now.builder.claims)) }
    {
        self.check_keys()?;
        self.builder.try_sign(scheme, key)
    }
}

// The error that names a moment.
fn unfit_moment(alloc: Global, now: Timestamp) -> GenericBuilderError
    ensures { IsMemory result ⊎ IsMomentFault now result }
{
    match moment_text(alloc, now) {
        Ok(text) => GenericBuilderError::ClaimError {
            source: PasetoClaimError::RFC3339Date(text),
        },
        Err(refused) => GenericBuilderError::Memory(refused),
    }
}

// The three claims that a default builder begins with.
fn default_claims(alloc: Global, now: Timestamp) -> Result<Map<String, Value>, AllocError>
    requires { FitsDefault now }
    ensures { IfOk result (λ claims. IsDefaultClaims now (members_view claims.entries)) }
{
    let mut claims = Map::new(alloc);
    let expiration = moment_text(alloc, hour_after(now))?;
    put_text(&mut claims, alloc, EXPIRATION, expiration)?;
    let begin = moment_text(alloc, now)?;
    put_text(&mut claims, alloc, "iat", begin.clone()?)?;
    put_text(&mut claims, alloc, "nbf", begin)?;
    Ok(claims)
}

// Puts a text under its key.
fn put_text(
    claims: &mut Map<String, Value>,
    alloc: Global,
    key: &str,
    text: String,
) -> Result<(), AllocError>
    ensures { OnOk result (members_view claims.new.entries
        ≡ put key.now (string (string_bytes text)) (members_view claims.old.entries)) }
{
    serde_json::put(claims, alloc, key, Value::String(text))
}
