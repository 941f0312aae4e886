//! The parser of tokens of every version and purpose.

ghost use Rattle.std.specs.Prelude.{◌≡◌, ℕ, List, length, if◌then◌else◌, true, false, None, Some, IfOk, IfErr, OnOk, OnErr, string_bytes};
ghost use Rattle.serde_json.specs.View.{members_view, view};
ghost use Rattle.rusty_paseto_claims.specs.Claim.{gives, one_member};
ghost use Rattle.rusty_paseto_claims.specs.Whole.{first_odd, is_whole};
ghost use Rattle.rusty_paseto_core.specs.Context.{assertion_of, binding_of, footer_of};
ghost use Rattle.rusty_paseto_core.specs.Footer.{footer_text};
ghost use Rattle.rusty_paseto_core.specs.ImplicitAssertion.{assertion_text};
ghost use Rattle.rusty_paseto_core.specs.Local.Boxed.{box_opening};
ghost use Rattle.rusty_paseto_core.specs.Local.Opening.{opening};
ghost use Rattle.rusty_paseto_core.specs.Public.Verifying.{verification};
ghost use Rattle.rusty_paseto_core.specs.declared.PasetoError.TheVariants.{TooLong};
ghost use Rattle.rusty_paseto_parts.specs.Limit.{is_beyond};
ghost use Rattle.rusty_paseto_generic.specs.declared.error.GenericParserError.TheVariants.{CipherError};
ghost use Rattle.rusty_paseto_generic.specs.Error.Parser.{IsMemory, IsRefusal};
ghost use Rattle.rusty_paseto_generic.specs.Parsers.Held.{checkers_of, rules_of, verdicts_of, with_times};
ghost use Rattle.rusty_paseto_generic.specs.Parsers.Times.{times_at};
ghost use Rattle.rusty_paseto_generic.specs.Parsers.Parsing.{IsAnswerWithin, IsCheckAnswer, IsTextAnswer, assertion_in};
ghost use Rattle.rusty_paseto_generic.specs.Parsers.Rules.{AreSame, IsStored, all_with_checkers, all_stored, edited, fault_in, no_rule, odd_fault, whole_answer, with_both, with_required, with_stored};

use crate::builders::GenericLocalVersion;
use crate::error::GenericParserError;
use crate::parsers::checks::Checks;
use crate::parsers::parsing::{check_value, parse_opened, parse_text};
use crate::parsers::setter::CheckSetter;
use crate::parsers::times::Times;
use crate::validator::ValidatorFn;
use jiff::Timestamp;
use rusty_paseto_claims::PasetoClaim;
use rusty_paseto_core::{
    Footer, ImplicitAssertion, ImplicitAssertionCapable, Local, Paseto, PasetoAsymmetricPublicKey,
    PasetoError, PasetoSymmetricKey, Public, PurposeTrait, SealedBox, V2, Verifies, VersionTrait,
};
use rusty_paseto_parts::is_longer;
use serde_json::Value;
use std::alloc::Global;
use std::collections::BTreeMap;
use std::marker::PhantomData;

/// The checks that `parse` applies to a token of a version and a purpose before it returns the claims: the expected
/// footer, the implicit assertion, and the checks of single claims.
///
/// A key is checked against a stored value (`check_claim`, `extend_check_claims`), or by the caller's own validator
/// (`validate_key`, `validate_claim`, `extend_validation_claims`). A key with a validator is checked only by it.
/// `check_times` adds checks of `exp` and `nbf` at the parser's moment, with a leeway if `set_leeway` set one. They
/// accept a token without these claims: require a claim with `require_claim`. Numbers in stored values must be 64-bit
/// integers.
///
/// On an error a call leaves the parser unchanged. `check_claim`, `validate_claim`, `validate_key`, `require_claim`,
/// `extend_check_claims`, `extend_validation_claims` and `check_times` return the parser, for chains of calls;
/// `put_check`, `put_validator`, `put_key_validator`, `put_required`, `put_checks`, `put_validators` and `put_times` do
/// the same without returning it, for code that continues after an error.
///
/// ```rust
/// use rusty_paseto_generic::{
///     AudienceClaim, CheckSetter, Footer, GenericParser, GenericParserError, Local,
///     PasetoSymmetricKey, V4,
/// };
/// use serde_json::Value;
/// use std::alloc::Global;
///
/// /// The claims of a token for customers, whose footer names the key.
/// pub fn parse(
///     alloc: Global,
///     token: &str,
///     key: &PasetoSymmetricKey<V4, Local>,
/// ) -> Result<Value, GenericParserError> {
///     let mut parser = GenericParser::<V4, Local>::new(alloc);
///     parser
///         .check_claim(&AudienceClaim::from("customers"))?
///         .set_footer(Footer::from("{\"kid\":\"2026-11\"}"));
///     parser.parse(token, key)
/// }
/// ```
pub type GenericParser<'a, V, P> = TokenParser<'a, V, P, ValidatorFn>;

/// For code that is generic over the validators' type `B`; other code uses [`GenericParser`], where `B` is a `Box`.
#[derive(Drop)]
pub struct TokenParser<'a, V, P, B> {
    version: PhantomData<V>,
    purpose: PhantomData<P>,
    checks: Checks<B>,
    // When the times are checked, where they are, and by how many seconds the clocks may differ.
    moment: Timestamp,
    leeway: u32,
    footer: Option<Footer<'a>>,
    implicit_assertion: Option<ImplicitAssertion<'a>>,
    // The most bytes of a token that is read, where there is a limit.
    longest: Option<usize>,
}

impl<'a, V: VersionTrait, P: PurposeTrait, B: Drop> TokenParser<'a, V, P, B> {
    /// A parser without checks, footer, implicit assertion and limit. It allocates with `alloc`, but not yet.
    pub fn new(alloc: Global) -> Self
        ensures checks { (key : List ℕ) → rules_of result.checks key ≡ no_rule }
        ensures leeway { result.leeway ≡ 0 }
        ensures footer { result.footer ≡ None }
        ensures implicit_assertion { result.implicit_assertion ≡ None }
        ensures longest { result.longest ≡ None }
    {
        TokenParser {
            version: PhantomData,
            purpose: PhantomData,
            checks: Checks::new(alloc),
            moment: Timestamp::UNIX_EPOCH,
            leeway: 0,
            footer: None,
            implicit_assertion: None,
            longest: None,
        }
    }

    /// The same as `new`.
    pub fn default(alloc: Global) -> Self
        ensures checks { (key : List ℕ) → rules_of result.checks key ≡ no_rule }
        ensures leeway { result.leeway ≡ 0 }
        ensures footer { result.footer ≡ None }
        ensures implicit_assertion { result.implicit_assertion ≡ None }
        ensures longest { result.longest ≡ None }
    {
        TokenParser::new(alloc)
    }

    /// Sets the moment at which the times are checked, and changes nothing else. It has no effect on a parser that
    /// checks no times. Does not allocate.
    pub fn set_now(&mut self, now: Timestamp) -> &mut Self
        ensures lent { result.ghost_name ≡ self.entry.ghost_name }
        ensures change { result.now ≡ record self.entry.now { moment = now } }
    {
        self.moment = now;
        self
    }

    /// Sets by how many seconds the clocks of issuer and reader may differ, 0 by default, and changes nothing else:
    /// `exp` is compared with a moment that much earlier, and `nbf` with one that much later. It has no effect on a
    /// parser that checks no times. Does not allocate.
    ///
    /// ```rust
    /// use jiff::Timestamp;
    /// use rusty_paseto_generic::{CheckSetter, GenericParser, GenericParserError, Local, V4};
    /// use std::alloc::Global;
    ///
    /// /// A parser that checks the times, and allows for clocks that differ by a minute.
    /// pub fn lenient_parser<'a>(
    ///     alloc: Global,
    ///     now: Timestamp,
    /// ) -> Result<GenericParser<'a, V4, Local>, GenericParserError> {
    ///     let mut parser = GenericParser::<V4, Local>::new(alloc);
    ///     parser.check_times(now)?.set_leeway(60);
    ///     Ok(parser)
    /// }
    /// ```
    pub fn set_leeway(&mut self, seconds: u32) -> &mut Self
        ensures lent { result.ghost_name ≡ self.entry.ghost_name }
        ensures change { result.now ≡ record self.entry.now { leeway = seconds } }
    {
        self.leeway = seconds;
        self
    }

    /// Sets how many bytes a token may have, and changes nothing else. `parse` refuses a longer one with `CipherError`
    /// of `TooLong`, before any of it is decoded: without a limit, the sender of a token determines how much memory is
    /// allocated for it. There is no limit until you set one. Does not allocate.
    ///
    /// ```rust
    /// use rusty_paseto_generic::{GenericParser, Local, PasetoError, PasetoSymmetricKey, V4};
    /// use std::alloc::Global;
    ///
    /// /// Whether a token has more than 64 KiB, so that it was not read.
    /// pub fn is_too_long(alloc: Global, token: &str, key: &PasetoSymmetricKey<V4, Local>) -> bool {
    ///     let mut parser = GenericParser::<V4, Local>::new(alloc);
    ///     parser.set_longest(65_536);
    ///     match parser.parse(token, key) {
    ///         Err(refusal) => matches!(refusal.cause(), Some(PasetoError::TooLong)),
    ///         Ok(_) => false,
    ///     }
    /// }
    /// ```
    pub fn set_longest(&mut self, bytes: usize) -> &mut Self
        ensures lent { result.ghost_name ≡ self.entry.ghost_name }
        ensures change { result.now ≡ record self.entry.now { longest = Some bytes } }
    {
        self.longest = Some(bytes);
        self
    }

    /// How many bytes a token may have, or `None` if no limit was set. Does not allocate.
    pub fn longest(&self) -> Option<usize>
        ensures { result ≡ self.now.longest }
    {
        self.longest
    }

    /// Stores a value under a key, as `put_check` does for the claim of this key and value, and copies neither.
    ///
    /// `ClaimError` of `Unexpected` with the key is returned for a value that contains a number that is not a 64-bit
    /// integer, and `Memory` if an allocation fails. The parser is then unchanged.
    pub fn put_expected(&mut self, key: String, value: Value) -> Result<(), GenericParserError>
        ensures ok { OnOk result (AreSame (rules_of self.new.checks) (edited (string_bytes key)
            (with_stored (one_member (string_bytes key) (view value))) (rules_of self.old.checks))) }
        ensures whole { OnOk result (is_whole (view value) ≡ true) }
        ensures moment { self.new.moment ≡ self.old.moment }
        ensures rest { (self.new.footer ≡ self.old.footer)
            × (self.new.implicit_assertion ≡ self.old.implicit_assertion)
            × (self.new.leeway ≡ self.old.leeway) × (self.new.longest ≡ self.old.longest) }
        ensures err { OnErr result (AreSame (rules_of self.new.checks) (rules_of self.old.checks)) }
        ensures fault { IfErr result (IsRefusal
            (fault_in (whole_answer (string_bytes key) (gives (view value))))) }
    {
        self.checks.store_expected(key, value)
    }

    // When the times are checked.
    fn times(&self) -> Times
        ensures { result ≡ times_at self.now.moment self.now.leeway }
    {
        Times {
            moment: self.moment,
            leeway: self.leeway,
        }
    }

    // Refuses a token that is beyond the limit, if one was set.
    fn check_length(&self, token: &str) -> Result<(), GenericParserError>
        ensures ok { OnOk result (is_beyond self.now.longest (length token.now) ≡ false) }
        ensures err { IfErr result (λ error. (error ≡ CipherError TooLong)
            × (is_beyond self.now.longest (length token.now) ≡ true)) }
    {
        if is_longer(token, self.longest) {
            return Err(GenericParserError::CipherError {
                source: PasetoError::TooLong,
            });
        }
        Ok(())
    }

    /// The expected footer: the one that was set last, or the empty one. Does not allocate.
    pub fn get_footer(&self) -> Footer<'_>
        ensures { footer_text result ≡ footer_of self.now.footer }
    {
        self.footer.unwrap_or_default()
    }

    /// The footer that was set, which may be empty, or `None` if none was set. Does not allocate.
    pub fn expected_footer(&self) -> Option<Footer<'a>>
        ensures { result ≡ self.now.footer }
    {
        self.footer
    }

    /// The implicit assertion that was set, which may be empty, or `None` if none was set. Does not allocate.
    pub fn expected_assertion(&self) -> Option<ImplicitAssertion<'a>>
        ensures { result ≡ self.now.implicit_assertion }
    {
        self.implicit_assertion
    }

    /// Sets the footer, which may be empty, and changes nothing else. Does not allocate.
    pub fn set_footer(&mut self, footer: Footer<'a>) -> &mut Self
        ensures lent { result.ghost_name ≡ self.entry.ghost_name }
        ensures change { result.now ≡ record self.entry.now { footer = Some footer.entry } }
    {
        self.footer = Some(footer);
        self
    }
}

impl<'a, V: VersionTrait, P: PurposeTrait, B: Drop> CheckSetter<B> for TokenParser<'a, V, P, B> {
    ghost rules = { λ parser. rules_of parser.checks };

    ghost moment = { λ parser. parser.moment };

    ghost is_rest = { λ parser other. (parser.footer ≡ other.footer)
        × (parser.implicit_assertion ≡ other.implicit_assertion) × (parser.leeway ≡ other.leeway)
        × (parser.longest ≡ other.longest) };

    fn put_check<C: PasetoClaim>(&mut self, claim: &C) -> Result<(), GenericParserError> {
        self.checks.store(claim)
    }

    fn put_validator<C: PasetoClaim>(
        &mut self,
        claim: &C,
        validator: B,
    ) -> Result<(), GenericParserError> {
        self.checks.store_validator(claim, validator)
    }

    fn put_checks(&mut self, claims: BTreeMap<String, Value>) -> Result<(), GenericParserError> {
        self.checks.store_all(claims)
    }

    fn put_validators(&mut self, validators: BTreeMap<String, B>) -> Result<(), GenericParserError>
        ensures ok { OnOk result (AreSame (rules_of self.new.checks)
            (all_with_checkers (checkers_of validators.entries) (rules_of self.old.checks))) }
        ensures moment { self.new.moment ≡ self.old.moment }
        ensures rest { (self.new.footer ≡ self.old.footer)
            × (self.new.implicit_assertion ≡ self.old.implicit_assertion)
            × (self.new.leeway ≡ self.old.leeway) × (self.new.longest ≡ self.old.longest) }
        ensures err { OnErr result (AreSame (rules_of self.new.checks) (rules_of self.old.checks)) }
        ensures fault { IfErr result IsMemory }
    {
        Ok(self.checks.store_validators(validators)?)
    }

    fn put_key_validator(&mut self, key: &str, validator: B) -> Result<(), GenericParserError> {
        Ok(self.checks.store_checker(key, validator)?)
    }

    fn put_required(&mut self, key: &str) -> Result<(), GenericParserError> {
        Ok(self.checks.require(key)?)
    }

    fn put_times(&mut self, moment: Timestamp) -> Result<(), GenericParserError> {
        self.checks.check_times()?;
        self.moment = moment;
        Ok(())
    }
}

impl<'a, V: ImplicitAssertionCapable, P: PurposeTrait, B: Drop> TokenParser<'a, V, P, B> {
    /// The expected implicit assertion: the one that was set last, or the empty one. Does not allocate.
    pub fn get_implicit_assertion(&self) -> ImplicitAssertion<'_>
        ensures { assertion_text result ≡ assertion_of self.now.implicit_assertion }
    {
        self.implicit_assertion.unwrap_or_default()
    }

    /// Sets the implicit assertion, which may be empty, and changes nothing else. Does not allocate.
    pub fn set_implicit_assertion(&mut self, implicit_assertion: ImplicitAssertion<'a>) -> &mut Self
        ensures lent { result.ghost_name ≡ self.entry.ghost_name }
        ensures change { result.now ≡ record self.entry.now
            { implicit_assertion = Some implicit_assertion.entry } }
    {
        self.implicit_assertion = Some(implicit_assertion);
        self
    }
}

impl<V: VersionTrait, P: PurposeTrait> TokenParser<'_, V, P, ValidatorFn> {
    /// The claims in a text that was decrypted or verified in another way, for example by a key ring: what `parse`
    /// returns for a token with this text.
    ///
    /// Otherwise it returns the first error of `parse` that is not about decrypting or verifying: `PayloadJsonError` or
    /// `ClaimError`. `Memory` may be returned in place of any result.
    pub fn value_of(&self, text: &str) -> Result<Value, GenericParserError>
        ensures { IsTextAnswer (verdicts_of (λ b. verdict b)
            (times_at self.now.moment self.now.leeway) self.now.checks) text.now result }
    {
        parse_text(&self.checks, &self.times(), text)
    }

    /// Checks a value that was parsed in another way, for example by a parser without checks: whether it passes what
    /// `parse` checks once a token is read. It ignores the parser's footer and implicit assertion.
    ///
    /// Otherwise it returns `ClaimError` for the first key in byte order that fails its check. `Memory` may be returned
    /// in place of any result.
    pub fn check(&self, value: &Value) -> Result<(), GenericParserError>
        ensures { IsCheckAnswer (verdicts_of (λ b. verdict b)
            (times_at self.now.moment self.now.leeway) self.now.checks) (view value.now) result }
    {
        check_value(&self.checks, &self.times(), value)
    }
}

impl<V: GenericLocalVersion> TokenParser<'_, V, Local, ValidatorFn> {
    /// Decrypts a token with the parser's footer and, in versions 3 and 4, its implicit assertion, and returns its text
    /// as a JSON value, which passes all checks.
    ///
    /// Otherwise it returns the first of these errors: `CipherError` of `TooLong` for a token beyond the limit, if one
    /// was set; `CipherError` of the error of `try_decrypt` of `Paseto`; `PayloadJsonError` for a text that is not
    /// JSON, nested at most 127 deep; `ClaimError` of `Unexpected` for a number that is not a 64-bit integer, with the
    /// first key in byte order whose value contains one, or the empty text if the value is not an object; `ClaimError`
    /// for the first key in byte order that fails its check. `Memory` may be returned in place of any result, except
    /// for a token that is too long or has a wrong number of sections.
    ///
    /// Source: PASETO specification, "Version 1", "Version 3" and "Version 4", "Decrypt".
    pub fn parse(
        &self,
        token: &str,
        key: &PasetoSymmetricKey<V, Local>,
    ) -> Result<Value, GenericParserError>
        ensures { let binding = binding_of key.now self.now.footer
            (assertion_in V.design.binds_assertion self.now.implicit_assertion) in
            IsAnswerWithin self.now.longest (opening V.design binding)
            (verdicts_of (λ b. verdict b) (times_at self.now.moment self.now.leeway)
            self.now.checks) token.now result }
    {
        self.check_length(token)?;
        let assertion = V::bound_assertion(self.implicit_assertion);
        let alloc = self.checks.allocator();
        let opened = V::open(alloc, token, key, self.footer, assertion);
        parse_opened(&self.checks, &self.times(), opened)
    }
}

impl TokenParser<'_, V2, Local, ValidatorFn> {
    /// Decrypts a token with the caller's box and the parser's footer, and returns its text as a JSON value, which
    /// passes all checks. The errors are those of the other versions' `parse`, in the same order.
    ///
    /// Source: PASETO specification, "Version 2", "Decrypt".
    pub fn parse<S: SealedBox>(
        &self,
        sealed_box: &S,
        token: &str,
        key: &PasetoSymmetricKey<V2, Local>,
    ) -> Result<Value, GenericParserError>
        ensures { let binding = binding_of key.now self.now.footer None in
            IsAnswerWithin self.now.longest (box_opening S.sealing binding)
            (verdicts_of (λ b. verdict b) (times_at self.now.moment self.now.leeway)
            self.now.checks) token.now result }
    {
        self.check_length(token)?;
        let alloc = self.checks.allocator();
        let opened = Paseto::<V2, Local>::try_decrypt(alloc, sealed_box, token, key, self.footer);
        parse_opened(&self.checks, &self.times(), opened)
    }
}

impl<V> TokenParser<'_, V, Public, ValidatorFn> {
    /// Verifies a token with the caller's scheme, the parser's footer and, in versions 3 and 4, its implicit assertion,
    /// and returns its text as a JSON value, which passes all checks.
    ///
    /// The errors are those of `parse` of local tokens, in the same order, with those of `try_verify` of `Paseto` in
    /// place of those of `try_decrypt`.
    ///
    /// Source: PASETO specification, "Version 1" to "Version 4", "Verify".
    pub fn parse<S>(
        &self,
        scheme: &S,
        token: &str,
        key: &PasetoAsymmetricPublicKey<'_, V, Public>,
    ) -> Result<Value, GenericParserError>
    where
        V: Verifies<S>,
        ensures { let binding = binding_of key.now self.now.footer
            (assertion_in V.public_design.binds_assertion self.now.implicit_assertion) in
            IsAnswerWithin self.now.longest (verification V.valid V.refused V.public_design binding)
            (verdicts_of (λ b. verdict b) (times_at self.now.moment self.now.leeway)
            self.now.checks) token.now result }
    {
        self.check_length(token)?;
        let assertion = V::signed_assertion(self.implicit_assertion);
        let alloc = self.checks.allocator();
        let opened = V::verify(alloc, scheme, token, key, self.footer, assertion);
        parse_opened(&self.checks, &self.times(), opened)
    }
}
