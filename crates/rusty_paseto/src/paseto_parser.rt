//! The default parser of tokens.

ghost use Rattle.std.specs.Prelude.{◌≡◌, if◌then◌else◌, None, IfOk, IfErr, OnOk, OnErr};
ghost use Rattle.serde_json.specs.View.{view};
ghost use Rattle.rusty_paseto_core.specs.Context.{binding_of};
ghost use Rattle.rusty_paseto_core.specs.Local.Boxed.{box_opening};
ghost use Rattle.rusty_paseto_core.specs.Local.Opening.{opening};
ghost use Rattle.rusty_paseto_core.specs.Public.Verifying.{verification};
ghost use Rattle.rusty_paseto_generic.specs.Error.Parser.{IsMemory};
ghost use Rattle.rusty_paseto_generic.specs.Parsers.Held.{checkers_of, rules_of, verdicts_of, with_times};
ghost use Rattle.rusty_paseto_generic.specs.Parsers.Times.{times_at};
ghost use Rattle.rusty_paseto_generic.specs.Parsers.Parsing.{IsAnswerWithin, IsCheckAnswer, assertion_in};
ghost use Rattle.rusty_paseto_generic.specs.Parsers.Rules.{AreSame, all_with_checkers, no_rule};

use crate::version::DefaultLocalVersion;
use jiff::Timestamp;
use rusty_paseto_core::{
    Footer, ImplicitAssertion, ImplicitAssertionCapable, Local, PasetoAsymmetricPublicKey,
    PasetoSymmetricKey, Public, PurposeTrait, SealedBox, V2, Verifies, VersionTrait,
};
use rusty_paseto_generic::{
    CheckSetter, GenericParserError, PasetoClaim, TokenParser, ValidatorFn,
};
use serde_json::Value;
use std::alloc::Global;
use std::collections::BTreeMap;

/// A parser of tokens. One that `default` makes refuses tokens that have expired or may not be used yet: the usual
/// counterpart of a [`PasetoBuilder`](crate::PasetoBuilder).
///
/// It checks the times at the moment that it was made with, or that `set_now` set since. `set_leeway` allows for clocks
/// that differ. A token without `exp` never expires: require it with `require_claim("exp")`. A service on the internet
/// should call `set_longest`, which refuses a longer token before any of it is decoded. Check other claims with
/// `check_claim`, or with `validate_key` and one of the crate's [`validators`](crate::validators) or your own.
///
/// On an error a call leaves the parser unchanged. `check_claim`, `validate_key` and `require_claim` return the parser,
/// for chains of calls; `put_check`, `put_key_validator` and `put_required` do the same without returning it, for code
/// that continues after an error.
///
/// ```rust
/// use jiff::Timestamp;
/// use rusty_paseto::prelude::*;
/// use serde_json::Value;
/// use std::alloc::Global;
///
/// /// The claims of a token for customers that expires, with five seconds for clocks that differ.
/// pub fn admit(
///     alloc: Global,
///     now: Timestamp,
///     token: &str,
///     key: &PasetoSymmetricKey<V4, Local>,
/// ) -> Result<Value, GenericParserError> {
///     let mut parser = PasetoParser::<V4, Local>::default(alloc, now)?;
///     parser
///         .check_claim(&AudienceClaim::from("customers"))?
///         .require_claim("exp")?
///         .set_leeway(5)
///         .set_footer(Footer::from("{\"kid\":\"2026-11\"}"));
///     parser.parse(token, key)
/// }
/// ```
pub type PasetoParser<'a, V, P> = DefaultParser<'a, V, P, ValidatorFn>;

/// For code that is generic over the validators' type `B`; other code uses [`PasetoParser`], where `B` is a `Box`.
#[derive(Drop)]
pub struct DefaultParser<'a, V, P, B> {
    pub(crate) parser: TokenParser<'a, V, P, B>,
}

impl<'a, V: VersionTrait, P: PurposeTrait, B: Drop> DefaultParser<'a, V, P, B> {
    /// A parser without checks, not even of times, and without footer, implicit assertion and limit. It allocates with
    /// `alloc`, but not yet.
    pub fn new(alloc: Global) -> Self
        ensures checks { AreSame (rules_of result.parser.checks) (λ key. no_rule) }
        ensures leeway { result.parser.leeway ≡ 0 }
        ensures footer { result.parser.footer ≡ None }
        ensures implicit_assertion { result.parser.implicit_assertion ≡ None }
        ensures longest { result.parser.longest ≡ None }
    {
        DefaultParser {
            parser: TokenParser::new(alloc),
        }
    }

    /// A parser that checks the times at a moment, as `check_times` of a `GenericParser` does, without other checks,
    /// footer, implicit assertion and limit. It fails only if an allocation fails.
    pub fn default(alloc: Global, now: Timestamp) -> Result<Self, GenericParserError>
        ensures checks { IfOk result (λ made. AreSame (rules_of made.parser.checks)
            (with_times (λ key. no_rule))) }
        ensures times { IfOk result (λ made. (made.parser.moment ≡ now)
            × (made.parser.leeway ≡ 0)) }
        ensures footer { IfOk result (λ made. made.parser.footer ≡ None) }
        ensures implicit_assertion { IfOk result (λ made. made.parser.implicit_assertion ≡ None) }
        ensures longest { IfOk result (λ made. made.parser.longest ≡ None) }
        ensures fault { IfErr result IsMemory }
    {
        let mut parser = TokenParser::new(alloc);
        parser.put_times(now)?;
        Ok(DefaultParser { parser })
    }

    /// Sets the moment at which the times are checked, and changes nothing else. It has no effect on a parser that
    /// checks no times. Does not allocate.
    pub fn set_now(&mut self, now: Timestamp) -> &mut Self
        ensures lent { result.ghost_name ≡ self.entry.ghost_name }
        ensures change { result.now.parser ≡ record self.entry.now.parser { moment = now } }
    {
        self.parser.set_now(now);
        self
    }

    /// Sets by how many seconds the clocks of issuer and reader may differ, as `set_leeway` of a `GenericParser` does,
    /// and changes nothing else. It is 0 until you set it. Does not allocate.
    pub fn set_leeway(&mut self, seconds: u32) -> &mut Self
        ensures lent { result.ghost_name ≡ self.entry.ghost_name }
        ensures change { result.now.parser ≡ record self.entry.now.parser { leeway = seconds } }
    {
        self.parser.set_leeway(seconds);
        self
    }

    /// Sets how many bytes a token may have, as `set_longest` of a `GenericParser` does, and changes nothing else: a
    /// longer one is refused before any of it is decoded. There is no limit until you set one. Does not allocate.
    pub fn set_longest(&mut self, bytes: usize) -> &mut Self
        ensures lent { result.ghost_name ≡ self.entry.ghost_name }
        ensures change { result.now.parser ≡ record self.entry.now.parser { longest = Some bytes } }
    {
        self.parser.set_longest(bytes);
        self
    }

    /// Sets the footer, which may be empty, and changes nothing else. Does not allocate.
    pub fn set_footer(&mut self, footer: Footer<'a>) -> &mut Self
        ensures lent { result.ghost_name ≡ self.entry.ghost_name }
        ensures change { result.now.parser
            ≡ record self.entry.now.parser { footer = Some footer.entry } }
    {
        self.parser.set_footer(footer);
        self
    }
}

impl<'a, V: VersionTrait, P: PurposeTrait, B: Drop> CheckSetter<B> for DefaultParser<'a, V, P, B> {
    ghost rules = { λ made. rules_of made.parser.checks };

    ghost moment = { λ made. made.parser.moment };

    ghost is_rest = { λ made other. (made.parser.footer ≡ other.parser.footer)
        × (made.parser.implicit_assertion ≡ other.parser.implicit_assertion)
        × (made.parser.leeway ≡ other.parser.leeway)
        × (made.parser.longest ≡ other.parser.longest) };

    fn put_check<C: PasetoClaim>(&mut self, claim: &C) -> Result<(), GenericParserError> {
        self.parser.put_check(claim)
    }

    fn put_validator<C: PasetoClaim>(
        &mut self,
        claim: &C,
        validator: B,
    ) -> Result<(), GenericParserError> {
        self.parser.put_validator(claim, validator)
    }

    fn put_checks(&mut self, claims: BTreeMap<String, Value>) -> Result<(), GenericParserError> {
        self.parser.put_checks(claims)
    }

    fn put_validators(&mut self, validators: BTreeMap<String, B>) -> Result<(), GenericParserError>
        ensures ok { OnOk result (AreSame (rules_of self.new.parser.checks)
            (all_with_checkers (checkers_of validators.entries)
            (rules_of self.old.parser.checks))) }
        ensures moment { self.new.parser.moment ≡ self.old.parser.moment }
        ensures rest { (self.new.parser.footer ≡ self.old.parser.footer)
            × (self.new.parser.implicit_assertion ≡ self.old.parser.implicit_assertion)
            × (self.new.parser.leeway ≡ self.old.parser.leeway)
            × (self.new.parser.longest ≡ self.old.parser.longest) }
        ensures err { OnErr result (AreSame (rules_of self.new.parser.checks)
            (rules_of self.old.parser.checks)) }
        ensures fault { IfErr result IsMemory }
    {
        self.parser.put_validators(validators)
    }

    fn put_key_validator(&mut self, key: &str, validator: B) -> Result<(), GenericParserError> {
        self.parser.put_key_validator(key, validator)
    }

    fn put_required(&mut self, key: &str) -> Result<(), GenericParserError> {
        self.parser.put_required(key)
    }

    fn put_times(&mut self, now: Timestamp) -> Result<(), GenericParserError> {
        self.parser.put_times(now)
    }
}

impl<'a, V: ImplicitAssertionCapable, P: PurposeTrait, B: Drop> DefaultParser<'a, V, P, B> {
    /// Sets the implicit assertion, which may be empty, and changes nothing else. Does not allocate.
    pub fn set_implicit_assertion(&mut self, implicit_assertion: ImplicitAssertion<'a>) -> &mut Self
        ensures lent { result.ghost_name ≡ self.entry.ghost_name }
        ensures change { result.now.parser
            ≡ record self.entry.now.parser { implicit_assertion = Some implicit_assertion.entry } }
    {
        self.parser.set_implicit_assertion(implicit_assertion);
        self
    }
}

impl<V: VersionTrait, P: PurposeTrait> DefaultParser<'_, V, P, ValidatorFn> {
    /// Checks a value that was parsed in another way, for example by a parser without checks, so that a program can
    /// show the claims of a token that it refuses: whether the value passes what `parse` checks once a token is read.
    ///
    /// Otherwise it returns `ClaimError` for the first key in byte order that fails its check. `Memory` may be returned
    /// in place of any result.
    pub fn check(&self, value: &Value) -> Result<(), GenericParserError>
        ensures { let parser = self.now.parser in
            IsCheckAnswer (verdicts_of (λ b. verdict b)
            (times_at parser.moment parser.leeway) parser.checks) (view value.now) result }
    {
        self.parser.check(value)
    }
}

impl<V: DefaultLocalVersion> DefaultParser<'_, V, Local, ValidatorFn> {
    /// Decrypts a token and returns its claims, which pass all checks, as `parse` of a `GenericParser` does, at the
    /// parser's moment and with the same errors in the same order.
    ///
    /// Source: PASETO specification, "Version 1", "Version 3" and "Version 4", "Decrypt".
    pub fn parse(
        &self,
        token: &str,
        key: &PasetoSymmetricKey<V, Local>,
    ) -> Result<Value, GenericParserError>
        ensures { let parser = self.now.parser in
            let binding = binding_of key.now parser.footer
            (assertion_in V.design.binds_assertion parser.implicit_assertion) in
            IsAnswerWithin parser.longest (opening V.design binding)
            (verdicts_of (λ b. verdict b) (times_at parser.moment parser.leeway) parser.checks)
            token.now result }
    {
        self.parser.parse(token, key)
    }
}

impl DefaultParser<'_, V2, Local, ValidatorFn> {
    /// Decrypts a token with the caller's box, and returns its claims, which pass all checks, as the other versions'
    /// `parse` does.
    ///
    /// Source: PASETO specification, "Version 2", "Decrypt".
    pub fn parse<S: SealedBox>(
        &self,
        sealed_box: &S,
        token: &str,
        key: &PasetoSymmetricKey<V2, Local>,
    ) -> Result<Value, GenericParserError>
        ensures { let parser = self.now.parser in
            IsAnswerWithin parser.longest (box_opening S.sealing (binding_of key.now parser.footer None))
            (verdicts_of (λ b. verdict b) (times_at parser.moment parser.leeway) parser.checks)
            token.now result }
    {
        self.parser.parse(sealed_box, token, key)
    }
}

impl<V> DefaultParser<'_, V, Public, ValidatorFn> {
    /// Verifies a token with the caller's scheme, and returns its claims, which pass all checks, as `parse` of local
    /// tokens does.
    ///
    /// Source: PASETO specification, "Version 1" to "Version 4", "Verify".
    pub fn parse<S>(
        &self,
        scheme: &S,
        token: &str,
        key: &PasetoAsymmetricPublicKey<'_, V, Public>,
    ) -> Result<Value, GenericParserError>
    where
        V: Verifies<S>,
        ensures { let parser = self.now.parser in
            let binding = binding_of key.now parser.footer
            (assertion_in V.public_design.binds_assertion parser.implicit_assertion) in
            IsAnswerWithin parser.longest (verification V.valid V.refused V.public_design binding)
            (verdicts_of (λ b. verdict b) (times_at parser.moment parser.leeway) parser.checks)
            token.now result }
    {
        self.parser.parse(scheme, token, key)
    }
}
