//! Rings that open local tokens of versions 1, 3 and 4.

ghost use Rattle.std.specs.Prelude.{◌≡◌, [], false, None};
ghost use Rattle.rusty_paseto_core.specs.Context.{assertion_of};
ghost use Rattle.rusty_paseto_core.specs.Local.Opening.{opening};
ghost use Rattle.rusty_paseto_core.specs.Local.V1.{v1};
ghost use Rattle.rusty_paseto_generic.specs.Parsers.Held.{verdicts_of};
ghost use Rattle.rusty_paseto_generic.specs.Parsers.Times.{times_at};
ghost use Rattle.rusty_paseto_generic.specs.Parsers.Parsing.{assertion_in};
ghost use Rattle.rusty_paseto.specs.Held.{keys_of};
ghost use Rattle.rusty_paseto.specs.KeyRing.{IsParsingAnswerWithin, IsRingAnswerWithin, read_under};

use crate::error::{KeyRingError, KeyRingParserError};
use crate::key_ring::claims::claims_of;
use crate::key_ring::opened::answer;
use crate::key_ring::{Found, Ring};
use crate::paseto_parser::PasetoParser;
use crate::version::{DefaultAssertionVersion, DefaultLocalVersion};
use rusty_paseto_core::{Footer, ImplicitAssertion, Local, PasetoSymmetricKey, V1};
use rusty_paseto_generic::GenericParser;
use serde_json::Value;

impl<V: DefaultLocalVersion> Ring<PasetoSymmetricKey<V, Local>> {
    /// Decrypts a token with the key that its footer names and with the parser's implicit assertion, and returns the id
    /// and the claims, which pass the parser's checks at the parser's moment. If a footer was set in the parser, the
    /// token's footer must be the same.
    ///
    /// Otherwise it returns the first of these errors: `Ring` with the error of `open`, which is `Token` of
    /// `FooterInvalid` also for another footer than the parser's, and `Untrusted` of `TooLong` also for a token beyond
    /// the parser's limit; `Parser` with the error for the text, as `parse` of the parser returns it. `Memory` may be
    /// returned in place of any result, except for a token that is too long or has a wrong number of sections.
    pub fn parse(
        &self,
        parser: &PasetoParser<'_, V, Local>,
        token: &str,
    ) -> Result<(String, Value), KeyRingParserError>
        ensures { let held = parser.now.parser in
            let assertion = assertion_of (assertion_in V.design.binds_assertion
            held.implicit_assertion) in
            IsParsingAnswerWithin held.longest self.now.limits (keys_of self.now)
            (λ key footer. opening V.design
            (record { key = key; footer = read_under held.footer footer; assertion = assertion }))
            (verdicts_of (λ b. verdict b) (times_at held.moment held.leeway) held.checks) token.now
            result }
    {
        self.parse_by(&parser.parser, token)
    }

    /// The same with a generic parser.
    pub fn parse_by(
        &self,
        parser: &GenericParser<'_, V, Local>,
        token: &str,
    ) -> Result<(String, Value), KeyRingParserError>
        ensures { let held = parser.now in
            let assertion = assertion_of (assertion_in V.design.binds_assertion
            held.implicit_assertion) in
            IsParsingAnswerWithin held.longest self.now.limits (keys_of self.now)
            (λ key footer. opening V.design
            (record { key = key; footer = read_under held.footer footer; assertion = assertion }))
            (verdicts_of (λ b. verdict b) (times_at held.moment held.leeway) held.checks) token.now
            result }
    {
        let assertion = V::bound_assertion(parser.expected_assertion());
        let opened = self.open_bound(token, parser.longest(), parser.expected_footer(), assertion);
        claims_of(parser, opened)
    }

    // The id that the token's footer names, and the text as which the token opens under that id's key and the footer
    // that is expected, its own where none is. In version 1, which has no implicit assertion, none may be given.
    fn open_bound(
        &self,
        token: &str,
        longest: Option<usize>,
        expected: Option<Footer<'_>>,
        implicit_assertion: Option<ImplicitAssertion<'_>>,
    ) -> Result<(String, String), KeyRingError>
        requires { V.design.binds_assertion ≡ false → implicit_assertion ≡ None }
        ensures { let assertion = assertion_of implicit_assertion.entry in
            IsRingAnswerWithin longest self.now.limits (keys_of self.now)
            (λ key footer. opening V.design
            (record {
              key = key;
              footer = read_under expected.entry footer;
              assertion = assertion;
            })) token.now result }
    {
        self.admit(token, longest)?;
        let Found { footer, id, key } = self.find(token)?;
        let bound = expected.unwrap_or(Footer::from(footer.as_str()));
        let opened = V::open(self.alloc, token, key, Some(bound), implicit_assertion);
        answer(id, opened)
    }
}

impl Ring<PasetoSymmetricKey<V1, Local>> {
    /// Decrypts a token with the key that its footer names, without checking claims: returns the id and the text.
    ///
    /// Otherwise it returns the first of these errors: `Untrusted` of `TooLong` for a token beyond the ring's limits,
    /// if it has any, of `IncorrectSize` unless there are three or four sections, and of `PayloadBase64Decode` or
    /// `Utf8Error` for a fourth section that does not encode a text; `NoFooter`; `NotAnObject`; `NoKeyId`; `UnknownKey`
    /// with the id; `Token` with the error of `try_decrypt` with that key and that footer. `Memory` may be returned in
    /// place of any result but the first two.
    pub fn open(&self, token: &str) -> Result<(String, String), KeyRingError>
        ensures { IsRingAnswerWithin None self.now.limits (keys_of self.now)
            (λ key footer. opening v1 (record { key = key; footer = footer; assertion = [] }))
            token.now result }
    {
        self.open_bound(token, None, None, None)
    }
}

impl<V: DefaultAssertionVersion> Ring<PasetoSymmetricKey<V, Local>> {
    /// Decrypts a token with the key that its footer names and with the implicit assertion, without checking claims:
    /// returns the id and the text. An absent assertion and the empty one are the same. The errors are those of version
    /// 1, in the same order.
    pub fn open(
        &self,
        token: &str,
        implicit_assertion: Option<ImplicitAssertion<'_>>,
    ) -> Result<(String, String), KeyRingError>
        ensures { let assertion = assertion_of implicit_assertion.entry in
            IsRingAnswerWithin None self.now.limits (keys_of self.now)
            (λ key footer. opening V.design
            (record { key = key; footer = footer; assertion = assertion })) token.now result }
    {
        self.open_bound(token, None, None, implicit_assertion)
    }
}
