//! Rings of public keys that own their bytes.

ghost use Rattle.std.specs.Prelude.{◌≡◌, false, None};
ghost use Rattle.rusty_paseto_core.specs.Context.{assertion_of};
ghost use Rattle.rusty_paseto_core.specs.Public.Verifying.{verification};
ghost use Rattle.rusty_paseto_generic.specs.Parsers.Held.{verdicts_of};
ghost use Rattle.rusty_paseto_generic.specs.Parsers.Times.{times_at};
ghost use Rattle.rusty_paseto_generic.specs.Parsers.Parsing.{assertion_in};
ghost use Rattle.rusty_paseto.specs.Held.{keys_of};
ghost use Rattle.rusty_paseto.specs.KeyRing.{IsParsingAnswerWithin, IsRingAnswerWithin, read_under};

use crate::error::{KeyRingError, KeyRingParserError};
use crate::key_ring::claims::claims_of;
use crate::key_ring::opened::answer;
use crate::key_ring::{Found, Ring};
use crate::paseto_parser::PasetoParser;
use rusty_paseto_core::{Footer, ImplicitAssertion, Public, PublicKey, PublicVersion, Verifies};
use rusty_paseto_generic::GenericParser;
use serde_json::Value;

impl<V: PublicVersion> Ring<PublicKey<V>> {
    /// Verifies a token with the caller's scheme, the key that its footer names and the parser's implicit assertion,
    /// and returns the id and the claims, which pass the parser's checks, as `parse` of a ring of borrowed keys does,
    /// with the same errors in the same order.
    pub fn parse<S>(
        &self,
        scheme: &S,
        parser: &PasetoParser<'_, V, Public>,
        token: &str,
    ) -> Result<(String, Value), KeyRingParserError>
    where
        V: Verifies<S>,
        ensures { let held = parser.now.parser in
            let assertion = assertion_of (assertion_in V.public_design.binds_assertion
            held.implicit_assertion) in
            IsParsingAnswerWithin held.longest self.now.limits (keys_of self.now)
            (λ key footer. verification V.valid V.refused V.public_design
            (record { key = key; footer = read_under held.footer footer; assertion = assertion }))
            (verdicts_of (λ b. verdict b) (times_at held.moment held.leeway) held.checks) token.now
            result }
    {
        self.parse_by(scheme, &parser.parser, token)
    }

    /// The same with a generic parser.
    pub fn parse_by<S>(
        &self,
        scheme: &S,
        parser: &GenericParser<'_, V, Public>,
        token: &str,
    ) -> Result<(String, Value), KeyRingParserError>
    where
        V: Verifies<S>,
        ensures { let held = parser.now in
            let assertion = assertion_of (assertion_in V.public_design.binds_assertion
            held.implicit_assertion) in
            IsParsingAnswerWithin held.longest self.now.limits (keys_of self.now)
            (λ key footer. verification V.valid V.refused V.public_design
            (record { key = key; footer = read_under held.footer footer; assertion = assertion }))
            (verdicts_of (λ b. verdict b) (times_at held.moment held.leeway) held.checks) token.now
            result }
    {
        let assertion = V::signed_assertion(parser.expected_assertion());
        let opened = self.verify_bound(
            scheme,
            token,
            parser.longest(),
            parser.expected_footer(),
            assertion,
        );
        claims_of(parser, opened)
    }

    // The id that the token's footer names, and the text that is validly signed under that id's key and the footer that
    // is expected, its own where none is. In versions 1 and 2, which have no implicit assertion, none may be given.
    fn verify_bound<S>(
        &self,
        scheme: &S,
        token: &str,
        longest: Option<usize>,
        expected: Option<Footer<'_>>,
        implicit_assertion: Option<ImplicitAssertion<'_>>,
    ) -> Result<(String, String), KeyRingError>
    where
        V: Verifies<S>,
        requires { V.public_design.binds_assertion ≡ false → implicit_assertion ≡ None }
        ensures { let assertion = assertion_of implicit_assertion.entry in
            IsRingAnswerWithin longest self.now.limits (keys_of self.now)
            (λ key footer. verification V.valid V.refused V.public_design
            (record {
              key = key;
              footer = read_under expected.entry footer;
              assertion = assertion;
            })) token.now result }
    {
        self.admit(token, longest)?;
        let Found { footer, id, key } = self.find(token)?;
        let bound = expected.unwrap_or(Footer::from(footer.as_str()));
        let verified = V::verify(
            self.alloc,
            scheme,
            token,
            &key.lend(),
            Some(bound),
            implicit_assertion,
        );
        answer(id, verified)
    }
}
