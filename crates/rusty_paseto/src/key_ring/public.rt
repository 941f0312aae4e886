//! Rings of public keys, which verify public tokens with a scheme.

ghost use Rattle.std.specs.Prelude.{◌≡◌, [], false, None};
ghost use Rattle.rusty_paseto_core.specs.Context.{assertion_of};
ghost use Rattle.rusty_paseto_core.specs.Public.{v1_public, v2_public};
ghost use Rattle.rusty_paseto_core.specs.Public.Verifying.{verification};
ghost use Rattle.rusty_paseto_generic.specs.Parsers.Held.{verdicts_of};
ghost use Rattle.rusty_paseto_generic.specs.Parsers.Times.{times_at};
ghost use Rattle.rusty_paseto_generic.specs.Parsers.Parsing.{assertion_in};
ghost use Rattle.rusty_paseto.specs.Held.{keys_of};
ghost use Rattle.rusty_paseto.specs.KeyRing.{IsParsingAnswerWithin, IsRingAnswerWithin, read_under};

use crate::error::{KeyRingError, KeyRingParserError};
use crate::key_ring::claims::claims_of;
use crate::key_ring::opened::answer;
use crate::key_ring::{Found, Ring};
use crate::paseto_parser::PasetoParser;
use crate::version::DefaultAssertionVersion;
use rusty_paseto_core::{
    Footer, ImplicitAssertion, PasetoAsymmetricPublicKey, Public, PublicVersion, SignatureScheme,
    V1, V2, Verifies,
};
use rusty_paseto_generic::GenericParser;
use serde_json::Value;

impl<V: PublicVersion> Ring<PasetoAsymmetricPublicKey<'_, V, Public>> {
    /// Verifies a token with the caller's scheme, the key that its footer names and the parser's implicit assertion,
    /// and returns the id and the claims, which pass the parser's checks, as `parse` of a ring of local keys does. The
    /// errors are those of `verify` and then those for the text, in the same order.
    pub fn parse<S>(
        &self,
        scheme: &S,
        parser: &PasetoParser<'_, V, Public>,
        token: &str,
    ) -> Result<(String, Value), KeyRingParserError>
    where
        V: Verifies<S>,
        ensures { let held = parser.now.parser in
            let assertion = assertion_of (assertion_in V.public_design.binds_assertion
            held.implicit_assertion) in
            IsParsingAnswerWithin held.longest self.now.limits (keys_of self.now)
            (λ key footer. verification V.valid V.refused V.public_design
            (record { key = key; footer = read_under held.footer footer; assertion = assertion }))
            (verdicts_of (λ b. verdict b) (times_at held.moment held.leeway) held.checks) token.now
            result }
    {
        self.parse_by(scheme, &parser.parser, token)
    }

    /// The same with a generic parser.
    pub fn parse_by<S>(
        &self,
        scheme: &S,
        parser: &GenericParser<'_, V, Public>,
        token: &str,
    ) -> Result<(String, Value), KeyRingParserError>
    where
        V: Verifies<S>,
        ensures { let held = parser.now in
            let assertion = assertion_of (assertion_in V.public_design.binds_assertion
            held.implicit_assertion) in
            IsParsingAnswerWithin held.longest self.now.limits (keys_of self.now)
            (λ key footer. verification V.valid V.refused V.public_design
            (record { key = key; footer = read_under held.footer footer; assertion = assertion }))
            (verdicts_of (λ b. verdict b) (times_at held.moment held.leeway) held.checks) token.now
            result }
    {
        let assertion = V::signed_assertion(parser.expected_assertion());
        let opened = self.verify_bound(
            scheme,
            token,
            parser.longest(),
            parser.expected_footer(),
            assertion,
        );
        claims_of(parser, opened)
    }

    // The id that the token's footer names, and the text that is validly signed under that id's key and the footer that
    // is expected, its own where none is. In versions 1 and 2, which have no implicit assertion, none may be given.
    fn verify_bound<S>(
        &self,
        scheme: &S,
        token: &str,
        longest: Option<usize>,
        expected: Option<Footer<'_>>,
        implicit_assertion: Option<ImplicitAssertion<'_>>,
    ) -> Result<(String, String), KeyRingError>
    where
        V: Verifies<S>,
        requires { V.public_design.binds_assertion ≡ false → implicit_assertion ≡ None }
        ensures { let assertion = assertion_of implicit_assertion.entry in
            IsRingAnswerWithin longest self.now.limits (keys_of self.now)
            (λ key footer. verification V.valid V.refused V.public_design
            (record {
              key = key;
              footer = read_under expected.entry footer;
              assertion = assertion;
            })) token.now result }
    {
        self.admit(token, longest)?;
        let Found { footer, id, key } = self.find(token)?;
        let bound = expected.unwrap_or(Footer::from(footer.as_str()));
        let verified = V::verify(
            self.alloc,
            scheme,
            token,
            key,
            Some(bound),
            implicit_assertion,
        );
        answer(id, verified)
    }
}

impl Ring<PasetoAsymmetricPublicKey<'_, V1, Public>> {
    /// Verifies a token with the caller's scheme under the key that its footer names, and checks no claim: the id, and
    /// the text that was signed.
    ///
    /// Otherwise it returns the first of these errors: `Untrusted` of `TooLong` for a token beyond the ring's limits,
    /// if it has any, of `IncorrectSize` unless there are three or four sections, and of `PayloadBase64Decode` or
    /// `Utf8Error` for a fourth section that does not encode a text; `NoFooter`; `NotAnObject`; `NoKeyId`; `UnknownKey`
    /// with the id; `Token` with the error of `try_verify` with that key and that footer. `Memory` may be returned in
    /// place of any result but the first two.
    pub fn verify<S: SignatureScheme<256>>(
        &self,
        scheme: &S,
        token: &str,
    ) -> Result<(String, String), KeyRingError>
        ensures { IsRingAnswerWithin None self.now.limits (keys_of self.now)
            (λ key footer. verification S.valid S.refused v1_public
            (record { key = key; footer = footer; assertion = [] })) token.now result }
    {
        self.verify_bound(scheme, token, None, None, None)
    }
}

impl Ring<PasetoAsymmetricPublicKey<'_, V2, Public>> {
    /// Verifies a token with the caller's scheme and the key that its footer names, without checking claims: returns
    /// the id and the text. The errors are those of version 1, in the same order.
    pub fn verify<S: SignatureScheme<64>>(
        &self,
        scheme: &S,
        token: &str,
    ) -> Result<(String, String), KeyRingError>
        ensures { IsRingAnswerWithin None self.now.limits (keys_of self.now)
            (λ key footer. verification S.valid S.refused v2_public
            (record { key = key; footer = footer; assertion = [] })) token.now result }
    {
        self.verify_bound(scheme, token, None, None, None)
    }
}

impl<V: DefaultAssertionVersion> Ring<PasetoAsymmetricPublicKey<'_, V, Public>> {
    /// Verifies a token with the caller's scheme, the key that its footer names and the implicit assertion, without
    /// checking claims: returns the id and the text. An absent assertion and the empty one are the same. The errors are
    /// those of version 1, in the same order.
    pub fn verify<S>(
        &self,
        scheme: &S,
        token: &str,
        implicit_assertion: Option<ImplicitAssertion<'_>>,
    ) -> Result<(String, String), KeyRingError>
    where
        V: Verifies<S>,
        ensures { let assertion = assertion_of implicit_assertion.entry in
            IsRingAnswerWithin None self.now.limits (keys_of self.now)
            (λ key footer. verification V.valid V.refused V.public_design
            (record { key = key; footer = footer; assertion = assertion })) token.now result }
    {
        self.verify_bound(scheme, token, None, None, implicit_assertion)
    }
}
