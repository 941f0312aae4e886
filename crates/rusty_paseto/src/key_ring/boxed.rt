//! Rings that open local tokens of version 2 with a box.

ghost use Rattle.std.specs.Prelude.{[], None};
ghost use Rattle.rusty_paseto_core.specs.Local.Boxed.{box_opening};
ghost use Rattle.rusty_paseto_generic.specs.Parsers.Held.{verdicts_of};
ghost use Rattle.rusty_paseto_generic.specs.Parsers.Times.{times_at};
ghost use Rattle.rusty_paseto.specs.Held.{keys_of};
ghost use Rattle.rusty_paseto.specs.KeyRing.{IsParsingAnswerWithin, IsRingAnswerWithin, read_under};

use crate::error::{KeyRingError, KeyRingParserError};
use crate::key_ring::claims::claims_of;
use crate::key_ring::opened::answer;
use crate::key_ring::{Found, Ring};
use crate::paseto_parser::PasetoParser;
use rusty_paseto_core::{Footer, Local, Paseto, PasetoSymmetricKey, SealedBox, V2};
use rusty_paseto_generic::GenericParser;
use serde_json::Value;

impl Ring<PasetoSymmetricKey<V2, Local>> {
    /// Decrypts a token with the caller's box and the key that its footer names, without checking claims: returns the
    /// id and the text. The errors are those of the other versions' `open`, in the same order.
    pub fn open<S: SealedBox>(
        &self,
        sealed_box: &S,
        token: &str,
    ) -> Result<(String, String), KeyRingError>
        ensures { IsRingAnswerWithin None self.now.limits (keys_of self.now)
            (λ key footer. box_opening S.sealing
            (record { key = key; footer = footer; assertion = [] })) token.now result }
    {
        self.open_bound(sealed_box, token, None, None)
    }

    /// Decrypts a token with the caller's box, and returns the id and the claims, which pass the parser's checks, as
    /// the other versions' `parse` does.
    pub fn parse<S: SealedBox>(
        &self,
        sealed_box: &S,
        parser: &PasetoParser<'_, V2, Local>,
        token: &str,
    ) -> Result<(String, Value), KeyRingParserError>
        ensures { let held = parser.now.parser in
            IsParsingAnswerWithin held.longest self.now.limits (keys_of self.now)
            (λ key footer. box_opening S.sealing
            (record { key = key; footer = read_under held.footer footer; assertion = [] }))
            (verdicts_of (λ b. verdict b) (times_at held.moment held.leeway) held.checks) token.now
            result }
    {
        self.parse_by(sealed_box, &parser.parser, token)
    }

    /// The same with a generic parser.
    pub fn parse_by<S: SealedBox>(
        &self,
        sealed_box: &S,
        parser: &GenericParser<'_, V2, Local>,
        token: &str,
    ) -> Result<(String, Value), KeyRingParserError>
        ensures { let held = parser.now in
            IsParsingAnswerWithin held.longest self.now.limits (keys_of self.now)
            (λ key footer. box_opening S.sealing
            (record { key = key; footer = read_under held.footer footer; assertion = [] }))
            (verdicts_of (λ b. verdict b) (times_at held.moment held.leeway) held.checks) token.now
            result }
    {
        let opened = self.open_bound(
            sealed_box,
            token,
            parser.longest(),
            parser.expected_footer(),
        );
        claims_of(parser, opened)
    }

    // As `open`, under the footer that is expected, and the token's own where none is.
    fn open_bound<S: SealedBox>(
        &self,
        sealed_box: &S,
        token: &str,
        longest: Option<usize>,
        expected: Option<Footer<'_>>,
    ) -> Result<(String, String), KeyRingError>
        ensures { IsRingAnswerWithin longest self.now.limits (keys_of self.now)
            (λ key footer. box_opening S.sealing
            (record { key = key; footer = read_under expected.entry footer; assertion = [] }))
            token.now result }
    {
        self.admit(token, longest)?;
        let Found { footer, id, key } = self.find(token)?;
        let bound = expected.unwrap_or(Footer::from(footer.as_str()));
        let opened = Paseto::<V2, Local>::try_decrypt(
            self.alloc,
            sealed_box,
            token,
            key,
            Some(bound),
        );
        answer(id, opened)
    }
}
