//! The claims of tokens.

ghost use Rattle.std.specs.Prelude.{◌≡◌, IfOk, OnOk, is_some, string_bytes, true};
ghost use Rattle.rusty_paseto_core.specs.Context.{assertion_of, footer_of};
ghost use Rattle.rusty_paseto_generic.specs.Builders.Claims.{IsReadBack, payload};
ghost use Rattle.rusty_paseto_generic.specs.Builders.Held.{held};
ghost use Rattle.rusty_paseto_generic.specs.Parsers.Held.{verdicts_of};
ghost use Rattle.rusty_paseto_generic.specs.Parsers.Times.{times_at};
ghost use Rattle.paseto_keys.specs.AnyKey.{reads_tokens, writes_tokens};
ghost use Rattle.paseto_keys.specs.Claims.{Admits};
ghost use Rattle.paseto_keys.specs.Tokens.{IsUse, Writes};
ghost use Rattle.paseto_keys.specs.declared.error.AdmitError.TheVariants.{Key};

use crate::claims_builder::ClaimsBuilder;
use crate::error::{AdmitError, KeyError};
use crate::token_key::check_use;
use crate::token_reader::{TokenReader, reads_tokens};
use crate::token_writer::{TokenWriter, check_length, writes_tokens};
use rusty_paseto_core::{Footer, ImplicitAssertion, Local, PasetoError, V4};
use rusty_paseto_generic::{GenericParser, GenericParserError};
use rusty_paseto_parts::is_longer;
use serde_json::Value;
use std::alloc::Global;

/// What checks the claims of tokens of any version and purpose: of the type parameters `admit` uses nothing.
pub type ClaimsParser<'a> = GenericParser<'a, V4, Local>;

/// The claims of a token that the reader reads with the parser's footer and implicit assertion, and that pass the
/// parser's checks.
///
/// The errors, of which the first is returned: `Key(OtherType)` for a private key, which reads no tokens;
/// `Key(NoAssertion)` if the parser has an implicit assertion and the key's version has none; `Parser` of `CipherError`
/// of `TooLong` for a token that is longer than the parser's limit; and, as `Parser` or `Memory`, the errors of `parse`
/// of a `GenericParser`, in the same order.
pub fn admit<R: TokenReader>(
    alloc: Global,
    reader: &R,
    parser: &ClaimsParser<'_>,
    token: &str,
) -> Result<Value, AdmitError>
    ensures { IsUse Key (reads_tokens (R.type_of reader.now) ≡ true) (R.type_of reader.now)
        (R.binds reader.now) (is_some parser.now.implicit_assertion)
        (Admits parser.now.longest
        (R.reading reader.now (footer_of parser.now.footer)
        (assertion_of parser.now.implicit_assertion))
        (verdicts_of (λ b. verdict b) (times_at parser.now.moment parser.now.leeway)
        parser.now.checks) token.now) result }
{
    let (footer, assertion) = (parser.expected_footer(), parser.expected_assertion());
    check_use(reader, reads_tokens(reader.key_type()), assertion)?;
    if is_longer(token, parser.longest()) {
        return Err(AdmitError::Parser(GenericParserError::CipherError {
            source: PasetoError::TooLong,
        }));
    }
    let text = reader.read(alloc, token, footer, assertion)?;
    Ok(parser.value_of(text.as_str())?)
}

/// A token of the claims of a builder, with random bytes that were drawn for it: `draws` says how many, and `draw` draws
/// them.
///
/// The errors, of which the first is returned: `OtherType` for a public key, which writes no tokens; `NoAssertion` if an
/// implicit assertion is given and the key's version has none; `OtherLength` if another number of bytes was drawn; and,
/// as `Refused` or `Memory`, those of `try_encrypt` or `try_sign` of `Paseto`.
pub fn issue<W: TokenWriter>(
    alloc: Global,
    writer: &W,
    drawn: &[u8],
    claims: &ClaimsBuilder,
    footer: Option<Footer<'_>>,
    assertion: Option<ImplicitAssertion<'_>>,
) -> Result<String, KeyError>
    ensures answer { IsUse (λ error. error) (writes_tokens (W.type_of writer.now) ≡ true)
        (W.type_of writer.now) (W.binds writer.now) (is_some assertion.entry)
        (Writes (W.draws writer.now) drawn.now
        (W.writing writer.now drawn.now (footer_of footer.entry) (assertion_of assertion.entry))
        (is_some footer.entry) (payload (held claims.now.builder.claims))) result }
    ensures read_back { OnOk result (IsReadBack (held claims.now.builder.claims)) }
{
    check_use(writer, writes_tokens(writer.key_type()), assertion)?;
    check_length(drawn, writer.draws())?;
    let text = claims.build_payload_from_claims()?;
    writer.write(alloc, drawn, text.as_str(), footer, assertion)
}
