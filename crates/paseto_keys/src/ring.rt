//! Rings of keys of any version and type: a token's footer names the key.

ghost use Rattle.std.specs.Prelude.{◌≡◌, ◌⊎◌, ℕ, Err, IfErr, IfOk, IfSome, IsTrue, List, MatchOption, MatchResult, None, Ok, Some, false, is_some, string_bytes, true};
ghost use Rattle.rusty_paseto_core.specs.Context.{assertion_of};
ghost use Rattle.rusty_paseto_parts.specs.Section.{HasCount, sections};
ghost use Rattle.rusty_paseto_parts.specs.declared.error.PasetoError.TheVariants.{IncorrectSize, WrongHeader};
ghost use Rattle.rusty_paseto_generic.specs.Parsers.Held.{verdicts_of};
ghost use Rattle.rusty_paseto_generic.specs.Parsers.Times.{times_at};
ghost use Rattle.rusty_paseto.specs.KeyRing.{IsClaimsAnswer, IsFindingFault, IsFound, IsMemory, IsOpenedUnder, IsRingAnswer, Keys};
ghost use Rattle.rusty_paseto.specs.declared.error.KeyRingError.TheVariants.{Untrusted};
ghost use Rattle.rusty_paseto_paserk.specs.Error.{IsMemory as IsNoIdMemory};
ghost use Rattle.paseto_keys.specs.AnyKey.{parts_of, takes_assertion};
ghost use Rattle.paseto_keys.specs.Ring.{IsAdmittedByRing, IsKeyFor, bytes_for, kind_in, readings_in, ring_kind, ring_of, type_in, version_in, wanted_of, with_own};

use crate::any_key::AnyKey;
use crate::claims::ClaimsParser;
use crate::reading::read_token;
use crate::ring_error::RingError;
use crate::token_key::takes_assertion;
use paseto_rsa::is_public_key;
use rusty_paseto::{KeyRingError, KeyRingParserError, footer_of, key_id};
use rusty_paseto_core::{Footer, ImplicitAssertion, PasetoError, UntrustedToken};
use rusty_paseto_parts::is_longer;
use rusty_paseto_paserk::{PaserkError, PaserkType, PaserkVersion};
use serde_json::Value;
use std::alloc::{AllocError, Global};

// What was found of a token in a ring.
#[derive(Drop)]
struct Found<'k> {
    // The footer as it stands in the token.
    footer: String,
    // The id that the footer names, and its key.
    id: String,
    key: &'k AnyKey,
}

/// The claims of a token that the key reads which its footer names, and that pass the parser's checks, with the key's
/// id. The footer is a JSON object with the id under `kid`, as `key_footer` of `rusty_paseto` makes it, and the keys are
/// those of the token's version and purpose: any number of other keys may stand beside them. If a footer was set in the
/// parser, the token's footer must be the same.
///
/// The errors, of which the first is returned: `Ring` of `Untrusted` of `IncorrectSize` unless there are three or four
/// sections, and of `WrongHeader` for a token of no kind;
/// `NoAssertion` if the parser has an implicit assertion and the token's version has none; `Ring` of
/// `Untrusted` of `TooLong` for a token that is longer than the parser's limit, and of `PayloadBase64Decode` or
/// `Utf8Error` for a fourth section that does not encode a text; `Ring` of `NoFooter`, of `NotAnObject`, of `NoKeyId`,
/// and of `UnknownKey` with the id; `Ring` of `Token` with the error of `try_decrypt` or `try_verify` of `Paseto`; and
/// `Parser` with the error for the text, as `parse` of a `GenericParser` returns it. `Memory` may be returned in place of
/// any result from `TooLong` on, but not of that.
///
/// The footer is untrusted until the token is read. It picks one key, and no other key is tried.
pub fn admit_by_ring(
    alloc: Global,
    keys: &[AnyKey],
    parser: &ClaimsParser<'_>,
    token: &str,
) -> Result<(String, Value), RingError>
    ensures { IsAdmittedByRing keys.now
        (wanted_of parser.now.longest parser.now.footer parser.now.implicit_assertion
        (verdicts_of (λ b. verdict b) (times_at parser.now.moment parser.now.leeway)
        parser.now.checks)) token.now result }
{
    let (kind, version) = match kind_of(token) {
        Ok(found) => found,
        Err(source) => return Err(RingError::Ring(KeyRingError::Untrusted(source))),
    };
    let (footer, assertion) = (parser.expected_footer(), parser.expected_assertion());
    if assertion.is_some() && !takes_assertion(version) {
        return Err(RingError::NoAssertion);
    }
    if is_longer(token, parser.longest()) {
        return Err(RingError::Ring(KeyRingError::Untrusted(PasetoError::TooLong)));
    }
    let text = opened(alloc, keys, kind, version, token, footer, assertion);
    Ok(claims_of(parser, text)?)
}

// The type and the version of the keys for a token.
fn kind_of(token: &str) -> Result<(PaserkType, PaserkVersion), PasetoError>
    ensures ok { IfOk result (λ kind. HasCount (sections token.now)
        × (kind_in (sections token.now) ≡ Some kind)) }
    ensures count { ¬ HasCount (sections token.now) → result ≡ Err IncorrectSize }
    ensures header { HasCount (sections token.now)
        → IfErr result (λ error. (error ≡ WrongHeader) × (kind_in (sections token.now) ≡ None)) }
{
    let untrusted = UntrustedToken::try_parse(token)?;
    match ring_kind(
        version_of(untrusted.version()),
        type_of(untrusted.purpose()),
    ) {
        Some(kind) => Ok(kind),
        None => Err(PasetoError::WrongHeader),
    }
}

// The version that a token's first section names.
fn version_of(text: &str) -> Option<PaserkVersion>
    ensures { result ≡ version_in text.now }
{
    match text {
        "v1" => Some(PaserkVersion::V1),
        "v2" => Some(PaserkVersion::V2),
        "v3" => Some(PaserkVersion::V3),
        "v4" => Some(PaserkVersion::V4),
        _ => None,
    }
}

// The type of the keys that read tokens of the purpose that the second section names.
fn type_of(text: &str) -> Option<PaserkType>
    ensures { result ≡ type_in text.now }
{
    match text {
        "local" => Some(PaserkType::Local),
        "public" => Some(PaserkType::Public),
        _ => None,
    }
}

// Both, where there are both.
fn ring_kind(
    version: Option<PaserkVersion>,
    kind: Option<PaserkType>,
) -> Option<(PaserkType, PaserkVersion)>
    ensures { result ≡ ring_kind version kind }
{
    match (version, kind) {
        (Some(version), Some(kind)) => Some((kind, version)),
        _ => None,
    }
}

// The id that the token's footer names, and the text that the id's key reads under the footer that is expected, the
// token's own where none is.
fn opened(
    alloc: Global,
    keys: &[AnyKey],
    kind: PaserkType,
    version: PaserkVersion,
    token: &str,
    expected: Option<Footer<'_>>,
    assertion: Option<ImplicitAssertion<'_>>,
) -> Result<(String, String), KeyRingError>
    requires { takes_assertion version ≡ false → assertion ≡ None }
    ensures { IsRingAnswer (ring_of kind version keys.now)
        (readings_in kind version expected.entry assertion.entry) token.now result }
{
    let Found { footer, id, key } = find(alloc, keys, kind, version, token)?;
    let bound = expected.unwrap_or(Footer::from(footer.as_str()));
    answer(id, read_token(alloc, key, token, Some(bound), assertion))
}

// The id with the text that its key read, or why it did not.
fn answer(id: String, opened: Result<String, PasetoError>) -> Result<(String, String), KeyRingError>
    ensures { IsOpenedUnder id opened result }
{
    match opened {
        Ok(text) => Ok((id, text)),
        Err(PasetoError::Memory(refused)) => Err(KeyRingError::Memory(refused)),
        Err(source) => Err(KeyRingError::Token(source)),
    }
}

// The id with the value of the text, which passes the parser's checks, or the error.
fn claims_of(
    parser: &ClaimsParser<'_>,
    opened: Result<(String, String), KeyRingError>,
) -> Result<(String, Value), KeyRingParserError>
    ensures { IsClaimsAnswer (verdicts_of (λ b. verdict b)
        (times_at parser.now.moment parser.now.leeway) parser.now.checks) opened result }
{
    let (id, text) = opened?;
    let value = parser.value_of(text.as_str())?;
    Ok((id, value))
}

// The footer of a token, the id that it names, and the id's key: before any of it can be trusted.
fn find<'k>(
    alloc: Global,
    keys: &'k [AnyKey],
    kind: PaserkType,
    version: PaserkVersion,
    token: &str,
) -> Result<Found<'k>, KeyRingError>
    ensures ok { IfOk result (λ found. IsFound (ring_of kind version keys.now) token.now
        (string_bytes found.footer) (string_bytes found.id) (parts_of found.key.now).bytes) }
    ensures of { IfOk result (λ found. IsKeyFor kind version found.key.now) }
    ensures complete { (footer id key : List ℕ)
        → IsFound (ring_of kind version keys.now) token.now footer id key
        → MatchResult result (λ found. (string_bytes found.footer ≡ footer)
        × (string_bytes found.id ≡ id) × ((parts_of found.key.now).bytes ≡ key)) IsMemory }
    ensures count { ¬ HasCount (sections token.now) → result ≡ Err (Untrusted IncorrectSize) }
    ensures err { IfErr result (λ error. IsMemory error
        ⊎ IsFindingFault (ring_of kind version keys.now) token.now error) }
{
    let footer = footer_of(alloc, token)?;
    let id = key_id(alloc, footer.as_str())?;
    match key_of(alloc, keys, kind, version, id.as_str())? {
        Some(key) => Ok(Found { footer, id, key }),
        None => Err(KeyRingError::UnknownKey(id)),
    }
}

// The first key of a type and a version that has this id.
fn key_of<'k>(
    alloc: Global,
    keys: &'k [AnyKey],
    kind: PaserkType,
    version: PaserkVersion,
    id: &str,
) -> Result<Option<&'k AnyKey>, AllocError>
    ensures found { IfOk result (λ found. MatchOption found
        (ring_of kind version keys.now id.now ≡ None)
        (λ key. ring_of kind version keys.now id.now ≡ Some (parts_of key.now).bytes)) }
    ensures of { IfOk result (λ found. IfSome found (λ key. IsKeyFor kind version key.now)) }
{
    'keys: for key in keys {
        if is_named(alloc, key, kind, version, id)? {
            return Ok(Some(key));
        }
    }
    Ok(None)
}

// Whether a key is of a type and a version, and has this id.
fn is_named(
    alloc: Global,
    key: &AnyKey,
    kind: PaserkType,
    version: PaserkVersion,
    id: &str,
) -> Result<bool, AllocError>
    ensures named { IfOk result (λ named. named ≡ true → IsKeyFor kind version key.now
        × ((keys : Keys (List ℕ)) → with_own kind version (bytes_for kind version key.now) keys id.now
        ≡ Some (parts_of key.now).bytes)) }
    ensures other { IfOk result (λ named. named ≡ false → (keys : Keys (List ℕ))
        → with_own kind version (bytes_for kind version key.now) keys id.now ≡ keys id.now) }
{
    if !is_for(kind, version, key) {
        return Ok(false);
    }
    match key.id(alloc) {
        Ok(own) => Ok(own.as_str() == id),
        Err(error) => Err(memory_of(error)),
    }
}

// The refusal of memory in an error that can be no other.
fn memory_of(error: PaserkError) -> AllocError
    requires { IsNoIdMemory error }
{
    match error {
        PaserkError::Memory(refused) => refused,
        PaserkError::NoKey
        | PaserkError::OtherVersion(_)
        | PaserkError::OtherType(_)
        | PaserkError::InvalidKey => unreachable!(),
    }
}

// Whether a key reads tokens of a type and a version, and has an id.
fn is_for(kind: PaserkType, version: PaserkVersion, key: &AnyKey) -> bool
    ensures taken { IsTrue result → IsKeyFor kind version key.now }
    ensures passed { result ≡ false → bytes_for kind version key.now ≡ None }
{
    match (kind, version, key) {
        (PaserkType::Local, PaserkVersion::V1, AnyKey::V1Local(_)) => true,
        (PaserkType::Local, PaserkVersion::V2, AnyKey::V2Local(_)) => true,
        (PaserkType::Local, PaserkVersion::V3, AnyKey::V3Local(_)) => true,
        (PaserkType::Local, PaserkVersion::V4, AnyKey::V4Local(_)) => true,
        (PaserkType::Public, PaserkVersion::V1, AnyKey::V1Public(key)) => {
            is_public_key(key.lend().as_bytes())
        }
        (PaserkType::Public, PaserkVersion::V2, AnyKey::V2Public(_)) => true,
        (PaserkType::Public, PaserkVersion::V3, AnyKey::V3Public(_)) => true,
        (PaserkType::Public, PaserkVersion::V4, AnyKey::V4Public(_)) => true,
        _ => false,
    }
}
