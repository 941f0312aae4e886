//! The claims of what a ring opened.

ghost use Rattle.rusty_paseto_generic.specs.Parsers.Held.{verdicts_of};
ghost use Rattle.rusty_paseto_generic.specs.Parsers.Times.{times_at};
ghost use Rattle.rusty_paseto.specs.KeyRing.{IsClaimsAnswer};

use crate::error::{KeyRingError, KeyRingParserError};
use rusty_paseto_core::{PurposeTrait, VersionTrait};
use rusty_paseto_generic::GenericParser;
use serde_json::Value;

/// The id with the value of the text that a ring decrypted, which passes the parser's checks, or the error.
pub(super) fn claims_of<V: VersionTrait, P: PurposeTrait>(
    parser: &GenericParser<'_, V, P>,
    opened: Result<(String, String), KeyRingError>,
) -> Result<(String, Value), KeyRingParserError>
    ensures { IsClaimsAnswer (verdicts_of (λ b. verdict b)
        (times_at parser.now.moment parser.now.leeway) parser.now.checks) opened result }
{
    let (id, text) = opened?;
    let value = parser.value_of(text.as_str())?;
    Ok((id, value))
}
