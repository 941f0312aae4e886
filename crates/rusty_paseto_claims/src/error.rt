//! The error of claims and of their checks.

ghost use Rattle.std.specs.Prelude.{◌≡◌, Some};
ghost use Rattle.rusty_paseto_claims.specs.Error.{error_text};
ghost use Rattle.rusty_paseto_claims.specs.declared.error.PasetoClaimError.TheVariants.{Memory};

use std::alloc::AllocError;
use std::fmt;
use thiserror::Error;

/// Why a claim was refused, or why the claims of a token did not pass a check.
#[derive(Debug, Drop, Error)]
pub enum PasetoClaimError {
    /// The token has expired.
    Expired,
    /// The token may not be used yet: this is the text of its `nbf`.
    UseBeforeAvailable(String),
    /// The text is not a date and time.
    RFC3339Date(String),
    /// A value was expected under this key, and the payload has none, or null.
    Missing(String),
    /// The value under this key is not of an expected type.
    Unexpected(String),
    /// A validator refused the value under this key.
    CustomValidation(String),
    /// Key, actual text and expected text. The message names the two texts the other way round.
    Invalid(String, String, String),
    /// The key is one of the seven that the standard reserves.
    Reserved(String),
    /// The key was set more than once.
    DuplicateTopLevelPayloadClaim(String),
    /// An allocation failed.
    Memory(AllocError),
}

/// One line, without a line end, if the texts in the error have only one line.
impl fmt::Display for PasetoClaimError {
    ghost output = { λ error. Some (error_text error) };

    fn fmt<W: fmt::Write>(&self, f: &mut fmt::Formatter<W>) -> fmt::Result {
        match self {
            PasetoClaimError::Expired => f.write_str("This token is expired"),
            PasetoClaimError::UseBeforeAvailable(date) => write!(
                f,
                "The token cannot be used before {date}"
            ),
            PasetoClaimError::RFC3339Date(text) => write!(
                f,
                "The value {text} is a malformed RFC3339 date"
            ),
            PasetoClaimError::Missing(key) => write!(
                f,
                "The expected claim '{key}' was not found in the payload"
            ),
            PasetoClaimError::Unexpected(key) => write!(
                f,
                "Could not convert claim '{key}' to the expected data type"
            ),
            PasetoClaimError::CustomValidation(key) => write!(
                f,
                "The claim '{key}' failed custom validation"
            ),
            PasetoClaimError::Invalid(key, found, wanted) => {
                write!(
                    f,
                    "The claim '{key}' failed validation.  Expected '{found}' but received '{wanted}'"
                )
            }
            PasetoClaimError::Reserved(key) => write!(
                f,
                "The key {key} is a reserved for use within PASETO.  To set a reserved claim, use the strong type: e.g - ExpirationClaimClaim"
            ),
            PasetoClaimError::DuplicateTopLevelPayloadClaim(key) => {
                write!(
                    f,
                    "The claim '{key}' appears more than once in the top level payload json"
                )
            }
            PasetoClaimError::Memory(_) => f.write_str("No memory was found"),
        }
    }
}

impl From<AllocError> for PasetoClaimError {
    ghost from_gives = { λ source error. error ≡ Memory source };

    fn from(source: AllocError) -> PasetoClaimError {
        PasetoClaimError::Memory(source)
    }
}
