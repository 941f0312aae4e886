//! The errors of builders and of parsers.

ghost use Rattle.std.specs.Prelude.{◌≡◌, Some, option_map};
ghost use Rattle.rusty_paseto_generic.specs.Blame.{builder_blame, parser_blame};
ghost use Rattle.rusty_paseto_generic.specs.Error.{cause_of, error_text, of_cipher, of_claim, IsOfJson};
ghost use Rattle.rusty_paseto_generic.specs.Error.Parser.{cause_of as parser_cause_of, error_text as parser_error_text, of_cipher as parser_of_cipher, of_claim as parser_of_claim, IsOfJson as IsParserOfJson};
ghost use Rattle.rusty_paseto_generic.specs.declared.error.GenericBuilderError.TheVariants.{Memory};
ghost use Rattle.rusty_paseto_generic.specs.declared.error.GenericParserError.TheVariants as Parser;

use crate::blame::Blame;
use crate::explained::Explained;
use rusty_paseto_claims::PasetoClaimError;
use rusty_paseto_core::PasetoError;
use std::alloc::AllocError;
use std::fmt;
use thiserror::Error;

/// Why a builder refused a claim, or did not make a token.
#[derive(Debug, Drop, Error)]
pub enum GenericBuilderError {
    /// A claim was refused. The message is the claim's own.
    ClaimError { source: PasetoClaimError },
    /// A text is not an e-mail address. No call of this library returns it.
    BadEmailAddress(String),
    /// A key was set more than once.
    DuplicateTopLevelPayloadClaim(String),
    /// The token was not encrypted or signed, or the generator of random bytes failed.
    CipherError { source: PasetoError },
    /// The claims could not be written as JSON. No call of this library returns it.
    PayloadJsonError { source: serde_json::Error },
    /// An allocation failed.
    Memory(AllocError),
}

impl GenericBuilderError {
    /// Why the token was not encrypted or signed, if it was not. The error's own text does not say it.
    pub fn cause(&self) -> Option<&PasetoError>
        ensures { option_map (λ cause. cause.now) result ≡ cause_of self.now }
    {
        match self {
            GenericBuilderError::CipherError { source } => Some(source),
            _ => None,
        }
    }

    /// Which side caused the error: `Memory` if an allocation failed, and else `Unfit`. An error of a builder is never
    /// `Foreign` or `Untimely`.
    pub fn blame(&self) -> Blame
        ensures { result ≡ builder_blame self.now }
    {
        match self {
            GenericBuilderError::Memory(_) => Blame::Memory,
            _ => Blame::Unfit,
        }
    }

    /// What shows the error with its cause, in one line.
    pub fn explained(&self) -> Explained<'_, GenericBuilderError>
        ensures error { result.error.now ≡ self.now }
        ensures cause { option_map (λ cause. cause.now) result.cause ≡ cause_of self.now }
    {
        Explained::new(self, self.cause())
    }
}

impl fmt::Display for GenericBuilderError {
    ghost output = { λ error. Some (error_text error) };

    fn fmt<W: fmt::Write>(&self, f: &mut fmt::Formatter<W>) -> fmt::Result {
        match self {
            GenericBuilderError::ClaimError { source } => write!(f, "{source}"),
            GenericBuilderError::BadEmailAddress(text) => write!(
                f,
                "{text} is an invalid iso8601 (email) string"
            ),
            GenericBuilderError::DuplicateTopLevelPayloadClaim(key) => {
                write!(
                    f,
                    "The claim '{key}' appears more than once in the top level payload json"
                )
            }
            GenericBuilderError::CipherError { .. } => f.write_str(
                "A paseto cipher error occurred",
            ),
            GenericBuilderError::PayloadJsonError { .. } => {
                f.write_str("The payload was unable to be serialized into json")
            }
            GenericBuilderError::Memory(_) => f.write_str("No memory was found"),
        }
    }
}

impl From<AllocError> for GenericBuilderError {
    ghost from_gives = { λ source error. error ≡ Memory source };

    fn from(source: AllocError) -> GenericBuilderError {
        GenericBuilderError::Memory(source)
    }
}

/// A failed allocation stays one.
impl From<PasetoClaimError> for GenericBuilderError {
    ghost from_gives = { λ source error. error ≡ of_claim source };

    fn from(source: PasetoClaimError) -> GenericBuilderError {
        match source {
            PasetoClaimError::Memory(refused) => GenericBuilderError::Memory(refused),
            fault => GenericBuilderError::ClaimError { source: fault },
        }
    }
}

/// A failed allocation stays one.
impl From<PasetoError> for GenericBuilderError {
    ghost from_gives = { λ source error. error ≡ of_cipher source };

    fn from(source: PasetoError) -> GenericBuilderError {
        match source {
            PasetoError::Memory(refused) => GenericBuilderError::Memory(refused),
            refusal => GenericBuilderError::CipherError { source: refusal },
        }
    }
}

/// A failed allocation stays one.
impl From<serde_json::Error> for GenericBuilderError {
    ghost from_gives = { IsOfJson };

    fn from(source: serde_json::Error) -> GenericBuilderError {
        if source.is_memory() {
            return GenericBuilderError::Memory(AllocError);
        }
        GenericBuilderError::PayloadJsonError { source }
    }
}

/// Why a parser refused a check, or did not accept a token.
#[derive(Debug, Drop, Error)]
pub enum GenericParserError {
    /// A claim was refused, or did not pass a check. The message is the claim's own.
    ClaimError { source: PasetoClaimError },
    /// The token was not opened or verified.
    CipherError { source: PasetoError },
    /// The payload could not be read as JSON.
    PayloadJsonError { source: serde_json::Error },
    /// An allocation failed.
    Memory(AllocError),
}

impl GenericParserError {
    /// Why the token was not decrypted or verified, if it was not. The error's own text does not say it.
    ///
    /// ```rust
    /// use rusty_paseto_generic::{GenericParserError, PasetoError};
    ///
    /// /// Whether the token has another footer than the parser, so that another parser may take it.
    /// pub fn has_another_footer(error: &GenericParserError) -> bool {
    ///     matches!(error.cause(), Some(PasetoError::FooterInvalid))
    /// }
    /// ```
    pub fn cause(&self) -> Option<&PasetoError>
        ensures { option_map (λ cause. cause.now) result ≡ parser_cause_of self.now }
    {
        match self {
            GenericParserError::CipherError { source } => Some(source),
            _ => None,
        }
    }

    /// Which side caused the error: `Foreign` if the token was not decrypted or verified, `Untimely` if it has expired
    /// or may not be used yet, `Unfit` if its text is not JSON or a claim does not pass another check, and `Memory` if
    /// an allocation failed.
    pub fn blame(&self) -> Blame
        ensures { result ≡ parser_blame self.now }
    {
        match self {
            GenericParserError::ClaimError { source } => Blame::from(source),
            GenericParserError::CipherError { source } => Blame::from(source),
            GenericParserError::PayloadJsonError { .. } => Blame::Unfit,
            GenericParserError::Memory(_) => Blame::Memory,
        }
    }

    /// What shows the error with its cause, in one line: `A paseto cipher error occurred: The provided
    /// footer is invalid`.
    pub fn explained(&self) -> Explained<'_, GenericParserError>
        ensures error { result.error.now ≡ self.now }
        ensures cause { option_map (λ cause. cause.now) result.cause ≡ parser_cause_of self.now }
    {
        Explained::new(self, self.cause())
    }
}

impl fmt::Display for GenericParserError {
    ghost output = { λ error. Some (parser_error_text error) };

    fn fmt<W: fmt::Write>(&self, f: &mut fmt::Formatter<W>) -> fmt::Result {
        match self {
            GenericParserError::ClaimError { source } => write!(f, "{source}"),
            GenericParserError::CipherError { .. } => f.write_str("A paseto cipher error occurred"),
            GenericParserError::PayloadJsonError { .. } => {
                f.write_str("The payload was unable to be serialized into json")
            }
            GenericParserError::Memory(_) => f.write_str("No memory was found"),
        }
    }
}

impl From<AllocError> for GenericParserError {
    ghost from_gives = { λ source error. error ≡ Parser.Memory source };

    fn from(source: AllocError) -> GenericParserError {
        GenericParserError::Memory(source)
    }
}

/// A failed allocation stays one.
impl From<PasetoClaimError> for GenericParserError {
    ghost from_gives = { λ source error. error ≡ parser_of_claim source };

    fn from(source: PasetoClaimError) -> GenericParserError {
        match source {
            PasetoClaimError::Memory(refused) => GenericParserError::Memory(refused),
            fault => GenericParserError::ClaimError { source: fault },
        }
    }
}

/// A failed allocation stays one.
impl From<PasetoError> for GenericParserError {
    ghost from_gives = { λ source error. error ≡ parser_of_cipher source };

    fn from(source: PasetoError) -> GenericParserError {
        match source {
            PasetoError::Memory(refused) => GenericParserError::Memory(refused),
            refusal => GenericParserError::CipherError { source: refusal },
        }
    }
}

/// A failed allocation stays one.
impl From<serde_json::Error> for GenericParserError {
    ghost from_gives = { IsParserOfJson };

    fn from(source: serde_json::Error) -> GenericParserError {
        if source.is_memory() {
            return GenericParserError::Memory(AllocError);
        }
        GenericParserError::PayloadJsonError { source }
    }
}
