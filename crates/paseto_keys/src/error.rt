//! Why a key did not read or write a token, and why claims were not admitted.

ghost use Rattle.std.specs.Prelude.{◌≡◌, Some};
ghost use Rattle.paseto_keys.specs.Error.{admit_error_in, admit_error_of, error_text, key_error_of, type_text};
ghost use Rattle.paseto_keys.specs.declared.error.KeyError.TheVariants.{Memory};

use rusty_paseto_core::PasetoError;
use rusty_paseto_generic::GenericParserError;
use rusty_paseto_paserk::{PaserkType, PaserkVersion};
use std::alloc::AllocError;
use std::fmt;
use thiserror::Error;

/// Why a key did not read or write a token.
#[derive(Debug, Drop, Error)]
pub enum KeyError {
    /// The key is of this type, and another type is needed: `encrypt` and `decrypt` take keys for local tokens, `sign`
    /// private keys, and `verify` public keys.
    OtherType(PaserkType),
    /// An implicit assertion was given, and the key's version, 1 or 2, has none.
    NoAssertion,
    /// Private keys of this version, 1, are not generated.
    OtherVersion(PaserkVersion),
    /// Another number of random bytes was given for a token than this one, which the key takes.
    OtherLength(usize),
    /// The token or the text was refused: the error of `try_decrypt`, `try_verify`, `try_encrypt` or `try_sign` of
    /// `Paseto`.
    Refused(PasetoError),
    /// The generator of random bytes failed.
    Random,
    /// An allocation failed.
    Memory(AllocError),
}

impl KeyError {
    /// What `Display` shows: one line, without a line end. Does not allocate.
    pub fn text(&self) -> &'static str
        ensures { result.now ≡ error_text self.now }
    {
        match self {
            KeyError::OtherType(kind) => type_text(*kind),
            KeyError::NoAssertion => "Keys of versions 1 and 2 take no implicit assertion",
            KeyError::OtherVersion(_) => "Private keys of version 1 are not generated",
            KeyError::OtherLength(_) => "The key takes another number of random bytes for a token",
            KeyError::Refused(source) => source.text(),
            KeyError::Random => "The generator of random bytes failed",
            KeyError::Memory(_) => "No memory was found",
        }
    }
}

// What is said of the type of a key.
fn type_text(kind: PaserkType) -> &'static str
    ensures { result.now ≡ type_text kind }
{
    match kind {
        PaserkType::Local => "The key is one for local tokens",
        PaserkType::Secret => "The key is a private one, which signs",
        PaserkType::Public => "The key is a public one, which verifies",
    }
}

impl fmt::Display for KeyError {
    ghost output = { λ error. Some (error_text error) };

    fn fmt<W: fmt::Write>(&self, f: &mut fmt::Formatter<W>) -> fmt::Result {
        f.write_str(self.text())
    }
}

impl From<PasetoError> for KeyError {
    ghost from_gives = { λ source error. error ≡ key_error_of source };

    fn from(source: PasetoError) -> KeyError {
        match source {
            PasetoError::Memory(source) => KeyError::Memory(source),
            other => KeyError::Refused(other),
        }
    }
}

impl From<AllocError> for KeyError {
    ghost from_gives = { λ source error. error ≡ Memory source };

    fn from(source: AllocError) -> KeyError {
        KeyError::Memory(source)
    }
}

/// Why the claims of a token were not admitted.
#[derive(Debug, Drop, Error)]
pub enum AdmitError {
    /// The key reads no tokens, or takes no implicit assertion: `OtherType` or `NoAssertion`.
    #[error("{0}")]
    Key(KeyError),
    /// The token was refused, or its claims: the error of `parse` of a `GenericParser`.
    #[error("{0}")]
    Parser(GenericParserError),
    /// An allocation failed.
    #[error("No memory was found")]
    Memory(AllocError),
}

/// A refused token is the parser's refusal, and a failed allocation stays one.
impl From<KeyError> for AdmitError {
    ghost from_gives = { λ source error. error ≡ admit_error_of source };

    fn from(source: KeyError) -> AdmitError {
        match source {
            KeyError::Refused(source) => AdmitError::Parser(GenericParserError::CipherError {
                source,
            }),
            KeyError::Memory(refused) => AdmitError::Memory(refused),
            misuse => AdmitError::Key(misuse),
        }
    }
}

/// A failed allocation stays one.
impl From<GenericParserError> for AdmitError {
    ghost from_gives = { λ source error. error ≡ admit_error_in source };

    fn from(source: GenericParserError) -> AdmitError {
        match source {
            GenericParserError::Memory(refused) => AdmitError::Memory(refused),
            refusal => AdmitError::Parser(refusal),
        }
    }
}
