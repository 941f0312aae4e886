//! The general error, and the errors of key rings.

ghost use Rattle.std.specs.Prelude.{◌≡◌, option_map};
ghost use Rattle.rusty_paseto.specs.Error.{cause_of, parsing_blame, ring_blame, ring_cause_of};
ghost use Rattle.rusty_paseto.specs.KeyRing.{of_parser, of_ring};
ghost use Rattle.rusty_paseto.specs.declared.error.KeyRingError.TheVariants.{Memory};
ghost use Rattle.rusty_paseto.specs.declared.error.KeyRingParserError.TheVariants.{Memory as NoMemory};

use crate::shown_id::ShownId;
use rusty_paseto_core::PasetoError;
use rusty_paseto_generic::{Blame, GenericParserError};
use std::alloc::AllocError;
use thiserror::Error;

/// The error of this name in the Rust crate, for code that refers to it. No call of this library returns it: each call
/// has a more specific error.
#[derive(Debug, Drop, Error)]
pub enum GeneralPasetoError {
    /// Another error, passed on.
    #[error("A general paseto error occurred")]
    PasetoError(Box<GeneralPasetoError>),
    /// An error of a call that cannot fail.
    #[error("An infallible error occurred")]
    Infallible,
    /// A date was malformed.
    #[error("A general date error occurred")]
    RFC3339Date,
}

/// Why a key ring did not add a key, or did not open a token.
///
/// The variants are in the order in which a token is checked: its footer, what the footer names, and then the token
/// itself.
#[derive(Debug, Drop, Error)]
pub enum KeyRingError {
    /// The footer could not be read from the token, or the token is beyond a limit: `TooLong`.
    #[error("{0}")]
    Untrusted(PasetoError),
    /// The token has no fourth section.
    #[error("The token has no footer")]
    NoFooter,
    /// The footer is not the JSON of an object.
    #[error("The footer is not a JSON object")]
    NotAnObject,
    /// The object has no text under `kid`.
    #[error("The footer names no key")]
    NoKeyId,
    /// The ring has no key with the id that the footer names. The id is untrusted text from the token: the error's text
    /// escapes each character of it that is not printable, so that it stays on one line of a log.
    #[error("The key '{}' is not in the ring", ShownId(.0.as_str()))]
    UnknownKey(String),
    /// The token was not opened under the key that its footer names.
    #[error("{0}")]
    Token(PasetoError),
    /// An allocation failed.
    #[error("No memory was found")]
    Memory(AllocError),
}

impl KeyRingError {
    /// Why the token was not read or opened, if it was not. The error's own text is that of its cause.
    pub fn cause(&self) -> Option<&PasetoError>
        ensures { option_map (λ cause. cause.now) result ≡ ring_cause_of self.now }
    {
        match self {
            KeyRingError::Untrusted(source) | KeyRingError::Token(source) => Some(source),
            _ => None,
        }
    }

    /// Which side caused the error: `Memory` if an allocation failed, and else `Foreign`: the token names no key of the
    /// ring, or was not opened under the one that it names.
    pub fn blame(&self) -> Blame
        ensures { result ≡ ring_blame self.now }
    {
        match self {
            KeyRingError::Untrusted(source) | KeyRingError::Token(source) => Blame::from(source),
            KeyRingError::Memory(_) => Blame::Memory,
            _ => Blame::Foreign,
        }
    }
}

impl From<AllocError> for KeyRingError {
    ghost from_gives = { λ source error. error ≡ Memory source };

    fn from(source: AllocError) -> KeyRingError {
        KeyRingError::Memory(source)
    }
}

/// Why a key ring returned no claims for a token.
///
/// The variants are in the order in which a token is checked.
#[derive(Debug, Drop, Error)]
pub enum KeyRingParserError {
    /// The ring opened no token. Never `KeyRingError::Memory`.
    #[error("{0}")]
    Ring(KeyRingError),
    /// The decrypted text is not JSON, or did not pass the checks. Neither `CipherError` nor `Memory`.
    #[error("{0}")]
    Parser(GenericParserError),
    /// An allocation failed.
    #[error("No memory was found")]
    Memory(AllocError),
}

impl KeyRingParserError {
    /// Why the token was not read or opened, if it was not. The error's own text is that of its cause.
    ///
    /// ```rust
    /// use rusty_paseto::prelude::*;
    ///
    /// /// Whether the token was changed, or was sealed with another key of this id or another assertion.
    /// pub fn has_another_tag(error: &KeyRingParserError) -> bool {
    ///     matches!(error.cause(), Some(PasetoError::Cryption))
    /// }
    /// ```
    pub fn cause(&self) -> Option<&PasetoError>
        ensures { option_map (λ cause. cause.now) result ≡ cause_of self.now }
    {
        match self {
            KeyRingParserError::Ring(source) => source.cause(),
            KeyRingParserError::Parser(source) => source.cause(),
            KeyRingParserError::Memory(_) => None,
        }
    }

    /// Which side caused the error: that of the ring's fault, or of the parser's.
    ///
    /// ```rust
    /// use rusty_paseto::prelude::*;
    ///
    /// /// The status that a service would answer over HTTP for a refused token.
    /// pub fn status(refusal: &KeyRingParserError) -> u16 {
    ///     match refusal.blame() {
    ///         Blame::Foreign | Blame::Untimely => 401,
    ///         Blame::Unfit => 403,
    ///         Blame::Memory => 503,
    ///     }
    /// }
    /// ```
    pub fn blame(&self) -> Blame
        ensures { result ≡ parsing_blame self.now }
    {
        match self {
            KeyRingParserError::Ring(source) => source.blame(),
            KeyRingParserError::Parser(source) => source.blame(),
            KeyRingParserError::Memory(_) => Blame::Memory,
        }
    }
}

impl From<AllocError> for KeyRingParserError {
    ghost from_gives = { λ source error. error ≡ NoMemory source };

    fn from(source: AllocError) -> KeyRingParserError {
        KeyRingParserError::Memory(source)
    }
}

impl From<KeyRingError> for KeyRingParserError {
    ghost from_gives = { λ source error. error ≡ of_ring source };

    fn from(source: KeyRingError) -> KeyRingParserError {
        match source {
            KeyRingError::Memory(refused) => KeyRingParserError::Memory(refused),
            fault => KeyRingParserError::Ring(fault),
        }
    }
}

impl From<GenericParserError> for KeyRingParserError {
    ghost from_gives = { λ source error. error ≡ of_parser source };

    fn from(source: GenericParserError) -> KeyRingParserError {
        match source {
            GenericParserError::Memory(refused) => KeyRingParserError::Memory(refused),
            fault => KeyRingParserError::Parser(fault),
        }
    }
}
