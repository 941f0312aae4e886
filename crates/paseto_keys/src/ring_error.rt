//! Why the claims of a token were not admitted by a ring.

ghost use Rattle.std.specs.Prelude.{◌≡◌};
ghost use Rattle.paseto_keys.specs.Ring.{ring_error_in};

use rusty_paseto::{KeyRingError, KeyRingParserError};
use rusty_paseto_generic::GenericParserError;
use std::alloc::AllocError;
use thiserror::Error;

/// Why the claims of a token were not admitted by a ring.
#[derive(Debug, Drop, Error)]
pub enum RingError {
    /// An implicit assertion is expected, and the token's version, 1 or 2, has none.
    #[error("Keys of versions 1 and 2 take no implicit assertion")]
    NoAssertion,
    /// The ring has no key for the token, or the token was refused under its key.
    #[error("{0}")]
    Ring(KeyRingError),
    /// The claims were refused.
    #[error("{0}")]
    Parser(GenericParserError),
    /// An allocation failed.
    #[error("No memory was found")]
    Memory(AllocError),
}

impl From<KeyRingParserError> for RingError {
    ghost from_gives = { λ source error. error ≡ ring_error_in source };

    fn from(source: KeyRingParserError) -> RingError {
        match source {
            KeyRingParserError::Ring(error) => RingError::Ring(error),
            KeyRingParserError::Parser(error) => RingError::Parser(error),
            KeyRingParserError::Memory(refused) => RingError::Memory(refused),
        }
    }
}
