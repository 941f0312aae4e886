//! Why a row does not count.

use hex::FromHexError;
use rusty_paseto_core::PasetoError;
use std::alloc::AllocError;
use thiserror::Error;

/// What is wrong with a row, or with the library's answer to it.
#[derive(Debug, Drop, Error)]
pub enum RowError {
    /// The name or the number of fields is not that of a row.
    #[error("this is no row")]
    Form,
    /// The call does not take a key or an output of this length.
    #[error("the call does not take this length")]
    Length,
    /// A field is neither `-` nor hexadecimal digits of the right number.
    #[error("a field is not in hexadecimal: {0}")]
    Hexadecimal(FromHexError),
    /// A text is not UTF-8.
    #[error("a text is not UTF-8")]
    Utf8,
    /// The library answered otherwise.
    #[error("the answer is another")]
    Differs,
    /// The library sealed another token.
    #[error("the sealed token is another")]
    Sealed,
    /// The library opened the token to another text.
    #[error("the opened text is another")]
    Opened,
    /// The library refused the row.
    #[error("refused: {0}")]
    Refused(PasetoError),
    /// Memory was refused.
    #[error("No memory was found")]
    Memory(AllocError),
}

impl From<FromHexError> for RowError {
    fn from(source: FromHexError) -> RowError {
        RowError::Hexadecimal(source)
    }
}

impl From<PasetoError> for RowError {
    fn from(source: PasetoError) -> RowError {
        RowError::Refused(source)
    }
}

impl From<AllocError> for RowError {
    fn from(source: AllocError) -> RowError {
        RowError::Memory(source)
    }
}
