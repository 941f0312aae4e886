//! Why the text of a key was refused.

ghost use Rattle.std.specs.Prelude.{◌≡◌, Some};
ghost use Rattle.rusty_paseto_paserk.specs.Error.{error_text};
ghost use Rattle.rusty_paseto_paserk.specs.declared.error.PaserkError.TheVariants.{Memory};

use crate::header::{PaserkType, PaserkVersion};
use std::alloc::AllocError;
use std::fmt;
use thiserror::Error;

/// Why a text could not be read as a key, or a key could not be written.
#[derive(Debug, Drop, Error)]
pub enum PaserkError {
    /// The text does not begin like a key: not with one of `k1.` to `k4.`, followed by one of `local.`, `secret.` and
    /// `public.`.
    NoKey,
    /// The text begins like a key of another version, which is this one.
    OtherVersion(PaserkVersion),
    /// The text begins like a key of the version, but of another type, which is this one.
    OtherType(PaserkType),
    /// What follows the header is not a key of the version and the type: its length, its characters or its first byte
    /// are wrong. When writing: a private key does not have the length of the version's keys.
    InvalidKey,
    /// An allocation failed.
    Memory(AllocError),
}

impl PaserkError {
    /// What `Display` shows: one line, without a line end. Does not allocate.
    pub fn text(&self) -> &'static str
        ensures { result.now ≡ error_text self.now }
    {
        match self {
            PaserkError::NoKey => "The text is no PASERK key",
            PaserkError::OtherVersion(PaserkVersion::V1) => "The key is one of version 1",
            PaserkError::OtherVersion(PaserkVersion::V2) => "The key is one of version 2",
            PaserkError::OtherVersion(PaserkVersion::V3) => "The key is one of version 3",
            PaserkError::OtherVersion(PaserkVersion::V4) => "The key is one of version 4",
            PaserkError::OtherType(PaserkType::Local) => "The key is one for local tokens",
            PaserkError::OtherType(PaserkType::Secret) => "The key is a private one, which signs",
            PaserkError::OtherType(PaserkType::Public) => "The key is a public one, which verifies",
            PaserkError::InvalidKey => "The key was not in the correct format",
            PaserkError::Memory(_) => "No memory was found",
        }
    }
}

impl fmt::Display for PaserkError {
    ghost output = { λ error. Some (error_text error) };

    fn fmt<W: fmt::Write>(&self, f: &mut fmt::Formatter<W>) -> fmt::Result {
        f.write_str(self.text())
    }
}

impl From<AllocError> for PaserkError {
    ghost from_gives = { λ source error. error ≡ Memory source };

    fn from(source: AllocError) -> PaserkError {
        PaserkError::Memory(source)
    }
}
