//! Why a key file was not opened, or not written.

ghost use Rattle.std.specs.Prelude.{◌≡◌, Some};
ghost use Rattle.paseto_key_files.specs.Error.{error_text, opener_error_of, opener_text, paserk_error_of, pem_error_of, wrap_error_of};
ghost use Rattle.paseto_key_files.specs.declared.error.KeyFileError.TheVariants.{Memory};

use paseto_pem::PemError;
use paseto_wrapping::WrapError;
use rusty_paseto_paserk::{PaserkError, PaserkType, PaserkVersion};
use std::alloc::AllocError;
use std::fmt;
use thiserror::Error;

/// Why the text of a key file was not opened, or not written.
#[derive(Debug, Drop, Error)]
pub enum KeyFileError {
    /// The key is password-protected, and no password was given.
    NeedsPassword,
    /// The key is wrapped or sealed, and no key to open it with was given.
    NeedsKey,
    /// The other key, which should open, wrap or seal this one, cannot do so: it has another version or type, or is not
    /// a PASERK key.
    OtherOpener(PaserkError),
    /// The key is public, and so is not protected by a password or a wrapping key.
    PublicKey,
    /// Sealing in version 1 uses RSA, which is not supported.
    NoSealing,
    /// Keys for local tokens cannot be written in PEM.
    LocalInPem,
    /// Keys of version 2 are not written in PEM: the text would be read as a key of version 4.
    SecondInPem,
    /// The PEM text is not a supported key.
    Pem(PemError),
    /// The key could not be unwrapped or wrapped.
    Wrap(WrapError),
    /// The line is not that of a key.
    Paserk(PaserkError),
    /// The random generator failed.
    Random,
    /// An allocation failed.
    Memory(AllocError),
}

impl KeyFileError {
    /// What `Display` shows: one line, without a line end. Does not allocate.
    pub fn text(&self) -> &'static str
        ensures { result.now ≡ error_text self.now }
    {
        match self {
            KeyFileError::NeedsPassword =>
                "the key is under a password: give it by --password-file or PASETO_PASSWORD",
            KeyFileError::NeedsKey =>
                "the key is wrapped or sealed: name the key that opens it by --unlock-key",
            KeyFileError::OtherOpener(error) => opener_text(error),
            KeyFileError::PublicKey =>
                "the key is public: it needs no password and no wrapping key",
            KeyFileError::NoSealing => "keys of version 1 are neither sealed nor unsealed here",
            KeyFileError::LocalInPem => "keys for local tokens have no PEM text",
            KeyFileError::SecondInPem =>
                "keys of version 2 have no PEM text of their own: it would be read as one of version 4",
            KeyFileError::Pem(error) => error.text(),
            KeyFileError::Wrap(error) => error.text(),
            KeyFileError::Paserk(error) => error.text(),
            KeyFileError::Random => "the system returned no random bytes",
            KeyFileError::Memory(_) => "out of memory",
        }
    }

    /// Why the other key was refused, which is to open, to wrap or to seal one.
    pub(crate) fn of_opener(source: PaserkError) -> KeyFileError
        ensures { result ≡ opener_error_of source }
    {
        match source {
            PaserkError::Memory(source) => KeyFileError::Memory(source),
            other => KeyFileError::OtherOpener(other),
        }
    }
}

// What is said of the other key.
fn opener_text(error: &PaserkError) -> &'static str
    ensures { result.now ≡ opener_text error.now }
{
    match error {
        PaserkError::NoKey => "this is no PASERK key",
        PaserkError::OtherVersion(PaserkVersion::V1) =>
            "this key is one of version 1, and the other one is not",
        PaserkError::OtherVersion(PaserkVersion::V2) =>
            "this key is one of version 2, and the other one is not",
        PaserkError::OtherVersion(PaserkVersion::V3) =>
            "this key is one of version 3, and the other one is not",
        PaserkError::OtherVersion(PaserkVersion::V4) =>
            "this key is one of version 4, and the other one is not",
        PaserkError::OtherType(PaserkType::Local) =>
            "this key is one for local tokens, and another type is needed",
        PaserkError::OtherType(PaserkType::Secret) =>
            "this key is a private one, and another type is needed",
        PaserkError::OtherType(PaserkType::Public) =>
            "this key is a public one, and another type is needed",
        PaserkError::InvalidKey => "this key was not in the correct format",
        PaserkError::Memory(_) => "out of memory",
    }
}

impl fmt::Display for KeyFileError {
    ghost output = { λ error. Some (error_text error) };

    fn fmt<W: fmt::Write>(&self, f: &mut fmt::Formatter<W>) -> fmt::Result {
        f.write_str(self.text())
    }
}

impl From<PemError> for KeyFileError {
    ghost from_gives = { λ source error. error ≡ pem_error_of source };

    fn from(source: PemError) -> KeyFileError {
        match source {
            PemError::Memory(source) => KeyFileError::Memory(source),
            other => KeyFileError::Pem(other),
        }
    }
}

impl From<WrapError> for KeyFileError {
    ghost from_gives = { λ source error. error ≡ wrap_error_of source };

    fn from(source: WrapError) -> KeyFileError {
        match source {
            WrapError::Memory(source) => KeyFileError::Memory(source),
            other => KeyFileError::Wrap(other),
        }
    }
}

impl From<PaserkError> for KeyFileError {
    ghost from_gives = { λ source error. error ≡ paserk_error_of source };

    fn from(source: PaserkError) -> KeyFileError {
        match source {
            PaserkError::Memory(source) => KeyFileError::Memory(source),
            other => KeyFileError::Paserk(other),
        }
    }
}

impl From<AllocError> for KeyFileError {
    ghost from_gives = { λ source error. error ≡ Memory source };

    fn from(source: AllocError) -> KeyFileError {
        KeyFileError::Memory(source)
    }
}
