//! Why a key was not wrapped, or a text not unwrapped.

ghost use Rattle.std.specs.Prelude.{◌≡◌, Some};
ghost use Rattle.paseto_wrapping.specs.Error.{error_text};
ghost use Rattle.paseto_wrapping.specs.declared.error.WrapError.TheVariants.{Memory};

use crate::header::WrappedType;
use rusty_paseto_paserk::PaserkVersion;
use std::alloc::AllocError;
use std::fmt;
use thiserror::Error;

/// Why a key was not wrapped, or a text not unwrapped. Of several errors, the first in this order is returned, but where a
/// private key is wrapped `InvalidKey` comes before all others.
#[derive(Debug, Drop, Error)]
pub enum WrapError {
    /// The text does not begin like a wrapped key: not with one of `k1.` to `k4.`, followed by one of
    /// `local-wrap.pie.`, `secret-wrap.pie.`, `local-pw.`, `secret-pw.` and `seal.`.
    NoWrappedKey,
    /// The text begins like a wrapped key of another version, which is this one.
    OtherVersion(PaserkVersion),
    /// The text begins like a wrapped key of the version, but of another type, which is this one.
    OtherType(WrappedType),
    /// What follows the header is not valid base64url without padding, or has too few bytes; for a sealed key, a number
    /// of bytes other than its version's.
    InvalidText,
    /// The salt or the nonce of a password-protected key does not have the version's length.
    InvalidNonce,
    /// The password has 4 GiB or more.
    LongPassword,
    /// A cost that PBKDF2 or Argon2id does not allow: no iterations, no passes, no lanes or too many, or memory that is
    /// less than 8 KiB for each lane, not a multiple of 1024 bytes, or 4 TiB and more.
    InvalidCost,
    /// The text demands more iterations, memory, passes or lanes than the caller's bound.
    TooCostly,
    /// The private key is not valid for the version: in version 3 another length than 48 bytes, 0 or a number not below
    /// n; in versions 2 and 4 another length than 64 bytes, or a public half that is not a point or of small order.
    /// When sealing, the ephemeral one.
    InvalidPrivateKey,
    /// The public key to which a key is to be sealed, or the ephemeral one of a sealed key, is not a point of the
    /// curve.
    InvalidPoint,
    /// No secret can be shared with a public key: it is of small order.
    SmallOrder,
    /// The tag is wrong.
    WrongKey,
    /// The unwrapped bytes are not a key of the version and the type. When wrapping: a private key of version 1 is none.
    InvalidKey,
    /// An allocation failed.
    Memory(AllocError),
}

impl WrapError {
    /// What `Display` shows: one line, without a line end. Does not allocate.
    pub fn text(&self) -> &'static str
        ensures { result.now ≡ error_text self.now }
    {
        match self {
            WrapError::NoWrappedKey => "the text is no wrapped key of PASERK",
            WrapError::OtherVersion(PaserkVersion::V1) => "the wrapped key is one of version 1",
            WrapError::OtherVersion(PaserkVersion::V2) => "the wrapped key is one of version 2",
            WrapError::OtherVersion(PaserkVersion::V3) => "the wrapped key is one of version 3",
            WrapError::OtherVersion(PaserkVersion::V4) => "the wrapped key is one of version 4",
            WrapError::OtherType(WrappedType::LocalWrap) =>
                "the wrapped key is a local one, under a wrapping key",
            WrapError::OtherType(WrappedType::SecretWrap) =>
                "the wrapped key is a private one, under a wrapping key",
            WrapError::OtherType(WrappedType::LocalPassword) =>
                "the wrapped key is a local one, under a password",
            WrapError::OtherType(WrappedType::SecretPassword) =>
                "the wrapped key is a private one, under a password",
            WrapError::OtherType(WrappedType::Seal) =>
                "the wrapped key is a local one, sealed to a public key",
            WrapError::InvalidText =>
                "what follows the header is no base64url of a wrapped key, or was cut off",
            WrapError::InvalidNonce =>
                "the salt or the nonce has another length than the version asks for",
            WrapError::LongPassword => "the password has 4 GiB or more",
            WrapError::InvalidCost =>
                "the cost of the password is one that its function does not allow",
            WrapError::TooCostly => "the text asks for a costlier password than the bound allows",
            WrapError::InvalidPrivateKey => "the private key is none of the version",
            WrapError::InvalidPoint => "the public key is no point of the curve",
            WrapError::SmallOrder => "the public key is of small order",
            WrapError::WrongKey => "wrong key or password, or the text was changed",
            WrapError::InvalidKey => "what was wrapped is no key of the version",
            WrapError::Memory(_) => "out of memory",
        }
    }
}

impl fmt::Display for WrapError {
    ghost output = { λ error. Some (error_text error) };

    fn fmt<W: fmt::Write>(&self, f: &mut fmt::Formatter<W>) -> fmt::Result {
        f.write_str(self.text())
    }
}

impl From<AllocError> for WrapError {
    ghost from_gives = { λ source error. error ≡ Memory source };

    fn from(source: AllocError) -> WrapError {
        WrapError::Memory(source)
    }
}
