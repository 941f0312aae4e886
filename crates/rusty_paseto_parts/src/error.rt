//! The error of this crate and of the core.

ghost use Rattle.std.specs.Prelude.{◌≡◌, Some};
ghost use Rattle.rusty_paseto_parts.specs.Error.{error_text};
ghost use Rattle.rusty_paseto_parts.specs.declared.error.PasetoError.TheVariants.{Memory, PayloadBase64Decode, Utf8Error as NotUtf8};

use base64::DecodeError;
use std::alloc::AllocError;
use std::fmt;
use std::str::Utf8Error;
use thiserror::Error;

/// Why a key, a token or a part of one was refused.
///
/// Each variant says which calls return it. Those that this library itself does not return are for the caller's
/// signature schemes: `try_sign` and `try_verify` return the errors of `sign`, `public_key` and `verify` of a scheme as
/// they are. Builders and parsers wrap the error of the core as `CipherError`.
#[derive(Debug, Drop, Error)]
pub enum PasetoError {
    /// An error of a cipher, passed on. Only a scheme may return it.
    PasetoCipherError(Box<PasetoError>),
    /// The tag of a token is wrong: the key, the footer or the implicit assertion is a different one, or the token was
    /// modified. From `try_decrypt` and `tag_collision` in versions 1, 3 and 4.
    Cryption,
    /// A key has the wrong length or wrong digits. From `try_from` of `Key` and of a public key of version 3; a scheme
    /// may return it.
    InvalidKey,
    /// A signature could not be made. Only a scheme may return it.
    Signature,
    /// A private key was refused. Only a scheme may return it.
    KeyRejected,
    /// A source of random bytes failed. From `try_new_random` of `Key`, and from builders that draw a nonce; a scheme
    /// may return it.
    Cipher,
    /// RSA failed. Only a scheme may return it.
    RsaCipher,
    /// ECDSA failed. Only a scheme may return it.
    ECSDAError,
    /// A length does not fit a primitive. Only a scheme may return it.
    InvalidLength,
    /// A signature is not valid. Only a scheme returns it, and `try_verify` passes it on.
    InvalidSignature,
    /// A private key of version 2 or 4 does not have 64 bytes. From `try_sign`.
    TryFromSlice,
    /// A token does not have three or four sections, or its payload is too short for a nonce and a tag or for a
    /// signature. From `try_decrypt`, `try_verify`, `tag_collision`, `UntrustedToken::try_parse` and
    /// `Footer::try_from_token`, the last two only for the sections.
    IncorrectSize,
    /// A token has another header than the expected one. From `try_decrypt`, `try_verify` and `tag_collision`.
    WrongHeader,
    /// A token has another footer than the expected one, or lacks it. From `try_decrypt`, `try_verify` and
    /// `tag_collision`.
    FooterInvalid,
    /// A section is not valid base64url. From `from_section`; from `try_decrypt`, `try_verify` and
    /// `tag_collision` for the payload; from `UntrustedToken` and `Footer::try_from_token` for the footer.
    PayloadBase64Decode { source: DecodeError },
    /// The bytes of a text are not UTF-8. From `try_decrypt` and `tag_collision`, after the tag was found valid, and
    /// from `UntrustedToken` and `Footer::try_from_token`.
    Utf8Error { source: Utf8Error },
    /// A box did not open, or cannot encrypt a text. From `try_decrypt` and `try_encrypt` in version 2.
    ChaChaCipherError,
    /// A conversion that cannot fail has failed. Only a scheme may return it.
    Infallibale,
    /// The bytes of a signed text are not UTF-8. From `try_verify`, after the signature was found valid.
    FromUtf8Error,
    /// An allocation failed. From every call that allocates, in place of its result.
    Memory(AllocError),
    /// A token or its footer has more bytes than the limit; none of it was decoded. From `try_parse_within` of
    /// `UntrustedToken`, and from parsers and key rings with a limit that `set_longest` or `set_longest_footer` set. A
    /// scheme may return it.
    TooLong,
}

impl PasetoError {
    /// What `Display` shows: one line, without a line end. Does not allocate.
    pub fn text(&self) -> &'static str
        ensures { result.now ≡ error_text self.now }
    {
        match self {
            PasetoError::PasetoCipherError(_) => "A cipher error occurred",
            PasetoError::Cryption => "An unspecified cryption error occured",
            PasetoError::InvalidKey => "Key was not in the correct format",
            PasetoError::Signature => "Could not assemble final signature.",
            PasetoError::KeyRejected => "A private RSA key was not in the correct format",
            PasetoError::Cipher
            | PasetoError::RsaCipher
            | PasetoError::InvalidLength
            | PasetoError::ChaChaCipherError => "An unspecified cipher error occurred",
            PasetoError::ECSDAError => "An unspecified ECSDA error occurred",
            PasetoError::InvalidSignature => "The token signature could not be verified",
            PasetoError::TryFromSlice => "A slice conversion error occurred",
            PasetoError::IncorrectSize =>
                "This string has an incorrect number of parts and cannot be parsed into a token",
            PasetoError::WrongHeader => "The token header is invalid",
            PasetoError::FooterInvalid => "The provided footer is invalid",
            PasetoError::PayloadBase64Decode { .. } => "A base64 decode error occurred",
            PasetoError::Utf8Error { .. } | PasetoError::Infallibale | PasetoError::FromUtf8Error =>
                "A Utf8 parsing error occurred",
            PasetoError::Memory(_) => "No memory was found",
            PasetoError::TooLong => "The token or its footer is longer than allowed",
        }
    }
}

impl fmt::Display for PasetoError {
    ghost output = { λ error. Some (error_text error) };

    fn fmt<W: fmt::Write>(&self, f: &mut fmt::Formatter<W>) -> fmt::Result {
        f.write_str(self.text())
    }
}

impl From<AllocError> for PasetoError {
    ghost from_gives = { λ source error. error ≡ Memory source };

    fn from(source: AllocError) -> PasetoError {
        PasetoError::Memory(source)
    }
}

impl From<DecodeError> for PasetoError {
    ghost from_gives = { λ source error. error ≡ PayloadBase64Decode source };

    fn from(source: DecodeError) -> PasetoError {
        PasetoError::PayloadBase64Decode { source }
    }
}

impl From<Utf8Error> for PasetoError {
    ghost from_gives = { λ source error. error ≡ NotUtf8 source };

    fn from(source: Utf8Error) -> PasetoError {
        PasetoError::Utf8Error { source }
    }
}
