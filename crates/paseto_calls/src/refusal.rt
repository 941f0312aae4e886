//! Why a call returns no text to C.

ghost use Rattle.std.specs.Prelude.{◌≡◌};
ghost use Rattle.paseto_calls.specs.declared.refusal.Refusal.TheVariants.{Memory};
ghost use Rattle.paseto_calls.specs.Refusal.{builder_refusal, claim_refusal, file_refusal, key_refusal, opener_refusal, parser_refusal, paserk_refusal, pem_refusal, ring_refusal, status_of, token_refusal, wrap_refusal};

use paseto_key_files::KeyFileError;
use paseto_keys::KeyError;
use paseto_pem::PemError;
use paseto_wrapping::WrapError;
use rusty_paseto::KeyRingError;
use rusty_paseto_claims::PasetoClaimError;
use rusty_paseto_core::PasetoError;
use rusty_paseto_generic::{GenericBuilderError, GenericParserError};
use rusty_paseto_paserk::PaserkError;
use std::alloc::AllocError;

/// Why a call returns no text. Each has its status in `c/paseto.h`.
#[derive(Clone, Copy, Debug)]
pub enum Refusal {
    /// An allocation failed.
    Memory,
    /// A key has the wrong length or form.
    InvalidKey,
    /// A nonce, a seed or a salt has the wrong length.
    InvalidNonce,
    /// An argument is not UTF-8.
    NotUtf8,
    /// Claims are not the text of a JSON object.
    NotObject,
    /// The moment is out of range.
    InvalidMoment,
    /// A token does not have three or four sections, or its payload is too short.
    IncorrectSize,
    /// A token has another footer than the expected one.
    FooterInvalid,
    /// A token has another version or purpose.
    WrongHeader,
    /// A section is not valid base64url.
    PayloadBase64Decode,
    /// The tag of a token is wrong.
    Cryption,
    /// A box of version 2 did not open, or cannot encrypt a text.
    ChaChaCipherError,
    /// A signature is not valid.
    InvalidSignature,
    /// The decrypted text of a token, or its footer, is not UTF-8.
    Utf8Error,
    /// The signed text is not UTF-8.
    FromUtf8Error,
    /// A private key is not valid.
    KeyRejected,
    /// The two halves of a private key do not belong together.
    Signature,
    /// The payload of a token is not JSON.
    PayloadJsonError,
    /// A token has expired.
    Expired,
    /// A token may not be used yet.
    UseBeforeAvailable,
    /// A date and time of a token is malformed.
    Rfc3339Date,
    /// An expected claim is missing.
    Missing,
    /// A claim has another type than the expected one.
    Unexpected,
    /// A claim has another text than the expected one.
    Invalid,
    /// A claim was set more than once.
    DuplicateTopLevelPayloadClaim,
    /// An error that no call of this library returns.
    Other,
    /// The numbers of a version 1 private key are inconsistent.
    RsaCipher,
    /// A token is longer than the limit.
    TooLong,
    /// The required names are not a JSON array of strings.
    NotNames,
    /// A text does not begin like a PASERK key.
    NoPaserk,
    /// A text begins like a key of another version.
    OtherVersion,
    /// A text begins like a key of another type.
    OtherType,
    /// A text is not PEM, has a label that no key has, or has more than one key.
    NotPem,
    /// A key in PEM is encrypted.
    EncryptedKey,
    /// A PEM text has another label than that of such a key.
    OtherLabel,
    /// A key in PEM is of another algorithm.
    OtherAlgorithm,
    /// A key in PEM is of another curve.
    OtherCurve,
    /// A key in PEM is of the right algorithm, but of another size.
    OtherSize,
    /// An implicit assertion is given, and the key's version has none.
    NoAssertion,
    /// A key is under a password, and none is given.
    NeedsPassword,
    /// A key is wrapped or sealed, and no key that opens it is given.
    NeedsKey,
    /// A key does not open with the password or the key that is given.
    WrongKey,
    /// A key's password asks for more work than is allowed.
    TooCostly,
    /// The options have another size than those of this version.
    InvalidOptions,
    /// A token has no footer that could name its key.
    NoFooter,
    /// The footer of a token is not a JSON object.
    FooterNotObject,
    /// The footer of a token names no key.
    NoKeyId,
    /// No key has the id that the footer of a token names.
    UnknownKey,
    /// The system has no random bytes: no call of this library returns it, but those of the header.
    Random,
}

impl Refusal {
    /// The status of the refusal.
    pub fn status(self) -> u8
        ensures { result ≡ status_of self }
    {
        match self {
            Refusal::Memory => 2,
            Refusal::InvalidKey => 3,
            Refusal::InvalidNonce => 4,
            Refusal::NotUtf8 => 5,
            Refusal::NotObject => 6,
            Refusal::InvalidMoment => 7,
            Refusal::IncorrectSize => 8,
            Refusal::FooterInvalid => 9,
            Refusal::WrongHeader => 10,
            Refusal::PayloadBase64Decode => 11,
            Refusal::Cryption => 12,
            Refusal::ChaChaCipherError => 13,
            Refusal::InvalidSignature => 14,
            Refusal::Utf8Error => 15,
            Refusal::FromUtf8Error => 16,
            Refusal::KeyRejected => 17,
            Refusal::Signature => 18,
            Refusal::PayloadJsonError => 19,
            Refusal::Expired => 20,
            Refusal::UseBeforeAvailable => 21,
            Refusal::Rfc3339Date => 22,
            Refusal::Missing => 23,
            Refusal::Unexpected => 24,
            Refusal::Invalid => 25,
            Refusal::DuplicateTopLevelPayloadClaim => 26,
            Refusal::Other => 27,
            Refusal::RsaCipher => 28,
            Refusal::TooLong => 29,
            Refusal::NotNames => 30,
            Refusal::NoPaserk => 31,
            Refusal::OtherVersion => 32,
            Refusal::OtherType => 33,
            Refusal::NotPem => 34,
            Refusal::EncryptedKey => 35,
            Refusal::OtherLabel => 36,
            Refusal::OtherAlgorithm => 37,
            Refusal::OtherCurve => 38,
            Refusal::OtherSize => 39,
            Refusal::NoAssertion => 40,
            Refusal::NeedsPassword => 41,
            Refusal::NeedsKey => 42,
            Refusal::WrongKey => 43,
            Refusal::TooCostly => 44,
            Refusal::InvalidOptions => 45,
            Refusal::NoFooter => 46,
            Refusal::FooterNotObject => 47,
            Refusal::NoKeyId => 48,
            Refusal::UnknownKey => 49,
            Refusal::Random => 50,
        }
    }

    /// The refusal for an error of the core.
    pub fn of_token(error: &PasetoError) -> Refusal
        ensures { result ≡ token_refusal error.now }
    {
        match error {
            PasetoError::Memory(_) => Refusal::Memory,
            PasetoError::InvalidKey => Refusal::InvalidKey,
            PasetoError::IncorrectSize => Refusal::IncorrectSize,
            PasetoError::FooterInvalid => Refusal::FooterInvalid,
            PasetoError::WrongHeader => Refusal::WrongHeader,
            PasetoError::PayloadBase64Decode { .. } => Refusal::PayloadBase64Decode,
            PasetoError::Cryption => Refusal::Cryption,
            PasetoError::ChaChaCipherError => Refusal::ChaChaCipherError,
            PasetoError::InvalidSignature => Refusal::InvalidSignature,
            PasetoError::Utf8Error { .. } => Refusal::Utf8Error,
            PasetoError::FromUtf8Error => Refusal::FromUtf8Error,
            PasetoError::KeyRejected => Refusal::KeyRejected,
            PasetoError::Signature => Refusal::Signature,
            PasetoError::RsaCipher => Refusal::RsaCipher,
            PasetoError::TooLong => Refusal::TooLong,
            _ => Refusal::Other,
        }
    }

    /// The refusal for an error of claims.
    fn of_claim(error: &PasetoClaimError) -> Refusal
        ensures { result ≡ claim_refusal error.now }
    {
        match error {
            PasetoClaimError::Memory(_) => Refusal::Memory,
            PasetoClaimError::Expired => Refusal::Expired,
            PasetoClaimError::UseBeforeAvailable(_) => Refusal::UseBeforeAvailable,
            PasetoClaimError::RFC3339Date(_) => Refusal::Rfc3339Date,
            PasetoClaimError::Missing(_) => Refusal::Missing,
            PasetoClaimError::Unexpected(_) => Refusal::Unexpected,
            PasetoClaimError::Invalid(_, _, _) => Refusal::Invalid,
            PasetoClaimError::DuplicateTopLevelPayloadClaim(_) =>
                Refusal::DuplicateTopLevelPayloadClaim,
            PasetoClaimError::CustomValidation(_) | PasetoClaimError::Reserved(_) => Refusal::Other,
        }
    }

    /// The refusal for an error of a builder.
    pub(crate) fn of_builder(error: &GenericBuilderError) -> Refusal
        ensures { result ≡ builder_refusal error.now }
    {
        match error {
            GenericBuilderError::Memory(_) => Refusal::Memory,
            GenericBuilderError::ClaimError { source } => Refusal::of_claim(source),
            GenericBuilderError::CipherError { source } => Refusal::of_token(source),
            GenericBuilderError::DuplicateTopLevelPayloadClaim(_) =>
                Refusal::DuplicateTopLevelPayloadClaim,
            GenericBuilderError::PayloadJsonError { .. } => Refusal::PayloadJsonError,
            GenericBuilderError::BadEmailAddress(_) => Refusal::Other,
        }
    }

    /// The refusal for an error of a parser.
    pub(crate) fn of_parser(error: &GenericParserError) -> Refusal
        ensures { result ≡ parser_refusal error.now }
    {
        match error {
            GenericParserError::Memory(_) => Refusal::Memory,
            GenericParserError::ClaimError { source } => Refusal::of_claim(source),
            GenericParserError::CipherError { source } => Refusal::of_token(source),
            GenericParserError::PayloadJsonError { .. } => Refusal::PayloadJsonError,
        }
    }
}

impl Refusal {
    /// The refusal for an error of a key's text.
    pub(crate) fn of_paserk(error: &PaserkError) -> Refusal
        ensures { result ≡ paserk_refusal error.now }
    {
        match error {
            PaserkError::NoKey => Refusal::NoPaserk,
            PaserkError::OtherVersion(_) => Refusal::OtherVersion,
            PaserkError::OtherType(_) => Refusal::OtherType,
            PaserkError::InvalidKey => Refusal::InvalidKey,
            PaserkError::Memory(_) => Refusal::Memory,
        }
    }

    /// The refusal for an error of a key's text in PEM.
    pub(crate) fn of_pem(error: &PemError) -> Refusal
        ensures { result ≡ pem_refusal error.now }
    {
        match error {
            PemError::NotPem | PemError::TwoKeys => Refusal::NotPem,
            PemError::Encrypted => Refusal::EncryptedKey,
            PemError::OtherLabel(_) => Refusal::OtherLabel,
            PemError::OtherAlgorithm(_) => Refusal::OtherAlgorithm,
            PemError::OtherCurve(_) => Refusal::OtherCurve,
            PemError::OtherSize(_) => Refusal::OtherSize,
            PemError::InvalidDer | PemError::OtherHalf | PemError::InvalidKey => {
                Refusal::InvalidKey
            }
            PemError::Memory(_) => Refusal::Memory,
        }
    }
}

impl Refusal {
    /// The refusal for an error of a key that reads or writes tokens, or is generated.
    pub(crate) fn of_key(error: &KeyError) -> Refusal
        ensures { result ≡ key_refusal error.now }
    {
        match error {
            KeyError::OtherType(_) => Refusal::OtherType,
            KeyError::NoAssertion => Refusal::NoAssertion,
            KeyError::OtherVersion(_) => Refusal::OtherVersion,
            KeyError::OtherLength(_) | KeyError::Random => Refusal::InvalidNonce,
            KeyError::Refused(source) => Refusal::of_token(source),
            KeyError::Memory(_) => Refusal::Memory,
        }
    }

    /// The refusal for an error of a key's text in any form.
    pub(crate) fn of_file(error: &KeyFileError) -> Refusal
        ensures { result ≡ file_refusal error.now }
    {
        match error {
            KeyFileError::NeedsPassword => Refusal::NeedsPassword,
            KeyFileError::NeedsKey => Refusal::NeedsKey,
            KeyFileError::OtherOpener(source) => Refusal::of_opener(source),
            KeyFileError::PublicKey | KeyFileError::LocalInPem => Refusal::OtherType,
            KeyFileError::NoSealing | KeyFileError::SecondInPem => Refusal::OtherVersion,
            KeyFileError::Pem(source) => Refusal::of_pem(source),
            KeyFileError::Wrap(source) => Refusal::of_wrap(source),
            KeyFileError::Paserk(source) => Refusal::of_paserk(source),
            KeyFileError::Random => Refusal::InvalidNonce,
            KeyFileError::Memory(_) => Refusal::Memory,
        }
    }

    /// The refusal for an error of the key that opens, wraps or seals another. One whose text does not begin as PASERK
    /// is of version 1, and the other key is not.
    fn of_opener(error: &PaserkError) -> Refusal
        ensures { result ≡ opener_refusal error.now }
    {
        match error {
            PaserkError::NoKey => Refusal::OtherVersion,
            other => Refusal::of_paserk(other),
        }
    }

    /// The refusal for an error of a wrapped key.
    fn of_wrap(error: &WrapError) -> Refusal
        ensures { result ≡ wrap_refusal error.now }
    {
        match error {
            WrapError::NoWrappedKey => Refusal::NoPaserk,
            WrapError::OtherVersion(_) => Refusal::OtherVersion,
            WrapError::OtherType(_) => Refusal::OtherType,
            WrapError::InvalidNonce => Refusal::InvalidNonce,
            WrapError::LongPassword => Refusal::TooLong,
            WrapError::TooCostly => Refusal::TooCostly,
            WrapError::InvalidPrivateKey => Refusal::KeyRejected,
            WrapError::WrongKey => Refusal::WrongKey,
            WrapError::InvalidText
            | WrapError::InvalidCost
            | WrapError::InvalidPoint
            | WrapError::SmallOrder
            | WrapError::InvalidKey => Refusal::InvalidKey,
            WrapError::Memory(_) => Refusal::Memory,
        }
    }

    /// The refusal for an error of a ring of keys.
    pub(crate) fn of_ring(error: &KeyRingError) -> Refusal
        ensures { result ≡ ring_refusal error.now }
    {
        match error {
            KeyRingError::Untrusted(source) | KeyRingError::Token(source) => Refusal::of_token(
                source,
            ),
            KeyRingError::NoFooter => Refusal::NoFooter,
            KeyRingError::NotAnObject => Refusal::FooterNotObject,
            KeyRingError::NoKeyId => Refusal::NoKeyId,
            KeyRingError::UnknownKey(_) => Refusal::UnknownKey,
            KeyRingError::Memory(_) => Refusal::Memory,
        }
    }
}

impl From<GenericBuilderError> for Refusal {
    ghost from_gives = { λ error refusal. refusal ≡ builder_refusal error };

    fn from(error: GenericBuilderError) -> Refusal {
        Refusal::of_builder(&error)
    }
}

impl From<GenericParserError> for Refusal {
    ghost from_gives = { λ error refusal. refusal ≡ parser_refusal error };

    fn from(error: GenericParserError) -> Refusal {
        Refusal::of_parser(&error)
    }
}

impl From<KeyError> for Refusal {
    ghost from_gives = { λ error refusal. refusal ≡ key_refusal error };

    fn from(error: KeyError) -> Refusal {
        Refusal::of_key(&error)
    }
}

impl From<KeyFileError> for Refusal {
    ghost from_gives = { λ error refusal. refusal ≡ file_refusal error };

    fn from(error: KeyFileError) -> Refusal {
        Refusal::of_file(&error)
    }
}

impl From<PaserkError> for Refusal {
    ghost from_gives = { λ error refusal. refusal ≡ paserk_refusal error };

    fn from(error: PaserkError) -> Refusal {
        Refusal::of_paserk(&error)
    }
}

impl From<PemError> for Refusal {
    ghost from_gives = { λ error refusal. refusal ≡ pem_refusal error };

    fn from(error: PemError) -> Refusal {
        Refusal::of_pem(&error)
    }
}

impl From<WrapError> for Refusal {
    ghost from_gives = { λ error refusal. refusal ≡ wrap_refusal error };

    fn from(error: WrapError) -> Refusal {
        Refusal::of_wrap(&error)
    }
}

impl From<AllocError> for Refusal {
    ghost from_gives = { λ error refusal. refusal ≡ Memory };

    fn from(_error: AllocError) -> Refusal {
        Refusal::Memory
    }
}
