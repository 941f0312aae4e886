//! Why the text of a key was refused.

ghost use Rattle.std.specs.Prelude.{◌≡◌, Some};
ghost use Rattle.paseto_pem.specs.Error.{algorithm_text, curve_text, error_text, label_text};
ghost use Rattle.paseto_pem.specs.Key.{IsOtherLabel};
ghost use Rattle.paseto_pem.specs.declared.error.PemError.TheVariants.{Memory};

use crate::found::{Algorithm, Curve};
use crate::label::Label;
use std::alloc::AllocError;
use std::fmt;
use thiserror::Error;

/// Why a text could not be read as a key, or a key could not be written. The variants that are told of a text are in the
/// order in which they are looked for.
#[derive(Debug, Drop, Error)]
pub enum PemError {
    /// The text is not PEM (RFC 7468), or has a label that no supported key has.
    NotPem,
    /// The text has the block of a key, and another block behind it.
    TwoKeys,
    /// The text has this label, and not that of the requested key.
    OtherLabel(Label),
    /// The key is encrypted, which is not supported.
    Encrypted,
    /// The contents are not those of the label, in DER.
    InvalidDer,
    /// The key is of this other algorithm.
    OtherAlgorithm(Algorithm),
    /// The key is of this other curve.
    OtherCurve(Curve),
    /// The key is of RSA with a modulus of so many bits, rounded up to whole octets.
    OtherSize(usize),
    /// The public key in the text is not that of the private key.
    OtherHalf,
    /// The contents are not a key. When writing: the bytes are not a key.
    InvalidKey,
    /// An allocation failed.
    Memory(AllocError),
}

impl PemError {
    /// What `Display` shows: one line, without a line end. Does not allocate.
    pub fn text(&self) -> &'static str
        ensures { result.now ≡ error_text self.now }
    {
        match self {
            PemError::NotPem => "The text is no PEM",
            PemError::TwoKeys => "The text has more than one key",
            PemError::OtherLabel(label) => label_text(*label),
            PemError::Encrypted => "The key is encrypted",
            PemError::InvalidDer => "The key is not in DER",
            PemError::OtherAlgorithm(algorithm) => algorithm_text(*algorithm),
            PemError::OtherCurve(curve) => curve_text(*curve),
            PemError::OtherSize(_) => "The key has another size",
            PemError::OtherHalf => "The public key is not that of the private key",
            PemError::InvalidKey => "The key was not in the correct format",
            PemError::Memory(_) => "No memory was found",
        }
    }
}

// What is said of another label.
fn label_text(label: Label) -> &'static str
    ensures { result.now ≡ label_text label }
{
    match label {
        Label::PrivateKey => "The text is a private key",
        Label::EncryptedPrivateKey => "The text is an encrypted key",
        Label::PublicKey => "The text is a public key",
        Label::EcPrivateKey => "The text is a private key of a curve",
        Label::RsaPrivateKey => "The text is a private key of RSA",
        Label::RsaPublicKey => "The text is a public key of RSA",
        Label::OpenSshPrivateKey => "The text is a private key of OpenSSH",
    }
}

// What is said of another algorithm.
fn algorithm_text(algorithm: Algorithm) -> &'static str
    ensures { result.now ≡ algorithm_text algorithm }
{
    match algorithm {
        Algorithm::Ed25519 => "The key is one of Ed25519",
        Algorithm::EllipticCurve => "The key is one of a curve",
        Algorithm::Rsa => "The key is one of RSA",
        Algorithm::Unknown => "The key is one of another algorithm",
    }
}

// What is said of another curve.
fn curve_text(curve: Curve) -> &'static str
    ensures { result.now ≡ curve_text curve }
{
    match curve {
        Curve::P256 => "The key is one of P-256",
        Curve::P521 => "The key is one of P-521",
        Curve::Secp256k1 => "The key is one of secp256k1",
        Curve::Explicit => "The key is one of a curve with no name",
        Curve::Unknown => "The key is one of another curve",
    }
}

impl PemError {
    // Why a text with a label is not read that no key has which was asked for.
    pub(crate) fn other_label(label: Label) -> PemError
        ensures { IsOtherLabel label result }
    {
        match label {
            Label::EncryptedPrivateKey => PemError::Encrypted,
            _ => PemError::OtherLabel(label),
        }
    }
}

impl fmt::Display for PemError {
    ghost output = { λ error. Some (error_text error) };

    fn fmt<W: fmt::Write>(&self, f: &mut fmt::Formatter<W>) -> fmt::Result {
        f.write_str(self.text())
    }
}

impl From<AllocError> for PemError {
    ghost from_gives = { λ source error. error ≡ Memory source };

    fn from(source: AllocError) -> PemError {
        PemError::Memory(source)
    }
}
