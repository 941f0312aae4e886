//! A key of whatever algorithm, and reading it.

ghost use Rattle.std.specs.Prelude.{IfErr, IfOk};
ghost use Rattle.paseto_pem.specs.PemKey.{IsNoKind, IsPrivateKind, IsPublicKind, ReadsAnyKey, ReadsHeldKey};
ghost use Rattle.paseto_pem.specs.declared.label.Label.TheVariants.{PrivateKey as PrivateLabel, PublicKey as PublicLabel};

use crate::algorithm::algorithm_of;
use crate::error::PemError;
use crate::found::Algorithm;
use crate::info::{read_private_info, read_public_info};
use crate::keys::{private_key_in, public_key_in};
use crate::label::Label;
use crate::text::read_text;
use rusty_paseto_parts::{PrivateKey, PublicKey, V1, V3, V4};
use std::alloc::Global;

/// A key of a text in PEM, of whatever algorithm: the text says which.
#[derive(Drop)]
pub enum PemKey {
    /// The private key of version 1, of RSA with 2048 bits.
    RsaPrivate(PrivateKey<V1>),
    /// The public key of version 1, of RSA with 2048 bits.
    RsaPublic(PublicKey<V1>),
    /// The private key of version 3, of P-384.
    P384Private(PrivateKey<V3>),
    /// The public key of version 3, of P-384.
    P384Public(PublicKey<V3>),
    /// The private key of Ed25519, as one of version 4: PEM does not tell versions 2 and 4 apart.
    Ed25519Private(PrivateKey<V4>),
    /// The public key of Ed25519, as one of version 4: PEM does not tell versions 2 and 4 apart.
    Ed25519Public(PublicKey<V4>),
}

/// The key with this text, of whatever algorithm. The text is decoded once.
///
/// It is the key that `private_key_from_pem` or `public_key_from_pem` of its version reads, and there is one only: the
/// label says whether it is private, and of `PRIVATE KEY` and `PUBLIC KEY` the algorithm in the contents says the
/// version.
///
/// The first fault is returned: `NotPem` if there is no block of a key; `TwoKeys` if there are several; `Encrypted` for
/// an encrypted key, whose label or first header says so; `OtherLabel` for a private key of OpenSSH; `InvalidDer` if
/// the contents under `PRIVATE KEY` or `PUBLIC KEY` are not those of the label; `OtherAlgorithm(Unknown)` if their
/// algorithm is none of the three; and otherwise the error of the reading by the version, which is none of
/// `OtherLabel` and `OtherAlgorithm`.
///
/// Source: RFC 7468, sections 2, 3, 10 and 13; RFC 5958, section 2; RFC 5280, section 4.1.
pub fn key_from_pem(alloc: Global, text: &str) -> Result<PemKey, PemError>
    ensures { ReadsAnyKey text.now result }
{
    let (label, contents) = read_text(alloc, text)?;
    key_in(alloc, label, &contents)
}

// The key that contents under a label are.
fn key_in(alloc: Global, label: Label, contents: &[u8]) -> Result<PemKey, PemError>
    ensures { ReadsHeldKey label contents.now result }
{
    match label {
        Label::PrivateKey => private_in(alloc, private_kind(contents)?, label, contents),
        Label::PublicKey => public_in(alloc, public_kind(contents)?, label, contents),
        Label::EcPrivateKey => private_in(alloc, Algorithm::EllipticCurve, label, contents),
        Label::RsaPrivateKey => private_in(alloc, Algorithm::Rsa, label, contents),
        Label::RsaPublicKey => public_in(alloc, Algorithm::Rsa, label, contents),
        Label::EncryptedPrivateKey | Label::OpenSshPrivateKey => Err(PemError::other_label(label)),
    }
}

// The algorithm of the private key in a OneAsymmetricKey.
fn private_kind(contents: &[u8]) -> Result<Algorithm, PemError>
    ensures found { IfOk result (λ kind. IsPrivateKind kind PrivateLabel contents.now) }
    ensures refused { IfErr result (IsNoKind PrivateLabel contents.now) }
{
    match read_private_info(contents) {
        Some(info) => Ok(algorithm_of(info.algorithm)),
        None => Err(PemError::InvalidDer),
    }
}

// The algorithm of the public key in a SubjectPublicKeyInfo.
fn public_kind(contents: &[u8]) -> Result<Algorithm, PemError>
    ensures found { IfOk result (λ kind. IsPublicKind kind PublicLabel contents.now) }
    ensures refused { IfErr result (IsNoKind PublicLabel contents.now) }
{
    match read_public_info(contents) {
        Some(info) => Ok(algorithm_of(info.algorithm)),
        None => Err(PemError::InvalidDer),
    }
}

// The private key of an algorithm.
fn private_in(
    alloc: Global,
    kind: Algorithm,
    label: Label,
    contents: &[u8],
) -> Result<PemKey, PemError>
    requires { IsPrivateKind kind label contents.now }
    ensures { ReadsHeldKey label contents.now result }
{
    match kind {
        Algorithm::Ed25519 => Ok(PemKey::Ed25519Private(private_key_in(alloc, label, contents)?)),
        Algorithm::EllipticCurve => Ok(PemKey::P384Private(private_key_in(
            alloc, label, contents,
        )?)),
        Algorithm::Rsa => Ok(PemKey::RsaPrivate(private_key_in(alloc, label, contents)?)),
        Algorithm::Unknown => Err(PemError::OtherAlgorithm(Algorithm::Unknown)),
    }
}

// The public key of an algorithm.
fn public_in(
    alloc: Global,
    kind: Algorithm,
    label: Label,
    contents: &[u8],
) -> Result<PemKey, PemError>
    requires { IsPublicKind kind label contents.now }
    ensures { ReadsHeldKey label contents.now result }
{
    match kind {
        Algorithm::Ed25519 => Ok(PemKey::Ed25519Public(public_key_in(alloc, label, contents)?)),
        Algorithm::EllipticCurve => Ok(PemKey::P384Public(public_key_in(alloc, label, contents)?)),
        Algorithm::Rsa => Ok(PemKey::RsaPublic(public_key_in(alloc, label, contents)?)),
        Algorithm::Unknown => Err(PemError::OtherAlgorithm(Algorithm::Unknown)),
    }
}
