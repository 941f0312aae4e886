//! The versions whose keys can be written in PEM.

ghost use Rattle.std.specs.Prelude.{IfOk, IsTrue};
ghost use Rattle.paseto_pem.specs.Ed25519.{IsPrivateFault, IsPrivateOf, IsPrivateWritten, IsPublicFault, IsPublicOf};
ghost use Rattle.paseto_pem.specs.P384.{IsPrivateFault as IsCurvePrivateFault, IsPrivateOf as IsCurvePrivateOf, IsPrivateWritten as IsCurvePrivateWritten, IsPublicFault as IsCurvePublicFault, IsPublicOf as IsCurvePublicOf, IsPublicWritten as IsCurvePublicWritten};
ghost use Rattle.paseto_pem.specs.Rsa.{IsPrivateFault as IsRsaPrivateFault, IsPrivateOf as IsRsaPrivateOf, IsPrivateWritten as IsRsaPrivateWritten, IsPublicFault as IsRsaPublicFault, IsPublicOf as IsRsaPublicOf, IsPublicWritten as IsRsaPublicWritten};
ghost use Rattle.paseto_pem.specs.Key.{Contents, Faults, IsWithin, ReadsContents, WritesContents};
ghost use Rattle.paseto_pem.specs.declared.label.Label.TheVariants.{PrivateKey, PublicKey};

use crate::error::PemError;
use crate::label::Label;
use crate::{ed25519, p384, rsa};
use rusty_paseto_parts::{V1, V2, V3, V4, VersionTrait};
use std::alloc::Global;

/// A version whose keys can be written in PEM: 1 to 4.
pub trait PemVersion: VersionTrait {
    // Which contents under which label are which private key.
    ghost is_private_of: { Contents };

    // Why contents under a label are no private key.
    ghost is_private_fault: { Faults };

    // Which contents under which label are written of which private key.
    ghost is_private_written: { Contents };

    // Which contents under which label are which public key.
    ghost is_public_of: { Contents };

    // Why contents under a label are no public key.
    ghost is_public_fault: { Faults };

    // Which contents under which label are written of which public key.
    ghost is_public_written: { Contents };

    // What is written is read.
    ghost private_is_read: { IsWithin is_private_written is_private_of };

    // What is written is read.
    ghost public_is_read: { IsWithin is_public_written is_public_of };

    /// The bytes of the private key in the contents of a text with this label.
    fn read_private(alloc: Global, label: Label, contents: &[u8]) -> Result<Vec<u8>, PemError>
        ensures read { ReadsContents is_private_of is_private_fault label contents.now result }
        ensures form { IfOk result (λ key. IsTrue (Self.is_private_key key.items)) };

    /// The bytes of the public key in the contents of a text with this label.
    fn read_public(alloc: Global, label: Label, contents: &[u8]) -> Result<Vec<u8>, PemError>
        ensures read { ReadsContents is_public_of is_public_fault label contents.now result }
        ensures form { IfOk result (λ key. IsTrue (Self.is_public_key key.items)) };

    /// The contents of the text of a private key, whose label is `PrivateKey`.
    fn write_private(alloc: Global, key: &[u8]) -> Result<Vec<u8>, PemError>
        ensures { WritesContents is_private_written PrivateKey key.now result };

    /// The contents of the text of a public key, whose label is `PublicKey`.
    fn write_public(alloc: Global, key: &[u8]) -> Result<Vec<u8>, PemError>
        ensures { WritesContents is_public_written PublicKey key.now result };
}

impl PemVersion for V1 {
    ghost is_private_of = { IsRsaPrivateOf };

    ghost is_private_fault = { IsRsaPrivateFault };

    ghost is_private_written = { IsRsaPrivateWritten };

    ghost is_public_of = { IsRsaPublicOf };

    ghost is_public_fault = { IsRsaPublicFault };

    ghost is_public_written = { IsRsaPublicWritten };

    ghost private_is_read = { λ label contents key p. p.1 };

    ghost public_is_read = { λ label contents key p. p.1 };

    fn read_private(alloc: Global, label: Label, contents: &[u8]) -> Result<Vec<u8>, PemError> {
        rsa::read_private(alloc, label, contents)
    }

    fn read_public(alloc: Global, label: Label, contents: &[u8]) -> Result<Vec<u8>, PemError> {
        rsa::read_public(alloc, label, contents)
    }

    fn write_private(alloc: Global, key: &[u8]) -> Result<Vec<u8>, PemError> {
        rsa::write_private(alloc, key)
    }

    fn write_public(alloc: Global, key: &[u8]) -> Result<Vec<u8>, PemError> {
        rsa::write_public(alloc, key)
    }
}

impl PemVersion for V2 {
    ghost is_private_of = { IsPrivateOf };

    ghost is_private_fault = { IsPrivateFault };

    ghost is_private_written = { IsPrivateWritten };

    ghost is_public_of = { IsPublicOf };

    ghost is_public_fault = { IsPublicFault };

    ghost is_public_written = { IsPublicOf };

    ghost private_is_read = { λ label contents key p. p.1 };

    ghost public_is_read = { λ label contents key p. p };

    fn read_private(alloc: Global, label: Label, contents: &[u8]) -> Result<Vec<u8>, PemError> {
        ed25519::read_private(alloc, label, contents)
    }

    fn read_public(alloc: Global, label: Label, contents: &[u8]) -> Result<Vec<u8>, PemError> {
        ed25519::read_public(alloc, label, contents)
    }

    fn write_private(alloc: Global, key: &[u8]) -> Result<Vec<u8>, PemError> {
        ed25519::write_private(alloc, key)
    }

    fn write_public(alloc: Global, key: &[u8]) -> Result<Vec<u8>, PemError> {
        ed25519::write_public(alloc, key)
    }
}

impl PemVersion for V3 {
    ghost is_private_of = { IsCurvePrivateOf };

    ghost is_private_fault = { IsCurvePrivateFault };

    ghost is_private_written = { IsCurvePrivateWritten };

    ghost is_public_of = { IsCurvePublicOf };

    ghost is_public_fault = { IsCurvePublicFault };

    ghost is_public_written = { IsCurvePublicWritten };

    ghost private_is_read = { λ label contents key p. p.1 };

    ghost public_is_read = { λ label contents key p. p.1 };

    fn read_private(alloc: Global, label: Label, contents: &[u8]) -> Result<Vec<u8>, PemError> {
        p384::read_private(alloc, label, contents)
    }

    fn read_public(alloc: Global, label: Label, contents: &[u8]) -> Result<Vec<u8>, PemError> {
        p384::read_public(alloc, label, contents)
    }

    fn write_private(alloc: Global, key: &[u8]) -> Result<Vec<u8>, PemError> {
        p384::write_private(alloc, key)
    }

    fn write_public(alloc: Global, key: &[u8]) -> Result<Vec<u8>, PemError> {
        p384::write_public(alloc, key)
    }
}

impl PemVersion for V4 {
    ghost is_private_of = { IsPrivateOf };

    ghost is_private_fault = { IsPrivateFault };

    ghost is_private_written = { IsPrivateWritten };

    ghost is_public_of = { IsPublicOf };

    ghost is_public_fault = { IsPublicFault };

    ghost is_public_written = { IsPublicOf };

    ghost private_is_read = { λ label contents key p. p.1 };

    ghost public_is_read = { λ label contents key p. p };

    fn read_private(alloc: Global, label: Label, contents: &[u8]) -> Result<Vec<u8>, PemError> {
        ed25519::read_private(alloc, label, contents)
    }

    fn read_public(alloc: Global, label: Label, contents: &[u8]) -> Result<Vec<u8>, PemError> {
        ed25519::read_public(alloc, label, contents)
    }

    fn write_private(alloc: Global, key: &[u8]) -> Result<Vec<u8>, PemError> {
        ed25519::write_private(alloc, key)
    }

    fn write_public(alloc: Global, key: &[u8]) -> Result<Vec<u8>, PemError> {
        ed25519::write_public(alloc, key)
    }
}
