//! Keys in PEM.

ghost use Rattle.std.specs.Prelude.{◌≡◌, ℕ, List, length, IfErr, IfOk, IsTrue, string_bytes};
ghost use Rattle.paseto_pem.specs.PemKey.{IsPemKey};
ghost use Rattle.paseto_pem.specs.Rsa.{IsPrivateWritten as IsRsaPrivateWritten, IsPublicWritten as IsRsaPublicWritten};
ghost use Rattle.paseto_pem.specs.declared.label.Label.TheVariants.{PrivateKey as PrivateLabel, PublicKey as PublicLabel};
ghost use Rattle.rusty_paseto_paserk.specs.declared.header.PaserkType.TheVariants.{Public as PublicKeys, Secret};
ghost use Rattle.paseto_key_files.specs.Error.{IsMemory};
ghost use Rattle.paseto_key_files.specs.Held.{GivesLine};
ghost use Rattle.paseto_key_files.specs.Line.{IsPrivateFault, IsPrivateLine, IsRsaPublicFault, IsRsaPublicLine, IsWritingOf};
ghost use Rattle.paseto_key_files.specs.Pem.{IsNotToPem, IsToPem, PemLine, PemLineFault, WritesNoPem, WritesNoPemAs, WritesPem, WritesPemAs, line_of};

use crate::error::KeyFileError;
use crate::line::{
    private_to_paserk, public_line, rsa_private_line, rsa_private_of, rsa_public_line,
    rsa_public_of,
};
use paseto_pem::{PemKey, PemVersion, key_from_pem, private_key_to_pem, public_key_to_pem};
use rusty_paseto_parts::{V1, V3, V4};
use rusty_paseto_paserk::{
    KeyPairVersion, PaserkError, PaserkType, PaserkVersion, header_of, private_key_from_paserk,
    public_key_from_paserk,
};
use std::alloc::Global;

/// The line of the key whose text in PEM this is. A key of Ed25519 is taken as one of version 4, since PEM does not
/// tell versions 2 and 4 apart.
pub(crate) fn line_of_pem(alloc: Global, text: &str) -> Result<String, KeyFileError>
    ensures { GivesLine (PemLine text.now) (PemLineFault text.now) result }
{
    match key_from_pem(alloc, text) {
        Ok(key) => line_of_key(alloc, &key),
        Err(error) => Err(KeyFileError::from(error)),
    }
}

// The line of a key that was read in PEM. It fails only with `Memory`.
fn line_of_key(alloc: Global, key: &PemKey) -> Result<String, KeyFileError>
    requires { (text : List ℕ) × IsPemKey key.now text }
    ensures ok { IfOk result (λ line. string_bytes line ≡ line_of key.now) }
    ensures err { IfErr result IsMemory }
{
    match key {
        PemKey::RsaPrivate(key) => rsa_private_line(alloc, key),
        PemKey::RsaPublic(key) => rsa_public_line(alloc, key),
        PemKey::P384Private(key) => private_to_paserk(alloc, key),
        PemKey::P384Public(key) => public_line(alloc, key),
        PemKey::Ed25519Private(key) => private_to_paserk(alloc, key),
        PemKey::Ed25519Public(key) => public_line(alloc, key),
    }
}

/// The key of a line in PEM, byte for byte as `openssl pkey` writes it.
///
/// `LocalInPem` is returned if the line begins like that of a key for local tokens, `SecondInPem` if it is one of
/// version 2, `Paserk` if it is not that of a key, and `Pem(InvalidKey)` if the key is not valid: a private key of
/// version 4 whose last 32 bytes are not the public key of the others, a private key of version 3 that is not one of
/// the curve, or a public key of version 3 that is not a point. Otherwise it fails only with `Memory`.
///
/// Source: RFC 7468, sections 3, 10 and 13.
pub fn pem_of(alloc: Global, line: &str) -> Result<String, KeyFileError>
    ensures ok { IfOk result (λ text. WritesPem line.now (string_bytes text)) }
    ensures err { IfErr result (WritesNoPem line.now) }
{
    match header_of(line) {
        Some((version, kind, _)) => pem_in(alloc, version, kind, line),
        None => Err(KeyFileError::Paserk(PaserkError::NoKey)),
    }
}

fn pem_in(
    alloc: Global,
    version: PaserkVersion,
    kind: PaserkType,
    line: &str,
) -> Result<String, KeyFileError>
    ensures ok { IfOk result (λ text. WritesPemAs version kind line.now (string_bytes text)) }
    ensures err { IfErr result (WritesNoPemAs version kind line.now) }
{
    match kind {
        PaserkType::Local => Err(KeyFileError::LocalInPem),
        PaserkType::Secret => private_pem_in(alloc, version, line),
        PaserkType::Public => public_pem_in(alloc, version, line),
    }
}

fn private_pem_in(alloc: Global, version: PaserkVersion, line: &str) -> Result<String, KeyFileError>
    ensures ok { IfOk result (λ text. WritesPemAs version Secret line.now (string_bytes text)) }
    ensures err { IfErr result (WritesNoPemAs version Secret line.now) }
{
    match version {
        PaserkVersion::V1 => rsa_private_pem(alloc, line),
        PaserkVersion::V2 => Err(KeyFileError::SecondInPem),
        PaserkVersion::V3 => private_pem::<V3>(alloc, line),
        PaserkVersion::V4 => private_pem::<V4>(alloc, line),
    }
}

fn public_pem_in(alloc: Global, version: PaserkVersion, line: &str) -> Result<String, KeyFileError>
    ensures ok { IfOk result (λ text. WritesPemAs version PublicKeys line.now (string_bytes text)) }
    ensures err { IfErr result (WritesNoPemAs version PublicKeys line.now) }
{
    match version {
        PaserkVersion::V1 => rsa_public_pem(alloc, line),
        PaserkVersion::V2 => Err(KeyFileError::SecondInPem),
        PaserkVersion::V3 => public_pem::<V3>(alloc, line),
        PaserkVersion::V4 => public_pem::<V4>(alloc, line),
    }
}

// The text of a private key, in one version.
fn private_pem<V: KeyPairVersion + PemVersion>(
    alloc: Global,
    line: &str,
) -> Result<String, KeyFileError>
    ensures ok { IfOk result (λ text. IsToPem
        (IsWritingOf V.paserk Secret (λ key. length key ≡ V.secret_length)) V.is_private_written PrivateLabel
        line.now (string_bytes text)) }
    ensures err { IfErr result (IsNotToPem V.paserk Secret (λ key. length key ≡ V.secret_length)
        V.is_private_written PrivateLabel line.now) }
{
    let key = private_key_from_paserk::<V>(alloc, line)?;
    Ok(private_key_to_pem(alloc, &key.lend())?)
}

// The text of a public key, in one version.
fn public_pem<V: KeyPairVersion + PemVersion>(
    alloc: Global,
    line: &str,
) -> Result<String, KeyFileError>
    ensures ok { IfOk result (λ text. IsToPem
        (IsWritingOf V.paserk PublicKeys (λ key. IsTrue (V.is_public_key key))) V.is_public_written PublicLabel
        line.now (string_bytes text)) }
    ensures err { IfErr result (IsNotToPem V.paserk PublicKeys (λ key. IsTrue (V.is_public_key key))
        V.is_public_written PublicLabel line.now) }
{
    let key = public_key_from_paserk::<V>(alloc, line)?;
    Ok(public_key_to_pem(alloc, &key.lend())?)
}

// The text of a private key of version 1.
fn rsa_private_pem(alloc: Global, line: &str) -> Result<String, KeyFileError>
    ensures ok { IfOk result (λ text. IsToPem (IsPrivateLine PaserkVersion.V1) IsRsaPrivateWritten PrivateLabel
        line.now (string_bytes text)) }
    ensures err { IfErr result (IsPrivateFault PaserkVersion.V1 line.now) }
{
    let key = rsa_private_of(alloc, line)?;
    Ok(private_key_to_pem::<V1>(alloc, &key.lend())?)
}

// The text of a public key of version 1.
fn rsa_public_pem(alloc: Global, line: &str) -> Result<String, KeyFileError>
    ensures ok { IfOk result (λ text. IsToPem IsRsaPublicLine IsRsaPublicWritten PublicLabel
        line.now (string_bytes text)) }
    ensures err { IfErr result (IsRsaPublicFault line.now) }
{
    let key = rsa_public_of(alloc, line)?;
    Ok(public_key_to_pem::<V1>(alloc, &key.lend())?)
}
