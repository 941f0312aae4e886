//! The lines of keys, by their version and their type.

ghost use Rattle.std.specs.Prelude.{◌≡◌, ◌≢◌, ◌++◌, ℕ, List, length, IfErr, IfOk, IsTrue, MatchOption, string_bytes};
ghost use Rattle.std.proofs.Common.{rules};
ghost use Rattle.std.specs.Io.BufRead.{strip_last};
ghost use Rattle.paseto_rsa.specs.Forms.{IsPublic as IsRsaPublic};
ghost use Rattle.paseto_wrapping.specs.Keys.{IsWrappedForm};
ghost use Rattle.rusty_paseto_paserk.specs.Header.{HasHeader};
ghost use Rattle.rusty_paseto_paserk.specs.Rsa.{public_text};
ghost use Rattle.rusty_paseto_paserk.specs.Text.{writing};
ghost use Rattle.rusty_paseto_paserk.specs.declared.header.PaserkType.TheVariants.{Local as LocalKey, Public as PublicKeys, Secret as SecretKey};
ghost use Rattle.paseto_key_files.specs.Error.{IsMemory};
ghost use Rattle.paseto_key_files.specs.Line.{IsBeginFault, IsLocalKey, IsLocalLine, IsPaserkFault, IsPrivateFault, IsPrivateKey, IsPrivateLine, IsRsaPublicFault, IsRsaPublicLine, IsWritingOf, ReadsKey, WritesLine, private_line, without_line_end};

use crate::error::KeyFileError;
use paseto_wrapping::WrapError;
use rusty_paseto_parts::{Local, PasetoSymmetricKey, PrivateKey, PublicKey, V1, V2, V3, V4};
use rusty_paseto_paserk::{
    KeyPairVersion, KeyVersion, PaserkError, PaserkType, PaserkVersion, header_of,
    local_from_paserk, local_to_paserk, private_key_from_paserk, public_to_paserk,
    rsa_private_key_from_paserk, rsa_public_key_from_paserk, rsa_public_to_paserk,
    rsa_secret_to_paserk, secret_to_paserk,
};
use std::alloc::Global;

/// A version whose private keys have lines: 1 to 4.
pub(crate) trait LineVersion: KeyVersion {
    /// The line of a private key. `Wrap(InvalidKey)` is returned if its bytes are not a key of the version.
    fn private_line(alloc: Global, key: &PrivateKey<Self>) -> Result<String, KeyFileError>
        ensures { WritesLine (IsPrivateKey Self.paserk) (private_line Self.paserk) key.now result };

    /// The private key of a line.
    fn private_of(alloc: Global, line: &str) -> Result<PrivateKey<Self>, KeyFileError>
        ensures { ReadsKey (IsPrivateLine Self.paserk) (IsPrivateFault Self.paserk) line.now result };

    // What is wrapped of a private key of the version is unwrapped as one.
    ghost is_unwrapped: { (octets key : List ℕ) → IsWrappedForm Self.paserk octets key
        → IsTrue (Self.is_private_key key) };
}

impl LineVersion for V1 {
    fn private_line(alloc: Global, key: &PrivateKey<V1>) -> Result<String, KeyFileError> {
        rsa_private_line(alloc, key)
    }

    fn private_of(alloc: Global, line: &str) -> Result<PrivateKey<V1>, KeyFileError> {
        rsa_private_of(alloc, line)
    }

    ghost is_unwrapped = { Prim.search rules };
}

impl LineVersion for V2 {
    fn private_line(alloc: Global, key: &PrivateKey<V2>) -> Result<String, KeyFileError> {
        private_to_paserk(alloc, key)
    }

    fn private_of(alloc: Global, line: &str) -> Result<PrivateKey<V2>, KeyFileError> {
        private_from_paserk(alloc, line)
    }

    ghost is_unwrapped = { Prim.search rules };
}

impl LineVersion for V3 {
    fn private_line(alloc: Global, key: &PrivateKey<V3>) -> Result<String, KeyFileError> {
        private_to_paserk(alloc, key)
    }

    fn private_of(alloc: Global, line: &str) -> Result<PrivateKey<V3>, KeyFileError> {
        private_from_paserk(alloc, line)
    }

    ghost is_unwrapped = { Prim.search rules };
}

impl LineVersion for V4 {
    fn private_line(alloc: Global, key: &PrivateKey<V4>) -> Result<String, KeyFileError> {
        private_to_paserk(alloc, key)
    }

    fn private_of(alloc: Global, line: &str) -> Result<PrivateKey<V4>, KeyFileError> {
        private_from_paserk(alloc, line)
    }

    ghost is_unwrapped = { Prim.search rules };
}

/// The line of a key for local tokens. It fails only with `Memory`.
pub(crate) fn local_line<V: KeyVersion>(
    alloc: Global,
    key: &PasetoSymmetricKey<V, Local>,
) -> Result<String, KeyFileError>
    ensures ok { IfOk result (λ line. string_bytes line ≡ writing V.paserk LocalKey key.now) }
    ensures err { IfErr result IsMemory }
{
    Ok(local_to_paserk(alloc, key)?)
}

/// The line of a public key. It fails only with `Memory`.
pub(crate) fn public_line<V: KeyPairVersion>(
    alloc: Global,
    key: &PublicKey<V>,
) -> Result<String, KeyFileError>
    ensures ok { IfOk result (λ line. string_bytes line ≡ writing V.paserk PublicKeys key.now) }
    ensures err { IfErr result IsMemory }
{
    Ok(public_to_paserk(alloc, &key.lend())?)
}

/// A line that is a text itself. It fails only with `Memory`.
pub(crate) fn same_line(alloc: Global, text: &str) -> Result<String, KeyFileError>
    ensures ok { IfOk result (λ line. string_bytes line ≡ text.now) }
    ensures err { IfErr result IsMemory }
{
    Ok(String::from_str(alloc, text)?)
}

/// The key for local tokens of a line.
pub(crate) fn local_of<V: KeyVersion>(
    alloc: Global,
    line: &str,
) -> Result<PasetoSymmetricKey<V, Local>, KeyFileError>
    ensures { ReadsKey (IsLocalLine V.paserk) (IsPaserkFault V.paserk LocalKey IsLocalKey) line.now result }
{
    match local_from_paserk(alloc, line) {
        Ok(key) => Ok(key),
        Err(error) => Err(KeyFileError::from(error)),
    }
}

/// The line of a private key of version 1. `Wrap(InvalidKey)` is returned if its bytes are not such a key.
pub(crate) fn rsa_private_line(alloc: Global, key: &PrivateKey<V1>) -> Result<String, KeyFileError>
    ensures { WritesLine (IsPrivateKey PaserkVersion.V1) (private_line PaserkVersion.V1) key.now result }
{
    match rsa_secret_to_paserk(alloc, &key.lend()) {
        Ok(line) => Ok(line),
        Err(PaserkError::Memory(source)) => Err(KeyFileError::Memory(source)),
        Err(_) => Err(KeyFileError::Wrap(WrapError::InvalidKey)),
    }
}

/// The line of a public key of version 1. `Wrap(InvalidKey)` is returned if its bytes are not such a key.
pub(crate) fn rsa_public_line(alloc: Global, key: &PublicKey<V1>) -> Result<String, KeyFileError>
    ensures { WritesLine IsRsaPublic public_text key.now result }
{
    match rsa_public_to_paserk(alloc, &key.lend()) {
        Ok(line) => Ok(line),
        Err(PaserkError::Memory(source)) => Err(KeyFileError::Memory(source)),
        Err(_) => Err(KeyFileError::Wrap(WrapError::InvalidKey)),
    }
}

/// The private key of a line of version 1.
pub(crate) fn rsa_private_of(alloc: Global, line: &str) -> Result<PrivateKey<V1>, KeyFileError>
    ensures { ReadsKey (IsPrivateLine PaserkVersion.V1) (IsPrivateFault PaserkVersion.V1) line.now result }
{
    match rsa_private_key_from_paserk(alloc, line) {
        Ok(key) => Ok(key),
        Err(error) => Err(KeyFileError::from(error)),
    }
}

/// The public key of a line of version 1.
pub(crate) fn rsa_public_of(alloc: Global, line: &str) -> Result<PublicKey<V1>, KeyFileError>
    ensures { ReadsKey IsRsaPublicLine IsRsaPublicFault line.now result }
{
    match rsa_public_key_from_paserk(alloc, line) {
        Ok(key) => Ok(key),
        Err(error) => Err(KeyFileError::from(error)),
    }
}

/// The text of a private key in PASERK. `Wrap(InvalidKey)` is returned if it has another length than the version's
/// private keys.
pub(crate) fn private_to_paserk<V: KeyPairVersion>(
    alloc: Global,
    key: &PrivateKey<V>,
) -> Result<String, KeyFileError>
    ensures { WritesLine (λ key. length key ≡ V.secret_length) (writing V.paserk SecretKey) key.now result }
{
    match secret_to_paserk(alloc, &key.lend()) {
        Ok(line) => Ok(line),
        Err(PaserkError::Memory(source)) => Err(KeyFileError::Memory(source)),
        Err(_) => Err(KeyFileError::Wrap(WrapError::InvalidKey)),
    }
}

// The private key of a text in PASERK.
fn private_from_paserk<V: KeyPairVersion>(
    alloc: Global,
    line: &str,
) -> Result<PrivateKey<V>, KeyFileError>
    ensures { ReadsKey (IsWritingOf V.paserk SecretKey (λ key. length key ≡ V.secret_length))
        (IsPaserkFault V.paserk SecretKey (λ key. length key ≡ V.secret_length)) line.now result }
{
    match private_key_from_paserk(alloc, line) {
        Ok(key) => Ok(key),
        Err(error) => Err(KeyFileError::from(error)),
    }
}

/// The version and the type in the header of a line.
pub(crate) fn begins_as(line: &str) -> Result<(PaserkVersion, PaserkType), KeyFileError>
    ensures found { IfOk result (λ found. HasHeader found.0 found.1 line.now) }
    ensures none { IfErr result (IsBeginFault line.now) }
{
    match header_of(line) {
        Some((version, kind, _)) => Ok((version, kind)),
        None => Err(KeyFileError::Paserk(PaserkError::NoKey)),
    }
}

/// A text without its line end: LF, or CR and LF.
pub(crate) fn without_line_end(text: &str) -> &str
    ensures { result.now ≡ without_line_end text.now }
{
    match before(text, "\n") {
        Some(line) => without_return(line),
        None => text,
    }
}

// A text without the CR at its end, where it has one.
fn without_return(text: &str) -> &str
    ensures { result.now ≡ strip_last 13 text.now }
{
    match before(text, "\r") {
        Some(line) => line,
        None => text,
    }
}

// What stands in front of the end of a text, where it ends so.
fn before<'a>(text: &'a str, end: &str) -> Option<&'a str>
    ensures { MatchOption result ((front : List ℕ) → text.now ≢ front ++ end.now)
        (λ front. text.now ≡ front.now ++ end.now) }
{
    text.strip_suffix(end)
}
