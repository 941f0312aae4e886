//! Keys as lines: what programs store of a key.

ghost use Rattle.std.specs.Prelude.{◌≡◌, length, IsTrue};
ghost use Rattle.rusty_paseto_paserk.specs.declared.header.PaserkType.TheVariants.{Local as LocalKey, Public as PublicKeys, Secret};
ghost use Rattle.paseto_key_files.specs.Line.{IsLocalKey, IsPaserkFault, IsPrivateFault, IsPrivateLine, IsRsaPublicFault, IsRsaPublicLine, IsWritingOf, ReadsKey};
ghost use Rattle.paseto_keys.specs.Line.{GivesKey, IsLineFault, IsLineOf, IsPaserkFaultOf, IsPaserkIn};

use crate::any_key::AnyKey;
use paseto_key_files::KeyFileError;
use rusty_paseto_core::{Local, PasetoSymmetricKey, PrivateKey, PublicKey, V1};
use rusty_paseto_paserk::{
    KeyPairVersion, KeyVersion, PaserkError, PaserkType, PaserkVersion, header_of,
    local_from_paserk, private_key_from_paserk, public_key_from_paserk,
    rsa_private_key_from_paserk, rsa_public_key_from_paserk,
};
use std::alloc::Global;

impl AnyKey {
    /// The key of a line, its text in PASERK, such as `k4.local...`. The line has no line end.
    ///
    /// `Paserk(NoKey)` is returned if the line begins like no key, and `Paserk(InvalidKey)` if what follows the header
    /// is not the base64url encoding of a key. Otherwise it fails only with `Memory`.
    ///
    /// Source: PASERK specification, types `local`, `secret` and `public`.
    pub fn from_line(alloc: Global, line: &str) -> Result<AnyKey, KeyFileError>
        ensures { GivesKey (IsLineOf line.now) (IsLineFault line.now) result }
    {
        match header_of(line) {
            Some((version, kind, _)) => paserk_key(alloc, kind, version, line),
            None => Err(KeyFileError::Paserk(PaserkError::NoKey)),
        }
    }
}

// The key of a line that begins like one of a type and a version.
fn paserk_key(
    alloc: Global,
    kind: PaserkType,
    version: PaserkVersion,
    line: &str,
) -> Result<AnyKey, KeyFileError>
    ensures { GivesKey (IsPaserkIn kind version line.now) (IsPaserkFaultOf kind version line.now) result }
{
    match kind {
        PaserkType::Local => local_key(alloc, version, line),
        PaserkType::Secret => private_key(alloc, version, line),
        PaserkType::Public => public_key(alloc, version, line),
    }
}

#[tactic(auto, using(crate::proofs::LineLaws::key_read, crate::proofs::LineLaws::key_refused))]
fn local_key(alloc: Global, version: PaserkVersion, line: &str) -> Result<AnyKey, KeyFileError>
    ensures { GivesKey (IsPaserkIn LocalKey version line.now) (IsPaserkFaultOf LocalKey version line.now)
        result }
{
    match version {
        PaserkVersion::V1 => Ok(AnyKey::V1Local(local_of(alloc, line)?)),
        PaserkVersion::V2 => Ok(AnyKey::V2Local(local_of(alloc, line)?)),
        PaserkVersion::V3 => Ok(AnyKey::V3Local(local_of(alloc, line)?)),
        PaserkVersion::V4 => Ok(AnyKey::V4Local(local_of(alloc, line)?)),
    }
}

#[tactic(auto, using(crate::proofs::LineLaws::key_read, crate::proofs::LineLaws::key_refused))]
fn private_key(alloc: Global, version: PaserkVersion, line: &str) -> Result<AnyKey, KeyFileError>
    ensures { GivesKey (IsPaserkIn Secret version line.now) (IsPaserkFaultOf Secret version line.now)
        result }
{
    match version {
        PaserkVersion::V1 => Ok(AnyKey::V1Secret(rsa_private_of(alloc, line)?)),
        PaserkVersion::V2 => Ok(AnyKey::V2Secret(private_of(alloc, line)?)),
        PaserkVersion::V3 => Ok(AnyKey::V3Secret(private_of(alloc, line)?)),
        PaserkVersion::V4 => Ok(AnyKey::V4Secret(private_of(alloc, line)?)),
    }
}

#[tactic(auto, using(crate::proofs::LineLaws::key_read, crate::proofs::LineLaws::key_refused))]
fn public_key(alloc: Global, version: PaserkVersion, line: &str) -> Result<AnyKey, KeyFileError>
    ensures { GivesKey (IsPaserkIn PublicKeys version line.now)
        (IsPaserkFaultOf PublicKeys version line.now) result }
{
    match version {
        PaserkVersion::V1 => Ok(AnyKey::V1Public(rsa_public_of(alloc, line)?)),
        PaserkVersion::V2 => Ok(AnyKey::V2Public(public_of(alloc, line)?)),
        PaserkVersion::V3 => Ok(AnyKey::V3Public(public_of(alloc, line)?)),
        PaserkVersion::V4 => Ok(AnyKey::V4Public(public_of(alloc, line)?)),
    }
}

// The key for local tokens of a line, in one version.
fn local_of<V: KeyVersion>(
    alloc: Global,
    line: &str,
) -> Result<PasetoSymmetricKey<V, Local>, KeyFileError>
    ensures { ReadsKey (IsWritingOf V.paserk LocalKey IsLocalKey)
        (IsPaserkFault V.paserk LocalKey IsLocalKey) line.now result }
{
    match local_from_paserk(alloc, line) {
        Ok(key) => Ok(key),
        Err(error) => Err(KeyFileError::from(error)),
    }
}

// The private key of a line, in one version.
fn private_of<V: KeyPairVersion>(alloc: Global, line: &str) -> Result<PrivateKey<V>, KeyFileError>
    ensures { ReadsKey (IsWritingOf V.paserk Secret (λ key. length key ≡ V.secret_length))
        (IsPaserkFault V.paserk Secret (λ key. length key ≡ V.secret_length)) line.now result }
{
    match private_key_from_paserk(alloc, line) {
        Ok(key) => Ok(key),
        Err(error) => Err(KeyFileError::from(error)),
    }
}

// The public key of a line, in one version.
fn public_of<V: KeyPairVersion>(alloc: Global, line: &str) -> Result<PublicKey<V>, KeyFileError>
    ensures { ReadsKey (IsWritingOf V.paserk PublicKeys (λ key. IsTrue (V.is_public_key key)))
        (IsPaserkFault V.paserk PublicKeys (λ key. IsTrue (V.is_public_key key))) line.now result }
{
    match public_key_from_paserk(alloc, line) {
        Ok(key) => Ok(key),
        Err(error) => Err(KeyFileError::from(error)),
    }
}

// The private key of a line, of version 1.
fn rsa_private_of(alloc: Global, line: &str) -> Result<PrivateKey<V1>, KeyFileError>
    ensures { ReadsKey (IsPrivateLine PaserkVersion.V1) (IsPrivateFault PaserkVersion.V1) line.now result }
{
    match rsa_private_key_from_paserk(alloc, line) {
        Ok(key) => Ok(key),
        Err(error) => Err(KeyFileError::from(error)),
    }
}

// The public key of a line, of version 1.
fn rsa_public_of(alloc: Global, line: &str) -> Result<PublicKey<V1>, KeyFileError>
    ensures { ReadsKey IsRsaPublicLine IsRsaPublicFault line.now result }
{
    match rsa_public_key_from_paserk(alloc, line) {
        Ok(key) => Ok(key),
        Err(error) => Err(KeyFileError::from(error)),
    }
}
