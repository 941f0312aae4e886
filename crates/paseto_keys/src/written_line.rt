//! The lines of keys.

ghost use Rattle.std.specs.Prelude.{◌≡◌, length};
ghost use Rattle.paseto_rsa.specs.Forms.{IsPublic as IsRsaPublic};
ghost use Rattle.paseto_rsa.specs.Keys.{IsPrivate as IsRsaPrivate};
ghost use Rattle.rusty_paseto_paserk.specs.Rsa.{public_text, secret_text};
ghost use Rattle.rusty_paseto_paserk.specs.Text.{writing};
ghost use Rattle.rusty_paseto_paserk.specs.declared.header.PaserkType.TheVariants.{Local as LocalKey, Public as PublicKeys, Secret};
ghost use Rattle.paseto_keys.specs.AnyKey.{parts_of};
ghost use Rattle.paseto_keys.specs.WrittenLine.{HasNoLength, IsNoKey, WritesIn, WritesLine};

use crate::any_key::AnyKey;
use paseto_key_files::KeyFileError;
use rusty_paseto_core::{Local, PasetoSymmetricKey, PrivateKey, PublicKey, V1};
use rusty_paseto_paserk::{
    KeyPairVersion, KeyVersion, local_to_paserk, public_to_paserk, rsa_public_to_paserk,
    rsa_secret_to_paserk, secret_to_paserk,
};
use std::alloc::Global;

impl AnyKey {
    /// The line of the key, which `from_line` reads: its text in PASERK, such as `k4.local...`. The line of a secret key
    /// is as secret as the key.
    ///
    /// `Paserk(InvalidKey)` is returned for a private key that does not have the length of its version's, and for a key
    /// pair of version 1 that is not one of RSA of 2048 bits. Otherwise it fails only with `Memory`.
    ///
    /// Source: PASERK specification, types `local`, `secret` and `public`.
    pub fn to_line(&self, alloc: Global) -> Result<String, KeyFileError>
        ensures { WritesLine (parts_of self.now) result }
    {
        match self {
            AnyKey::V1Local(key) => local_line(alloc, key),
            AnyKey::V2Local(key) => local_line(alloc, key),
            AnyKey::V3Local(key) => local_line(alloc, key),
            AnyKey::V4Local(key) => local_line(alloc, key),
            AnyKey::V1Secret(key) => rsa_private_line(alloc, key),
            AnyKey::V2Secret(key) => private_line(alloc, key),
            AnyKey::V3Secret(key) => private_line(alloc, key),
            AnyKey::V4Secret(key) => private_line(alloc, key),
            AnyKey::V1Public(key) => rsa_public_line(alloc, key),
            AnyKey::V2Public(key) => public_line(alloc, key),
            AnyKey::V3Public(key) => public_line(alloc, key),
            AnyKey::V4Public(key) => public_line(alloc, key),
        }
    }
}

// The line of a key for local tokens.
fn local_line<V: KeyVersion>(
    alloc: Global,
    key: &PasetoSymmetricKey<V, Local>,
) -> Result<String, KeyFileError>
    ensures { WritesIn (λ line. line ≡ writing V.paserk LocalKey key.now) (λ error. ⊥) result }
{
    match local_to_paserk(alloc, key) {
        Ok(line) => Ok(line),
        Err(error) => Err(KeyFileError::from(error)),
    }
}

// The line of a private key.
fn private_line<V: KeyPairVersion>(
    alloc: Global,
    key: &PrivateKey<V>,
) -> Result<String, KeyFileError>
    ensures { WritesIn
        (λ line. (length key.now ≡ V.secret_length) × (line ≡ writing V.paserk Secret key.now))
        (HasNoLength V.secret_length key.now) result }
{
    match secret_to_paserk(alloc, &key.lend()) {
        Ok(line) => Ok(line),
        Err(error) => Err(KeyFileError::from(error)),
    }
}

// The line of a public key.
fn public_line<V: KeyPairVersion>(alloc: Global, key: &PublicKey<V>) -> Result<String, KeyFileError>
    ensures { WritesIn (λ line. line ≡ writing V.paserk PublicKeys key.now) (λ error. ⊥) result }
{
    match public_to_paserk(alloc, &key.lend()) {
        Ok(line) => Ok(line),
        Err(error) => Err(KeyFileError::from(error)),
    }
}

// The line of a private key of version 1.
fn rsa_private_line(alloc: Global, key: &PrivateKey<V1>) -> Result<String, KeyFileError>
    ensures { WritesIn (λ line. IsRsaPrivate key.now × (line ≡ secret_text key.now))
        (IsNoKey IsRsaPrivate key.now) result }
{
    match rsa_secret_to_paserk(alloc, &key.lend()) {
        Ok(line) => Ok(line),
        Err(error) => Err(KeyFileError::from(error)),
    }
}

// The line of a public key of version 1.
fn rsa_public_line(alloc: Global, key: &PublicKey<V1>) -> Result<String, KeyFileError>
    ensures { WritesIn (λ line. IsRsaPublic key.now × (line ≡ public_text key.now))
        (IsNoKey IsRsaPublic key.now) result }
{
    match rsa_public_to_paserk(alloc, &key.lend()) {
        Ok(line) => Ok(line),
        Err(error) => Err(KeyFileError::from(error)),
    }
}
