//! Writing the keys of tokens as text, and reading them.

ghost use Rattle.std.specs.Prelude.{◌≡◌, length, IsTrue, IfOk, IfErr, MatchResult, string_bytes};
ghost use Rattle.rusty_paseto_paserk.specs.declared.header.PaserkType.TheVariants.{Local as LocalKey, Secret, Public as PublicKeys};
ghost use Rattle.rusty_paseto_paserk.specs.Error.{IsMemory};
ghost use Rattle.rusty_paseto_paserk.specs.Text.{ReadsKey, WritesSecret, writing};

use crate::error::PaserkError;
use crate::header::PaserkType;
use crate::text::{read_bytes, write_key};
use crate::versions::{KeyPairVersion, KeyVersion};
use rusty_paseto_parts::{
    Key, Local, PasetoAsymmetricPrivateKey, PasetoAsymmetricPublicKey, PasetoSymmetricKey,
    PrivateKey, Public, PublicKey,
};
use std::alloc::Global;

/// The text of a key for local tokens, for example `k4.local.` and 43 characters. It fails only with `Memory`.
///
/// Source: PASERK specification, type `local`.
pub fn local_to_paserk<V: KeyVersion>(
    alloc: Global,
    key: &PasetoSymmetricKey<V, Local>,
) -> Result<String, PaserkError>
    ensures ok { IfOk result (λ text. string_bytes text ≡ writing V.paserk LocalKey key.now) }
    ensures err { IfErr result IsMemory }
{
    write_key(
        alloc,
        V::paserk_version(),
        PaserkType::Local,
        key.as_bytes(),
    )
}

/// The key for local tokens with this text.
///
/// Reading is strict: any text that is not the text of a key of version `V` is refused. `NoKey` is returned if it does
/// not begin like a key, `OtherVersion` and `OtherType` if it begins like a key of another version or type, and
/// `InvalidKey` if what follows is not the base64url encoding of 32 bytes.
///
/// Source: PASERK specification, type `local`.
pub fn local_from_paserk<V: KeyVersion>(
    alloc: Global,
    text: &str,
) -> Result<PasetoSymmetricKey<V, Local>, PaserkError>
    ensures { ReadsKey V.paserk LocalKey (λ key. length key ≡ 32) text.now result }
{
    let bytes = read_bytes(alloc, V::paserk_version(), PaserkType::Local, text)?;
    if bytes.len() != 32 {
        return Err(PaserkError::InvalidKey);
    }
    Ok(PasetoSymmetricKey::from(Key::from_slice(&bytes)))
}

/// The text of the private key of a key pair, for example `k4.secret.` and 86 characters.
///
/// `InvalidKey` is returned if and only if the key does not have the length of the version's private keys: 64 bytes in
/// versions 2 and 4, 48 in version 3.
///
/// Source: PASERK specification, type `secret`.
pub fn secret_to_paserk<V: KeyPairVersion>(
    alloc: Global,
    key: &PasetoAsymmetricPrivateKey<'_, V, Public>,
) -> Result<String, PaserkError>
    ensures { WritesSecret V.paserk V.secret_length key.now result }
{
    let bytes = key.as_bytes();
    if bytes.len() != V::secret_length() {
        return Err(PaserkError::InvalidKey);
    }
    write_key(alloc, V::paserk_version(), PaserkType::Secret, bytes)
}

/// The bytes of the private key with this text: `N` is 64 in versions 2 and 4, and 48 in version 3.
///
/// The errors are those of `local_from_paserk`. In versions 2 and 4 the last 32 bytes are the public key; this does not
/// check that they belong to the others.
///
/// Source: PASERK specification, type `secret`.
pub fn secret_from_paserk<V: KeyPairVersion, const N: usize>(
    alloc: Global,
    text: &str,
) -> Result<Key<N>, PaserkError>
    requires { N ≡ V.secret_length }
    ensures { ReadsKey V.paserk Secret (λ key. length key ≡ N) text.now result }
{
    let bytes = read_bytes(alloc, V::paserk_version(), PaserkType::Secret, text)?;
    if bytes.len() != N {
        return Err(PaserkError::InvalidKey);
    }
    Ok(Key::from_slice(&bytes))
}

/// The private key with this text, which owns its bytes. The errors are those of `secret_from_paserk`.
///
/// Source: PASERK specification, type `secret`.
pub fn private_key_from_paserk<V: KeyPairVersion>(
    alloc: Global,
    text: &str,
) -> Result<PrivateKey<V>, PaserkError>
    ensures { ReadsKey V.paserk Secret (λ key. length key ≡ V.secret_length) text.now result }
{
    let bytes = read_bytes(alloc, V::paserk_version(), PaserkType::Secret, text)?;
    if bytes.len() != V::secret_length() {
        return Err(PaserkError::InvalidKey);
    }
    match PrivateKey::try_from(bytes) {
        Ok(key) => Ok(key),
        Err(_) => Err(PaserkError::InvalidKey),
    }
}

/// The text of the public key of a key pair, for example `k4.public.` and 43 characters. It fails only with `Memory`.
///
/// Source: PASERK specification, type `public`.
pub fn public_to_paserk<V: KeyPairVersion>(
    alloc: Global,
    key: &PasetoAsymmetricPublicKey<'_, V, Public>,
) -> Result<String, PaserkError>
    ensures ok { IfOk result (λ text. string_bytes text ≡ writing V.paserk PublicKeys key.now) }
    ensures err { IfErr result IsMemory }
{
    write_key(
        alloc,
        V::paserk_version(),
        PaserkType::Public,
        key.as_bytes(),
    )
}

/// The bytes of the public key with this text: `N` is 32 in versions 2 and 4, and 49 in version 3.
///
/// The errors are those of `local_from_paserk`, and `InvalidKey` is also returned if the first byte of a key of version
/// 3 is neither 2 nor 3.
///
/// Source: PASERK specification, type `public`.
pub fn public_from_paserk<V: KeyPairVersion, const N: usize>(
    alloc: Global,
    text: &str,
) -> Result<Key<N>, PaserkError>
    requires { N ≡ V.public_length }
    ensures { ReadsKey V.paserk PublicKeys (λ key. (length key ≡ N) × IsTrue (V.is_public_key key))
        text.now result }
{
    let bytes = read_bytes(alloc, V::paserk_version(), PaserkType::Public, text)?;
    if bytes.len() != N || !V::is_public_key(&bytes) {
        return Err(PaserkError::InvalidKey);
    }
    Ok(Key::from_slice(&bytes))
}

/// The public key with this text, which owns its bytes. The errors are those of `public_from_paserk`.
///
/// Source: PASERK specification, type `public`.
pub fn public_key_from_paserk<V: KeyPairVersion>(
    alloc: Global,
    text: &str,
) -> Result<PublicKey<V>, PaserkError>
    ensures { ReadsKey V.paserk PublicKeys (λ key. IsTrue (V.is_public_key key)) text.now result }
{
    let bytes = read_bytes(alloc, V::paserk_version(), PaserkType::Public, text)?;
    match PublicKey::try_from(bytes) {
        Ok(key) => Ok(key),
        Err(_) => Err(PaserkError::InvalidKey),
    }
}
