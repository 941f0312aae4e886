//! The keys that are wrapped, from their bytes, and the key under which they are.

ghost use Rattle.std.specs.Prelude.{◌≡◌, ◌≢◌, ◌⊎◌, ℕ, List, Some, codes, length, IsTrue, IfOk, IfErr, MatchOption};
ghost use Rattle.rusty_paseto_paserk.specs.Rsa.{IsSecretForm};
ghost use Rattle.paseto_wrapping.specs.Error.{IsMemory};
ghost use Rattle.paseto_wrapping.specs.Keys.{IsWrappable, IsWrappedForm, wrapped_form};
ghost use Rattle.paseto_wrapping.specs.declared.error.WrapError.TheVariants.{InvalidKey};

use crate::error::WrapError;
use paseto_rsa::{is_private_key, private_key_from_pkcs1, private_key_to_pkcs1};
use rusty_paseto_parts::{Key, Local, PasetoSymmetricKey, PrivateKey};
use rusty_paseto_paserk::{KeyVersion, PaserkVersion};
use std::alloc::Global;
use std::fmt;
use std::marker::{Model, PhantomData};

/// The key under which keys of a version are wrapped: 32 bytes. It is a separate type, so that it is not confused with
/// a key for tokens.
///
/// `Debug` does not show it: its debug text is the same for all keys. It is **not wiped**: its bytes stay in memory
/// when it is dropped.
#[derive(Drop)]
pub struct WrappingKey<V> {
    key: Key<32>,
    version: PhantomData<V>,
}

impl<V> Model for WrappingKey<V> {
    ghost Value = { List ℕ };

    ghost view = { λ wrapping. wrapping.key };
}

impl<V> WrappingKey<V> {
    /// The 32 bytes of the key.
    pub fn as_bytes(&self) -> &[u8; 32]
        ensures bytes { result.now ≡ self.now }
        ensures len { length self.now ≡ 32 }
    {
        self.key.as_bytes()
    }
}

impl<V> From<Key<32>> for WrappingKey<V> {
    ghost from_gives = { λ key wrapping. wrapping ≡ key };

    fn from(key: Key<32>) -> Self {
        WrappingKey {
            key,
            version: PhantomData,
        }
    }
}

impl<V> fmt::Debug for WrappingKey<V> {
    ghost debug_output = { λ _. Some (codes "!!! KEY IS PRIVATE !!!") };

    fn fmt<W: fmt::Write>(&self, f: &mut fmt::Formatter<W>) -> fmt::Result {
        f.write_str("!!! KEY IS PRIVATE !!!")
    }
}

/// The key of local tokens of these bytes. `InvalidKey` is returned if and only if they are not 32.
pub(crate) fn local_key<V>(bytes: Vec<u8>) -> Result<PasetoSymmetricKey<V, Local>, WrapError>
    ensures ok { IfOk result (λ key. (key ≡ bytes.items) × (length bytes.items ≡ 32)) }
    ensures err { IfErr result (λ error. (error ≡ InvalidKey) × (length bytes.items ≢ 32)) }
{
    if bytes.len() != 32 {
        return Err(WrapError::InvalidKey);
    }
    Ok(PasetoSymmetricKey::from(Key::from_slice(&bytes)))
}

/// The octets that are wrapped for a private key: in version 1 its RSAPrivateKey, and otherwise its own. `None` if and only
/// if the version is 1 and the key is no private key of `RsaPss`. Does not allocate.
pub(crate) fn wrapped_form(version: PaserkVersion, key: &[u8]) -> Option<&[u8]>
    ensures { MatchOption result (¬ IsWrappable version key.now)
        (λ octets. IsWrappable version key.now × (octets.now ≡ wrapped_form version key.now)) }
{
    match version {
        PaserkVersion::V1 => private_key_to_pkcs1(key),
        PaserkVersion::V2 | PaserkVersion::V3 | PaserkVersion::V4 => Some(key),
    }
}

/// The private key that octets were wrapped for: of versions 2 and 4 they are 64, of version 3 they are 48, and of version 1
/// its RSAPrivateKey or its PrivateKeyInfo. `InvalidKey` is returned if they are none of these, and `Memory` in place of any
/// result of version 1.
pub(crate) fn private_key<V: KeyVersion>(
    alloc: Global,
    octets: Vec<u8>,
) -> Result<PrivateKey<V>, WrapError>
    ensures ok { IfOk result (λ key. IsWrappedForm V.paserk octets.items key
        × IsTrue (V.is_private_key key)) }
    ensures err { IfErr result (λ error. IsMemory error ⊎ ((error ≡ InvalidKey)
        × ((key : List ℕ) → ¬ (IsWrappedForm V.paserk octets.items key
        × IsTrue (V.is_private_key key))))) }
{
    let bytes = unwrapped_form(alloc, V::paserk_version(), octets)?;
    match PrivateKey::try_from(bytes) {
        Ok(key) => Ok(key),
        Err(_) => Err(WrapError::InvalidKey),
    }
}

// The bytes of the private key that octets were wrapped for.
fn unwrapped_form(
    alloc: Global,
    version: PaserkVersion,
    octets: Vec<u8>,
) -> Result<Vec<u8>, WrapError>
    ensures ok { IfOk result (λ key. IsWrappedForm version octets.items key.items) }
    ensures err { IfErr result (λ error. IsMemory error ⊎ ((error ≡ InvalidKey)
        × ((key : List ℕ) → ¬ IsWrappedForm version octets.items key))) }
{
    match version {
        PaserkVersion::V1 => rsa_key(alloc, octets),
        PaserkVersion::V2 | PaserkVersion::V4 => of_length(octets, 64),
        PaserkVersion::V3 => of_length(octets, 48),
    }
}

// The private key of version 1 whose RSAPrivateKey or PrivateKeyInfo octets are.
fn rsa_key(alloc: Global, octets: Vec<u8>) -> Result<Vec<u8>, WrapError>
    ensures ok { IfOk result (λ key. IsSecretForm octets.items key.items) }
    ensures err { IfErr result (λ error. IsMemory error ⊎ ((error ≡ InvalidKey)
        × ((key : List ℕ) → ¬ IsSecretForm octets.items key))) }
{
    if is_private_key(&octets) {
        return Ok(octets);
    }
    match private_key_from_pkcs1(alloc, &octets)? {
        Some(key) => Ok(key),
        None => Err(WrapError::InvalidKey),
    }
}

// Bytes that have to be so many.
fn of_length(bytes: Vec<u8>, count: usize) -> Result<Vec<u8>, WrapError>
    ensures ok { IfOk result (λ key. (bytes.items ≡ key.items) × (length key.items ≡ count)) }
    ensures err { IfErr result (λ error. (error ≡ InvalidKey) × (length bytes.items ≢ count)) }
{
    if bytes.len() != count {
        return Err(WrapError::InvalidKey);
    }
    Ok(bytes)
}
