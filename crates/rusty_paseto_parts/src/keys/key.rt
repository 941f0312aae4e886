//! Secret bytes of a fixed number.

ghost use Rattle.std.specs.Prelude.{◌≡◌, ℕ, List, Some, codes, length, replicate, IfOk, IfErr, OnErr};
ghost use Rattle.rusty_paseto_parts.specs.Key.{ReadsKey};

use crate::error::PasetoError;
use hex::FromHex;
use rand_core::TryRng;
use std::fmt;
use std::marker::Model;

/// A key of `N` bytes.
///
/// `Debug` does not show it: its debug text is the same for all keys. It is **not wiped**: its bytes stay in memory
/// when it is dropped, and `clone` and `as_bytes` allow copies. The default key is all zeros, and not secret.
#[derive(Drop)]
pub struct Key<const N: usize> {
    bytes: [u8; N],
}

impl<const N: usize> Model for Key<N> {
    ghost Value = { List ℕ };

    ghost view = { λ key. key.bytes };

    ghost invariant = { λ key. length key.bytes ≡ N };
}

impl<const N: usize> Key<N> {
    /// The key with these `N` bytes.
    pub fn from_slice(bytes: &[u8]) -> Self
        requires { length bytes.now ≡ N }
        ensures { result ≡ bytes.now }
    {
        let mut key = [0u8; N];
        key.copy_from_slice(bytes);
        Key { bytes: key }
    }

    /// A new key with `N` bytes from the generator. Does not allocate.
    ///
    /// `Cipher` is returned if and only if the generator fails.
    pub fn try_new_random<R: TryRng>(rng: &mut R) -> Result<Self, PasetoError>
        ensures given { IfOk result (λ key. R.may_fill rng.old key rng.new) }
        ensures err { IfErr result (λ error. error ≡ PasetoError.Cipher) }
        ensures failed { OnErr result R.Error }
    {
        let mut bytes = [0u8; N];
        match rng.try_fill_bytes(&mut bytes) {
            Ok(()) => Ok(Key { bytes }),
            Err(_) => Err(PasetoError::Cipher),
        }
    }

    /// The bytes of the key.
    pub fn as_bytes(&self) -> &[u8; N]
        ensures bytes { result.now ≡ self.now }
        ensures len { length self.now ≡ N }
    {
        &self.bytes
    }

    /// A key with the same bytes. Does not allocate.
    pub fn clone(&self) -> Self
        ensures { result ≡ self.now }
    {
        Key { bytes: self.bytes }
    }
}

impl<const N: usize> Default for Key<N> {
    ghost is_default = { λ key. key ≡ replicate N 0 };

    fn default() -> Self {
        Key { bytes: [0u8; N] }
    }
}

impl<const N: usize> From<[u8; N]> for Key<N> {
    ghost from_gives = { λ bytes key. key ≡ bytes };

    fn from(bytes: [u8; N]) -> Self {
        Key { bytes }
    }
}

impl<const N: usize> From<&[u8; N]> for Key<N> {
    ghost from_gives = { λ bytes key. key ≡ bytes.now };

    fn from(bytes: &[u8; N]) -> Self {
        Key { bytes: *bytes }
    }
}

/// Reads exactly `2 * N` hexadecimal digits, of either case. Any other text gives `InvalidKey`.
impl<const N: usize> TryFrom<&str> for Key<N> {
    type Error = PasetoError;

    ghost try_from_gives = { λ text answer. ReadsKey N text.now answer };

    fn try_from(text: &str) -> Result<Self, PasetoError> {
        match <[u8; N] as FromHex>::from_hex(text) {
            Ok(bytes) => Ok(Key { bytes }),
            Err(_) => Err(PasetoError::InvalidKey),
        }
    }
}

impl<const N: usize> fmt::Debug for Key<N> {
    ghost debug_output = { λ _. Some (codes "!!! KEY IS PRIVATE !!!") };

    fn fmt<W: fmt::Write>(&self, f: &mut fmt::Formatter<W>) -> fmt::Result {
        f.write_str("!!! KEY IS PRIVATE !!!")
    }
}
