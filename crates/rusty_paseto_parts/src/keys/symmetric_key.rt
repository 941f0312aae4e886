//! The key for local tokens.

ghost use Rattle.std.specs.Prelude.{◌≡◌, ℕ, List, Some, codes, length, IfOk, IfErr, OnErr};

use crate::error::PasetoError;
use crate::keys::key::Key;
use crate::purpose::local::Local;
use rand_core::TryRng;
use std::fmt;
use std::marker::{Model, PhantomData};

/// The key that encrypts and decrypts the local tokens of a version: 32 bytes.
///
/// `Debug` does not show it: its debug text is the same for all keys.
#[derive(Drop)]
pub struct PasetoSymmetricKey<V, P> {
    key: Key<32>,
    version: PhantomData<V>,
    purpose: PhantomData<P>,
}

impl<V, P> Model for PasetoSymmetricKey<V, P> {
    ghost Value = { List ℕ };

    ghost view = { λ symmetric. symmetric.key };
}

impl<V, P> PasetoSymmetricKey<V, P> {
    /// The 32 bytes of the key.
    pub fn as_bytes(&self) -> &[u8; 32]
        ensures bytes { result.now ≡ self.now }
        ensures len { length self.now ≡ 32 }
    {
        self.key.as_bytes()
    }

    /// A key with the same bytes. Does not allocate.
    pub fn clone(&self) -> Self
        ensures { result ≡ self.now }
    {
        PasetoSymmetricKey {
            key: self.key.clone(),
            version: PhantomData,
            purpose: PhantomData,
        }
    }
}

impl<V> PasetoSymmetricKey<V, Local> {
    /// A new key with 32 bytes from the generator. Does not allocate.
    ///
    /// `Cipher` is returned if and only if the generator fails.
    ///
    /// ```rust
    /// use rand_core::TryRng;
    /// use rusty_paseto::prelude::*;
    ///
    /// /// The key of a service that begins: `local_to_paserk` writes it as a text, which it keeps.
    /// pub fn new_key<R: TryRng>(rng: &mut R) -> Result<PasetoSymmetricKey<V4, Local>, PasetoError> {
    ///     PasetoSymmetricKey::try_new_random(rng)
    /// }
    /// ```
    pub fn try_new_random<R: TryRng>(rng: &mut R) -> Result<Self, PasetoError>
        ensures given { IfOk result (λ key. R.may_fill rng.old key rng.new) }
        ensures err { IfErr result (λ error. error ≡ PasetoError.Cipher) }
        ensures failed { OnErr result R.Error }
    {
        Ok(PasetoSymmetricKey::from(Key::try_new_random(rng)?))
    }
}

impl<V> From<Key<32>> for PasetoSymmetricKey<V, Local> {
    ghost from_gives = { λ key symmetric. symmetric ≡ key };

    fn from(key: Key<32>) -> Self {
        PasetoSymmetricKey {
            key,
            version: PhantomData,
            purpose: PhantomData,
        }
    }
}

impl<V, P> fmt::Debug for PasetoSymmetricKey<V, P> {
    ghost debug_output = { λ _. Some (codes "!!! KEY IS PRIVATE !!!") };

    fn fmt<W: fmt::Write>(&self, f: &mut fmt::Formatter<W>) -> fmt::Result {
        f.write_str("!!! KEY IS PRIVATE !!!")
    }
}
