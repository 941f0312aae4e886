//! A private key with its public key.

ghost use Rattle.std.specs.Prelude.{◌≡◌, ℕ, List, Some, codes};

use crate::keys::owned_keys::{PrivateKey, PublicKey};
use crate::keys::private_key::PasetoAsymmetricPrivateKey;
use crate::keys::public_key::PasetoAsymmetricPublicKey;
use crate::purpose::public::Public;
use crate::version::VersionTrait;
use std::fmt;
use std::marker::Model;

/// The two keys of an issuer, which own their bytes: the private key signs, and the public key verifies. A scheme makes
/// them, for example `Ed25519::try_new_pair`.
///
/// `Debug` does not show it: its debug text is the same for all pairs. It is **not wiped**: its bytes stay in memory
/// when it is dropped.
#[derive(Drop)]
pub struct KeyPair<V: VersionTrait> {
    private: PrivateKey<V>,
    public: PublicKey<V>,
}

impl<V: VersionTrait> Model for KeyPair<V> {
    ghost Value = { List ℕ × List ℕ };

    ghost view = { λ pair. (pair.private, pair.public) };
}

impl<V: VersionTrait> KeyPair<V> {
    /// The pair of a private key and a public key. This does not check that they belong together.
    pub fn new(private: PrivateKey<V>, public: PublicKey<V>) -> Self
        ensures { result ≡ (private, public) }
    {
        KeyPair { private, public }
    }

    /// The key that signs, borrowed from the pair.
    pub fn private(&self) -> PasetoAsymmetricPrivateKey<'_, V, Public>
        ensures { result ≡ self.now.0 }
    {
        self.private.lend()
    }

    /// The key that verifies, borrowed from the pair.
    pub fn public(&self) -> PasetoAsymmetricPublicKey<'_, V, Public>
        ensures { result ≡ self.now.1 }
    {
        self.public.lend()
    }

    /// The private key and the public key, each of which owns its bytes: give a verifier only the second.
    pub fn into_keys(self) -> (PrivateKey<V>, PublicKey<V>)
        ensures { result ≡ self }
    {
        (self.private, self.public)
    }
}

impl<V: VersionTrait> fmt::Debug for KeyPair<V> {
    ghost debug_output = { λ _. Some (codes "!!! KEY IS PRIVATE !!!") };

    fn fmt<W: fmt::Write>(&self, f: &mut fmt::Formatter<W>) -> fmt::Result {
        f.write_str("!!! KEY IS PRIVATE !!!")
    }
}
