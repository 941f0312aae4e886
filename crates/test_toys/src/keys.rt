//! The keys of tokens that a secret tells, and the toy scheme of each version.

ghost use Rattle.std.specs.Prelude.{◌≡◌, false, None};

use crate::{ToyV1, ToyV2, ToyV3, ToyV4, toy_partner, toy_partner_v3};
use rusty_paseto_core::{
    ImplicitAssertion, Key, Local, PasetoAsymmetricPrivateKey, PasetoAsymmetricPublicKey,
    PasetoError, PasetoSymmetricKey, Public, PublicVersion, V1, V2, V3, V4, VersionTrait,
};

/// The secret that tells the keys. A key of 32 bytes or of 48 is the front of it.
pub const SECRET: [u8; 64] = [7; 64];

/// The key of local tokens that a secret tells: the first 32 bytes.
pub fn symmetric_key<V: VersionTrait>(secret: &[u8; 64]) -> PasetoSymmetricKey<V, Local> {
    PasetoSymmetricKey::from(Key::<32>::from_slice(&secret[..32]))
}

/// The keys of the toys that a secret tells.
#[derive(Drop)]
pub struct Keys {
    private: Key<64>,
    scalar: Key<48>,
    public: Key<32>,
    point: Key<49>,
}

impl Keys {
    /// The keys of a secret. A key of 48 bytes is the front of it.
    pub fn of(secret: &[u8; 64]) -> Self {
        let scalar = &secret[..48];
        Keys {
            private: Key::from(secret),
            scalar: Key::from_slice(scalar),
            public: Key::from(toy_partner(secret)),
            point: Key::from(toy_partner_v3(scalar)),
        }
    }
}

/// A version with a toy scheme.
pub trait ToyVersion: PublicVersion {
    /// What its public tokens are called, as `v4.public`.
    const KIND: &'static str;

    /// The toy's type.
    type Toy: Drop;

    /// The toy.
    fn toy() -> Self::Toy;

    /// The private key.
    fn private_key(keys: &Keys) -> PasetoAsymmetricPrivateKey<'_, Self, Public>;

    /// The public key.
    fn public_key(keys: &Keys) -> Result<PasetoAsymmetricPublicKey<'_, Self, Public>, PasetoError>;

    /// The implicit assertion in a version that has one, and none in another.
    fn bound(assertion: Option<ImplicitAssertion<'_>>) -> Option<ImplicitAssertion<'_>>
        ensures { Self.public_design.binds_assertion ≡ false → result ≡ None };
}

impl ToyVersion for V1 {
    const KIND: &'static str = "v1.public";

    type Toy = ToyV1;

    fn toy() -> ToyV1 {
        ToyV1
    }

    fn private_key(keys: &Keys) -> PasetoAsymmetricPrivateKey<'_, V1, Public> {
        PasetoAsymmetricPrivateKey::from(keys.private.as_bytes().as_slice())
    }

    fn public_key(keys: &Keys) -> Result<PasetoAsymmetricPublicKey<'_, V1, Public>, PasetoError> {
        Ok(PasetoAsymmetricPublicKey::from(keys.public.as_bytes().as_slice()))
    }

    fn bound(_assertion: Option<ImplicitAssertion<'_>>) -> Option<ImplicitAssertion<'_>> {
        None
    }
}

impl ToyVersion for V2 {
    const KIND: &'static str = "v2.public";

    type Toy = ToyV2;

    fn toy() -> ToyV2 {
        ToyV2
    }

    fn private_key(keys: &Keys) -> PasetoAsymmetricPrivateKey<'_, V2, Public> {
        PasetoAsymmetricPrivateKey::from(keys.private.as_bytes().as_slice())
    }

    fn public_key(keys: &Keys) -> Result<PasetoAsymmetricPublicKey<'_, V2, Public>, PasetoError> {
        Ok(PasetoAsymmetricPublicKey::from(&keys.public))
    }

    fn bound(_assertion: Option<ImplicitAssertion<'_>>) -> Option<ImplicitAssertion<'_>> {
        None
    }
}

impl ToyVersion for V3 {
    const KIND: &'static str = "v3.public";

    type Toy = ToyV3;

    fn toy() -> ToyV3 {
        ToyV3
    }

    fn private_key(keys: &Keys) -> PasetoAsymmetricPrivateKey<'_, V3, Public> {
        PasetoAsymmetricPrivateKey::from(&keys.scalar)
    }

    fn public_key(keys: &Keys) -> Result<PasetoAsymmetricPublicKey<'_, V3, Public>, PasetoError> {
        PasetoAsymmetricPublicKey::try_from(&keys.point)
    }

    fn bound(assertion: Option<ImplicitAssertion<'_>>) -> Option<ImplicitAssertion<'_>> {
        assertion
    }
}

impl ToyVersion for V4 {
    const KIND: &'static str = "v4.public";

    type Toy = ToyV4;

    fn toy() -> ToyV4 {
        ToyV4
    }

    fn private_key(keys: &Keys) -> PasetoAsymmetricPrivateKey<'_, V4, Public> {
        PasetoAsymmetricPrivateKey::from(&keys.private)
    }

    fn public_key(keys: &Keys) -> Result<PasetoAsymmetricPublicKey<'_, V4, Public>, PasetoError> {
        Ok(PasetoAsymmetricPublicKey::from(&keys.public))
    }

    fn bound(assertion: Option<ImplicitAssertion<'_>>) -> Option<ImplicitAssertion<'_>> {
        assertion
    }
}
