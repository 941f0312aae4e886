//! Keys, signing and verifying (RFC 8032, sections 5.1.5 to 5.1.7).

ghost use Rattle.std.specs.Prelude.{◌≡◌, ◌≢◌, ◌↔◌, ◌⊎◌, take, drop, length, IfOk, IfErr, OnErr, OnOk, IsTrue, Some};
ghost use Rattle.rusty_paseto_parts.specs.Error.{IsMemory};
ghost use Rattle.rusty_paseto_parts.specs.declared.error.PasetoError.TheVariants.{InvalidSignature, KeyRejected, Signature};
ghost use Rattle.paseto_ed25519.specs.Ed25519.{Ed25519Verifies, IsDeclined, IsOwn, IsRefused, IsSum, ed25519_public, ed25519_sign, partner};
ghost use Rattle.paseto_edwards25519.specs.Encoding.{decoded, encoded};
ghost use Rattle.paseto_edwards25519.specs.Extended.{affine};
ghost use Rattle.paseto_edwards25519.specs.Point.{point, projected};
ghost use Rattle.paseto_edwards25519.specs.Scalar.{number32};

use crate::bytes::{HALF_LENGTH, PRIVATE_LENGTH, array, joined};
use crate::laws::signed_verifies;
use crate::signer::Ed25519Signer;
use crate::signing::{challenge, encoded_multiple, expanded, sign};
use paseto_edwards25519::{
    ExtendedPoint, ProjectivePoint, decode, encode, flattened, has_small_order, is_reduced,
    multiply_both, negate, to_bytes,
};
use rand_core::TryRng;
use rusty_paseto_core::SignatureScheme;
use rusty_paseto_parts::{
    Key, KeyPair, PasetoAsymmetricPrivateKey, PasetoAsymmetricPublicKey, PasetoError, PrivateKey,
    PublicKey, V2orV4,
};
use rusty_paseto_primitives::same_bytes;
use std::alloc::Global;

/// Ed25519 (RFC 8032, section 5.1), the signature scheme of versions 2 and 4.
#[derive(Drop)]
pub struct Ed25519;

// Whether a point is encoded as R.
fn is_encoded_as(total: ProjectivePoint, r: &[u8; 32]) -> bool
    ensures { IsTrue result ↔ encoded (affine (projected total)) ≡ r.now }
{
    encode(total) == *r
}

// Whether [S]B - [k]A is encoded as R, and neither it nor A is of small order (section 5.1.7, step 3).
fn is_sum_of(a: ExtendedPoint, s: &[u8; 32], k: &[u8; 32], r: &[u8; 32]) -> bool
    ensures { IsTrue result ↔ IsSum (Some (point a)) (number32 s.now) (number32 k.now) r.now }
{
    if has_small_order(flattened(a)) {
        return false;
    }
    let total = multiply_both(s, k, negate(a));
    if has_small_order(total) {
        return false;
    }
    is_encoded_as(total, r)
}

// The same of a public key, if it is a point.
fn is_sum(public: &[u8], s: &[u8; 32], k: &[u8; 32], r: &[u8; 32]) -> bool
    requires { length public.now ≡ 32 }
    ensures { IsTrue result ↔ IsSum (decoded public.now) (number32 s.now) (number32 k.now) r.now }
{
    match decode(public) {
        Some(a) => is_sum_of(a, s, k, r),
        None => false,
    }
}

// Whether a signature is valid (section 5.1.7).
fn is_valid(public: &[u8], message: &[u8], signature: &[u8; 64]) -> bool
    ensures { IsTrue result ↔ Ed25519Verifies public.now message.now signature.now }
{
    if public.len() != HALF_LENGTH {
        return false;
    }
    let (front, back) = signature.split_at(HALF_LENGTH);
    let r = array(front);
    let s = array(back);
    if !is_reduced(&s) {
        return false;
    }
    is_sum(public, &s, &to_bytes(challenge(&r, public, message)), &r)
}

impl Ed25519 {
    /// The public key, of 32 bytes, of a seed (RFC 8032, section 5.1.5). Does not allocate.
    pub fn public_key(seed: &[u8; 32]) -> [u8; 32]
        ensures { result ≡ ed25519_public seed.now }
    {
        encoded_multiple(&expanded(seed).scalar)
    }

    /// A new private key, which is a seed from the generator followed by its public key, and that public key. Does not
    /// allocate. `Cipher` is returned if and only if the generator fails.
    pub fn key_pair<R: TryRng>(rng: &mut R) -> Result<(Key<64>, Key<32>), PasetoError>
        ensures ok { IfOk result (λ pair. R.may_fill rng.old (take 32 pair.0) rng.new
            × (pair.1 ≡ ed25519_public (take 32 pair.0)) × (drop 32 pair.0 ≡ pair.1)) }
        ensures err { IfErr result (λ error. error ≡ PasetoError.Cipher) }
        ensures failed { OnErr result R.Error }
    {
        let seed = Key::<32>::try_new_random(rng)?;
        let public = Ed25519::public_key(seed.as_bytes());
        Ok((
            Key::from(joined(seed.as_bytes(), &public)),
            Key::from(public),
        ))
    }

    /// A new key pair of version 2 or 4, which owns its bytes: the keys that `key_pair` makes.
    ///
    /// `Cipher` is returned if and only if the generator fails, and otherwise it fails only if an allocation fails.
    ///
    /// ```rust
    /// use paseto_ed25519::Ed25519;
    /// use rand_core::TryRng;
    /// use rusty_paseto::prelude::*;
    /// use std::alloc::Global;
    ///
    /// /// A token that the new key signed, and the public key for its readers.
    /// pub fn sign<R: TryRng>(alloc: Global, rng: &mut R) -> Result<(String, PublicKey<V4>), PasetoError> {
    ///     let pair: KeyPair<V4> = Ed25519::try_new_pair(alloc, rng)?;
    ///     let token = Paseto::<V4, Public>::builder().try_sign(alloc, &mut Ed25519, &pair.private())?;
    ///     let (_private, public) = pair.into_keys();
    ///     Ok((token, public))
    /// }
    /// ```
    pub fn try_new_pair<V: V2orV4, R: TryRng>(
        alloc: Global,
        rng: &mut R,
    ) -> Result<KeyPair<V>, PasetoError>
        ensures ok { IfOk result (λ pair. R.may_fill rng.old (take 32 pair.0) rng.new
            × (pair.1 ≡ ed25519_public (take 32 pair.0)) × (drop 32 pair.0 ≡ pair.1)) }
        ensures err { IfErr result (λ error. IsMemory error
            ⊎ ((error ≡ PasetoError.Cipher) × R.Error)) }
    {
        let (private, public) = Ed25519::key_pair(rng)?;
        Ok(KeyPair::new(
            PrivateKey::copy_of(alloc, &PasetoAsymmetricPrivateKey::from(&private))?,
            PublicKey::copy_of(alloc, &PasetoAsymmetricPublicKey::from(&public))?,
        ))
    }

    /// A scheme for an issuer that signs many tokens with one private key: it checks here, once, and not for each
    /// token, that the public half belongs to the seed. `Signature` is returned if and only if it does not. Does not
    /// allocate.
    pub fn with_key(private: &Key<64>) -> Result<Ed25519Signer, PasetoError>
        ensures ok { IfOk result (λ signer. (signer ≡ private.now) × IsOwn private.now) }
        ensures err { IfErr result (λ error. (error ≡ PasetoError.Signature) × ¬ IsOwn private.now) }
    {
        Ed25519Signer::new(private)
    }
}

impl SignatureScheme<64> for Ed25519 {
    ghost valid = { Ed25519Verifies };

    ghost partner = { partner };

    ghost refused = { IsRefused };

    ghost declined = { IsDeclined };

    /// The signature of RFC 8032, section 5.1.6, which is valid for the private key's public half. `KeyRejected`
    /// is returned for a private key that does not have 64 bytes, and `Signature` if its public half does not belong to
    /// its seed, which is checked at each call (`with_key` checks it once), or if the nonce is 0. Does not allocate.
    fn sign(
        &mut self,
        _alloc: Global,
        private: &[u8],
        message: &[u8],
    ) -> Result<[u8; 64], PasetoError>
        ensures ok { IfOk result (λ signature. Ed25519Verifies
            (partner private.now) message.now signature
            × (signature ≡ ed25519_sign private.now message.now)) }
        ensures err { IfErr result (λ error. IsDeclined private.now message.now error) }
    {
        signed_verifies();
        if private.len() != PRIVATE_LENGTH {
            return Err(PasetoError::KeyRejected);
        }
        let (seed, public) = private.split_at(HALF_LENGTH);
        let secret = expanded(seed);
        if !same_bytes(&encoded_multiple(&secret.scalar), public) {
            return Err(PasetoError::Signature);
        }
        sign(&secret, public, message)
    }

    /// Returns `Ok` if and only if the signature is valid, and otherwise `InvalidSignature`. Does not allocate.
    fn verify(
        &self,
        _alloc: Global,
        public: &[u8],
        message: &[u8],
        signature: &[u8; 64],
    ) -> Result<(), PasetoError>
        ensures ok { OnOk result (Ed25519Verifies public.now message.now signature.now) }
        ensures err { IfErr result (λ error. (¬ Ed25519Verifies public.now message.now signature.now)
            × IsRefused public.now message.now signature.now error) }
    {
        if is_valid(public, message, signature) {
            return Ok(());
        }
        Err(PasetoError::InvalidSignature)
    }
}
