//! Keys, signing and verifying of messages (FIPS 186-5, section 6.4).

ghost use Rattle.std.specs.Prelude.{◌≡◌, ◌↔◌, ◌⊎◌, ℕ, ◌<◌, List, length, None, Some, IfErr, IfOk, MatchOption, OnOk, IsTrue};
ghost use Rattle.rusty_paseto_parts.specs.Error.{IsMemory};
ghost use Rattle.rusty_paseto_parts.specs.declared.error.PasetoError.TheVariants.{InvalidSignature, KeyRejected, Signature};
ghost use Rattle.paseto_montgomery.specs.Octets.{os2ip};
ghost use Rattle.paseto_montgomery.specs.Words.{value};
ghost use Rattle.paseto_weierstrass_laws.specs.Curve.{order};
ghost use Rattle.paseto_p384.specs.Agreement.{IsAgreementFault, p384_shared};
ghost use Rattle.paseto_p384.specs.Encoding.{coordinates_of};
ghost use Rattle.paseto_p384.specs.P384.{IsDeclined, IsPrivate, IsRefused, P384Verifies, first_candidate, hash_number, p384_public, p384_sign, signed_by};

use crate::agreement::{AgreementError, agreed};
use crate::ecdsa::{accepts, attempt};
use crate::encoding::{affine_octets, decode, encode};
use crate::laws::signatures_are_valid;
use crate::nonce::NonceGenerator;
use crate::point::multiply_base;
use crate::scalar::{from_words, is_scalar, to_words};
use paseto_montgomery::{from_octets, to_octets};
use rand_core::TryRng;
use rusty_paseto_core::{CompressedKey, SignatureScheme};
use rusty_paseto_parts::{
    Key, KeyPair, PasetoAsymmetricPrivateKey, PasetoAsymmetricPublicKey, PasetoError, PrivateKey,
    PublicKey, V3,
};
use sha2::{Digest, Sha384};
use std::alloc::Global;

// How many octets a number has.
const NUMBER_LENGTH: usize = 48;

// How many octets a public key has.
const PUBLIC_LENGTH: usize = 49;

/// ECDSA over P-384 with SHA-384 (FIPS 186-5, section 6.4), the signature scheme of version 3.
///
/// ```rust
/// use paseto_p384::P384;
/// use rand_core::TryRng;
/// use rusty_paseto_core::{PasetoError, SignatureScheme};
/// use std::alloc::Global;
///
/// /// Signs a message under a new key, and verifies it.
/// pub fn sign_and_verify<R: TryRng>(
///     alloc: Global,
///     rng: &mut R,
///     message: &[u8],
/// ) -> Result<(), PasetoError> {
///     let (private, public) = P384::key_pair(rng)?;
///     let signature = P384.sign(alloc, private.as_bytes(), message)?;
///     P384.verify(alloc, public.as_bytes(), message, &signature)
/// }
/// ```
#[derive(Drop)]
pub struct P384;

// The number of the hash of a message.
fn hash_number(message: &[u8]) -> [u64; 6]
    ensures { value result 6 ≡ hash_number message.now }
{
    from_octets(&Sha384::digest(message))
}

// The number that a private key is.
fn private_number(private: &[u8]) -> Option<[u64; 6]>
    ensures { MatchOption result (¬ IsPrivate private.now)
        (λ d. IsPrivate private.now × (value d 6 ≡ os2ip private.now) × (value d 6 < order)) }
{
    if private.len() != NUMBER_LENGTH {
        return None;
    }
    let d = from_octets(private);
    if !is_scalar(&d) {
        return None;
    }
    Some(d)
}

// The public key of a private key, given as a number.
fn public_octets(d: &[u64; 6]) -> [u8; 49]
    ensures { (private : List ℕ) → value d.now 6 ≡ os2ip private → result ≡ p384_public private }
{
    encode(multiply_base(d))
}

// The generator whose value is the first candidate for a private key and a message.
fn first_candidate(private: &[u8], e: &[u64; 6]) -> NonceGenerator
    ensures { (message : List ℕ) → value e.now 6 ≡ hash_number message
        → result ≡ first_candidate private.now message }
{
    let mut hash = [0; NUMBER_LENGTH];
    to_octets(&to_words(from_words(e)), &mut hash);
    NonceGenerator::start(private, &hash).draw()
}

// The signature by a candidate.
fn signed_by(d: &[u64; 6], e: &[u64; 6], g: &NonceGenerator) -> Option<[u8; 96]>
    requires { value d.now 6 < order }
    ensures { (private message : List ℕ) → value d.now 6 ≡ os2ip private
        → value e.now 6 ≡ hash_number message → result ≡ signed_by private message g.now }
{
    attempt(d, e, &from_octets(&g.value))
}

// The signature of the message with this hash under a private key, which is the number d.
fn signature(private: &[u8], d: &[u64; 6], e: &[u64; 6]) -> Option<[u8; 96]>
    requires private { value d.now 6 ≡ os2ip private.now }
    requires below { value d.now 6 < order }
    ensures { (message : List ℕ) → value e.now 6 ≡ hash_number message
        → result ≡ p384_sign private.now message }
{
    let g = first_candidate(private, e);
    match signed_by(d, e, &g) {
        Some(signature) => Some(signature),
        None => signed_by(d, e, &g.retry().draw()),
    }
}

// Whether a signature is valid for the message with this hash.
fn is_valid(public: &[u8], e: &[u64; 6], signature: &[u8; 96]) -> bool
    ensures { (message : List ℕ) → value e.now 6 ≡ hash_number message
        → (IsTrue result ↔ P384Verifies public.now message signature.now) }
{
    if public.len() != PUBLIC_LENGTH {
        return false;
    }
    let (front, back) = signature.split_at(NUMBER_LENGTH);
    match decode(public) {
        Some(q) => accepts(q, e, &from_octets(front), &from_octets(back)),
        None => false,
    }
}

impl P384 {
    /// A new private key from the generator, and its public key. Does not allocate. `Cipher` is returned if and only if
    /// the generator fails, and `KeyRejected` if it gives 0 or a number that is not below n, which happens less than
    /// once in 2^189 times with a good generator.
    pub fn key_pair<R: TryRng>(rng: &mut R) -> Result<(Key<48>, Key<49>), PasetoError>
        ensures ok { IfOk result (λ pair. R.may_fill rng.old pair.0 rng.new
            × IsPrivate pair.0 × (pair.1 ≡ p384_public pair.0)) }
        ensures err { IfErr result (λ error. ((error ≡ PasetoError.Cipher) × R.Error)
            ⊎ ((error ≡ PasetoError.KeyRejected)
            × ((drawn : List ℕ) × (length drawn ≡ 48) × R.may_fill rng.old drawn rng.new
            × (¬ IsPrivate drawn)))) }
    {
        let private = Key::<48>::try_new_random(rng)?;
        match private_number(private.as_bytes()) {
            Some(d) => Ok((private, Key::from(public_octets(&d)))),
            None => Err(PasetoError::KeyRejected),
        }
    }

    /// The coordinates of a public key's point, x and y of 48 bytes each, most significant byte first, or `None` if it
    /// is not a point. Does not allocate.
    ///
    /// Source: SEC 1, sections 2.3.3 and 2.3.4.
    pub fn coordinates(public: &[u8; 49]) -> Option<[u8; 96]>
        ensures { result ≡ coordinates_of public.now }
    {
        match decode(public) {
            Some(point) => Some(affine_octets(point)),
            None => None,
        }
    }

    /// The shared secret of the own private key and the other party's public key: the coordinate x of [d]Q, in 48
    /// bytes, most significant first. [d]Q is never the point at infinity, by the law `shared_point_is_finite`. Does
    /// not allocate, and no branch and no address depends on the private key, except for the result
    /// `InvalidPrivateKey`. Hash the secret together with both public keys before you use it as a key.
    ///
    /// `InvalidPrivateKey` is returned if and only if the private key is not valid, and `InvalidPoint` if and only if
    /// it is valid and the public key is not a point.
    ///
    /// Source: SEC 1, section 3.3.1; SP 800-56A, section 5.7.1.2.
    pub fn shared_secret(private: &[u8], public: &[u8; 49]) -> Result<[u8; 48], AgreementError>
        ensures ok { IfOk result (λ shared. IsPrivate private.now
            × (p384_shared private.now public.now ≡ Some shared)) }
        ensures err { IfErr result (λ error. IsAgreementFault private.now public.now error) }
    {
        let Some(d) = private_number(private) else {
            return Err(AgreementError::InvalidPrivateKey);
        };
        let Some(q) = decode(public) else {
            return Err(AgreementError::InvalidPoint);
        };
        Ok(agreed(&d, q))
    }

    /// A new key pair of version 3, which owns its bytes: the keys that `key_pair` makes.
    ///
    /// `Cipher` and `KeyRejected` are returned if and only if `key_pair` returns them, and otherwise it fails only if
    /// an allocation fails.
    pub fn try_new_pair<R: TryRng>(alloc: Global, rng: &mut R) -> Result<KeyPair<V3>, PasetoError>
        ensures ok { IfOk result (λ pair. R.may_fill rng.old pair.0 rng.new
            × IsPrivate pair.0 × (pair.1 ≡ p384_public pair.0)) }
        ensures err { IfErr result (λ error. IsMemory error ⊎ (((error ≡ PasetoError.Cipher) × R.Error)
            ⊎ ((error ≡ PasetoError.KeyRejected)
            × ((drawn : List ℕ) × (length drawn ≡ 48) × R.may_fill rng.old drawn rng.new
            × (¬ IsPrivate drawn))))) }
    {
        let (private, public) = P384::key_pair(rng)?;
        Ok(KeyPair::new(
            PrivateKey::copy_of(alloc, &PasetoAsymmetricPrivateKey::from(&private))?,
            PublicKey::copy_of(alloc, &PasetoAsymmetricPublicKey::try_from(&public)?)?,
        ))
    }
}

impl SignatureScheme<96> for P384 {
    ghost valid = { P384Verifies };

    ghost partner = { p384_public };

    ghost refused = { IsRefused };

    ghost declined = { IsDeclined };

    /// The signature of FIPS 186-5, section 6.4.1, with the nonce of RFC 6979. It is valid for the public key of the
    /// private key, by the law `signatures_are_valid`, and is not verified before it is returned. `KeyRejected` is
    /// returned for an invalid private key: another length than 48 bytes, 0, or a number that is not below n; and
    /// `Signature` if and only if neither of two candidate nonces gives a signature. Does not allocate.
    fn sign(
        &mut self,
        _alloc: Global,
        private: &[u8],
        message: &[u8],
    ) -> Result<[u8; 96], PasetoError>
        ensures ok { IfOk result (λ signature.
            P384Verifies (p384_public private.now) message.now signature
            × (p384_sign private.now message.now ≡ Some signature) × IsPrivate private.now) }
        ensures err { IfErr result (λ error. ((¬ IsPrivate private.now) × (error ≡ KeyRejected))
            ⊎ (IsPrivate private.now × (error ≡ Signature)
            × (p384_sign private.now message.now ≡ None))) }
    {
        match private_number(private) {
            Some(d) => {
                signatures_are_valid();
                match signature(private, &d, &hash_number(message)) {
                    Some(made) => Ok(made),
                    None => Err(PasetoError::Signature),
                }
            }
            None => Err(PasetoError::KeyRejected),
        }
    }

    /// Returns `Ok` if and only if the signature is valid, and otherwise `InvalidSignature`. Does not allocate.
    fn verify(
        &self,
        _alloc: Global,
        public: &[u8],
        message: &[u8],
        signature: &[u8; 96],
    ) -> Result<(), PasetoError>
        ensures ok { OnOk result (P384Verifies public.now message.now signature.now) }
        ensures err { IfErr result (λ error. (error ≡ InvalidSignature)
            × (¬ P384Verifies public.now message.now signature.now)) }
    {
        if is_valid(public, &hash_number(message), signature) {
            return Ok(());
        }
        Err(PasetoError::InvalidSignature)
    }
}

impl CompressedKey for P384 {
    /// The public key of a private key, or `KeyRejected` for an invalid one: another length than 48 bytes, 0, or a
    /// number that is not below n. Does not allocate.
    fn public_key(&self, _alloc: Global, private: &[u8]) -> Result<[u8; 49], PasetoError>
        ensures ok { IfOk result (λ public. IsPrivate private.now
            × (public ≡ p384_public private.now)) }
        ensures err { IfErr result (λ error. (¬ IsPrivate private.now)
            × (error ≡ PasetoError.KeyRejected)) }
    {
        match private_number(private) {
            Some(d) => Ok(public_octets(&d)),
            None => Err(PasetoError::KeyRejected),
        }
    }
}
