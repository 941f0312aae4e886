//! Signing and verifying of messages (RFC 8017, section 8.1).

ghost use Rattle.std.specs.Prelude.{◌≡◌, ◌⊎◌, ℕ, List, length, IfErr, IfOk, OnOk};
ghost use Rattle.rusty_paseto_parts.specs.declared.error.PasetoError.TheVariants.{Cipher, KeyRejected, RsaCipher};
ghost use Rattle.paseto_rsa.specs.Keys.{IsPrivate, rsa_public};
ghost use Rattle.paseto_rsa.specs.RsaPss.{HasNoSignature, IsDeclined, IsRefused, IsSigned, RsaPssVerifies};

use crate::private_key::PrivateKey;
use crate::public_key::PublicKey;
use crate::signing::signature;
use crate::verifying::is_valid;
use rand_core::TryRng;
use rusty_paseto_core::SignatureScheme;
use rusty_paseto_parts::{Key, PasetoError};
use sha2::{Digest, Sha384};
use std::alloc::Global;

/// RSASSA-PSS with SHA-384, MGF1 over SHA-384 and a salt of 48 bytes (RFC 8017, section 8.1), the signature scheme of
/// version 1, for keys of 2048 bits. It draws the salts from its generator.
///
/// Private keys are PKCS #8 PrivateKeyInfos, and public keys PKCS #1 RSAPublicKeys, both in DER.
///
/// ```rust
/// use paseto_rsa::RsaPss;
/// use rand_core::TryRng;
/// use rusty_paseto_core::{PasetoError, SignatureScheme};
/// use std::alloc::Global;
///
/// /// Signs a message with a random salt, and verifies it.
/// pub fn sign_and_verify<R: TryRng + Drop>(
///     alloc: Global,
///     rng: R,
///     private: &[u8],
///     public: &[u8],
///     message: &[u8],
/// ) -> Result<(), PasetoError> {
///     let mut scheme = RsaPss::new(rng);
///     let signature = scheme.sign(alloc, private, message)?;
///     scheme.verify(alloc, public, message, &signature)
/// }
/// ```
#[derive(Drop)]
pub struct RsaPss<R> {
    rng: R,
}

impl<R> RsaPss<R> {
    /// A scheme that draws its salts from this generator.
    pub fn new(rng: R) -> RsaPss<R>
        ensures { result.rng ≡ rng }
    {
        RsaPss { rng }
    }
}

impl<R: TryRng> SignatureScheme<256> for RsaPss<R> {
    ghost valid = { RsaPssVerifies };

    ghost partner = { rsa_public };

    ghost refused = { IsRefused };

    ghost declined = { IsDeclined };

    /// The signature of RFC 8017, section 8.1.1, with a salt from the generator, computed with both factors of the
    /// modulus and checked against the public key before it is returned. `KeyRejected` is returned for an invalid
    /// private key: a malformed encoding, numbers that are out of range, or a modulus that is not the product of the
    /// factors; `Cipher` if the generator fails; and `RsaCipher` if the signature is not valid, since an exponent or the
    /// coefficient is another key's. Does not allocate.
    fn sign(
        &mut self,
        _alloc: Global,
        private: &[u8],
        message: &[u8],
    ) -> Result<[u8; 256], PasetoError>
        ensures ok { IfOk result (λ signature.
            RsaPssVerifies (rsa_public private.now) message.now signature
            × ((salt : List ℕ) × (length salt ≡ 48)
            × R.may_fill self.old.rng salt self.new.rng
            × IsSigned private.now message.now salt signature)) }
        ensures err { IfErr result (λ error. IsDeclined private.now message.now error
            × (IsPrivate private.now → ((error ≡ PasetoError.Cipher) × R.Error)
            ⊎ ((error ≡ PasetoError.RsaCipher) × ((salt : List ℕ) × (length salt ≡ 48)
            × R.may_fill self.old.rng salt self.new.rng
            × HasNoSignature private.now message.now salt)))
            × ((¬ IsPrivate private.now) → self.new ≡ self.old)) }
    {
        let Some(key) = PrivateKey::from_der(private) else {
            return Err(PasetoError::KeyRejected);
        };
        let salt = Key::<48>::try_new_random(&mut self.rng)?;
        let hash = Sha384::digest(message);
        let made = signature(&key, &hash, salt.as_bytes());
        if !is_valid(&key.public, &hash, &made) {
            return Err(PasetoError::RsaCipher);
        }
        Ok(made)
    }

    /// Returns `Ok` if and only if the signature is valid, and otherwise `InvalidSignature`, also for an invalid public
    /// key. Does not allocate.
    fn verify(
        &self,
        _alloc: Global,
        public: &[u8],
        message: &[u8],
        signature: &[u8; 256],
    ) -> Result<(), PasetoError>
        ensures ok { OnOk result (RsaPssVerifies public.now message.now signature.now) }
        ensures err { IfErr result (λ error. (error ≡ PasetoError.InvalidSignature)
            × (¬ RsaPssVerifies public.now message.now signature.now)) }
    {
        match PublicKey::from_der(public) {
            Some(key) => {
                if key.verify(message, signature) {
                    return Ok(());
                }
                Err(PasetoError::InvalidSignature)
            }
            None => Err(PasetoError::InvalidSignature),
        }
    }
}
