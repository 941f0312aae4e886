//! Ed25519 with one private key.

ghost use Rattle.std.specs.Prelude.{◌≡◌, ◌≢◌, List, ℕ, length, take, IfOk, IfErr, OnOk};
ghost use Rattle.rusty_paseto_parts.specs.declared.error.PasetoError.TheVariants.{InvalidSignature, KeyRejected, Signature};
ghost use Rattle.paseto_ed25519.specs.Ed25519.{Ed25519Verifies, IsDeclined, IsOwn, IsRefused, ed25519_sign, partner};

use crate::bytes::HALF_LENGTH;
use crate::ed25519::Ed25519;
use crate::laws::signed_verifies;
use crate::signing::{encoded_multiple, expanded, sign};
use rusty_paseto_core::SignatureScheme;
use rusty_paseto_parts::{Key, PasetoError};
use rusty_paseto_primitives::same_bytes;
use std::alloc::Global;
use std::marker::Model;

/// Ed25519 for an issuer that signs many tokens with one private key, whose public half `Ed25519::with_key` checked
/// once. It signs and verifies as `Ed25519` does, and checks any other private key as `Ed25519` does.
///
/// The private key is **not wiped**: it stays in memory when the signer is dropped.
#[derive(Drop)]
pub struct Ed25519Signer {
    private: Key<64>,
}

impl Model for Ed25519Signer {
    ghost Value = { List ℕ };

    ghost view = { λ signer. signer.private };

    ghost invariant = { λ signer. IsOwn signer.private };
}

impl Ed25519Signer {
    /// The scheme under a private key. `Signature` is returned if and only if its public half is another seed's.
    pub(crate) fn new(private: &Key<64>) -> Result<Self, PasetoError>
        ensures ok { IfOk result (λ signer. (signer ≡ private.now) × IsOwn private.now) }
        ensures err { IfErr result (λ error. (error ≡ PasetoError.Signature) × ¬ IsOwn private.now) }
    {
        let (seed, public) = private.as_bytes().split_at(HALF_LENGTH);
        if !same_bytes(&encoded_multiple(&expanded(seed).scalar), public) {
            return Err(PasetoError::Signature);
        }
        Ok(Ed25519Signer {
            private: private.clone(),
        })
    }
}

impl SignatureScheme<64> for Ed25519Signer {
    ghost valid = { Ed25519Verifies };

    ghost partner = { partner };

    ghost refused = { IsRefused };

    ghost declined = { IsDeclined };

    /// The signature of RFC 8032, section 5.1.6, which is valid for the private key's public half. The errors are those of
    /// `Ed25519`: with the signer's own private key only `Signature`, if the nonce is 0. Does not allocate.
    fn sign(
        &mut self,
        alloc: Global,
        private: &[u8],
        message: &[u8],
    ) -> Result<[u8; 64], PasetoError>
        ensures ok { IfOk result (λ signature. Ed25519Verifies
            (partner private.now) message.now signature
            × (signature ≡ ed25519_sign private.now message.now)) }
        ensures err { IfErr result (λ error. IsDeclined private.now message.now error) }
        ensures same { self.new ≡ self.old }
    {
        signed_verifies();
        let own = self.private.as_bytes();
        if !same_bytes(private, own) {
            return Ed25519.sign(alloc, private, message);
        }
        let (seed, public) = own.split_at(HALF_LENGTH);
        sign(&expanded(seed), public, message)
    }

    /// Returns `Ok` if and only if the signature is valid, and otherwise `InvalidSignature`. Does not allocate.
    fn verify(
        &self,
        alloc: Global,
        public: &[u8],
        message: &[u8],
        signature: &[u8; 64],
    ) -> Result<(), PasetoError>
        ensures ok { OnOk result (Ed25519Verifies public.now message.now signature.now) }
        ensures err { IfErr result (λ error. (¬ Ed25519Verifies public.now message.now signature.now)
            × IsRefused public.now message.now signature.now error) }
    {
        Ed25519.verify(alloc, public, message, signature)
    }
}
