//! The toy of version 3.

ghost use Rattle.std.specs.Prelude.{◌≡◌, ◌≢◌, [], IfErr, IfOk, OnOk};
ghost use Rattle.test_toys.specs.ToySchemes.{toy_declined, toy_refused_v3, toy_valid_v3};
ghost use Rattle.test_toys.specs.ToySignature.{toy_partner_v3};

use super::check_private;
use crate::toy_signature::{FIRST_BYTE, toy_partner_v3, toy_signature, toy_verify};
use rusty_paseto_core::{CompressedKey, PasetoError, SignatureScheme};
use std::alloc::Global;

/// A toy signature scheme for version 3. What `ToyV1` says holds of it too, but a public key has 49
/// bytes, of which the first is 2.
#[derive(Drop)]
pub struct ToyV3;

impl SignatureScheme<96> for ToyV3 {
    ghost valid = { toy_valid_v3 };

    ghost partner = { toy_partner_v3 };

    ghost refused = { toy_refused_v3 };

    ghost declined = { toy_declined };

    /// The signature of a message, or `KeyRejected` for the empty private key.
    fn sign(
        &mut self,
        _alloc: Global,
        private: &[u8],
        message: &[u8],
    ) -> Result<[u8; 96], PasetoError>
        ensures ok { IfOk result (λ signature. (private.now ≢ [])
            × toy_valid_v3 (toy_partner_v3 private.now) message.now signature) }
        ensures err { IfErr result (λ error. toy_declined private.now message.now error) }
    {
        check_private(private)?;
        Ok(toy_signature(&toy_partner_v3(private), message))
    }

    /// Is `Ok` exactly where the public key has 49 bytes, the first of which is 2, and the signature
    /// is the toy's own. Else it is `InvalidKey` for another key, and `InvalidSignature` for another
    /// signature.
    fn verify(
        &self,
        _alloc: Global,
        public: &[u8],
        message: &[u8],
        signature: &[u8; 96],
    ) -> Result<(), PasetoError>
        ensures ok { OnOk result (toy_valid_v3 public.now message.now signature.now) }
        ensures err { IfErr result (λ error. (¬ toy_valid_v3 public.now message.now signature.now)
            × toy_refused_v3 public.now message.now signature.now error) }
    {
        if public.len() != 49 || public[0] != FIRST_BYTE {
            return Err(PasetoError::InvalidKey);
        }
        toy_verify(public, message, signature)
    }
}

impl CompressedKey for ToyV3 {
    /// The public key of a private key, or `KeyRejected` for the empty one.
    fn public_key(&self, _alloc: Global, private: &[u8]) -> Result<[u8; 49], PasetoError>
        ensures ok { IfOk result (λ public. (private.now ≢ [])
            × (public ≡ toy_partner_v3 private.now)) }
        ensures err { IfErr result (λ error. (private.now ≡ []) × (error ≡ PasetoError.KeyRejected)) }
    {
        check_private(private)?;
        Ok(toy_partner_v3(private))
    }
}
