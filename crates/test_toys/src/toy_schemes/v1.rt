//! The toy of version 1.

ghost use Rattle.std.specs.Prelude.{◌≢◌, [], IfErr, IfOk, OnOk};
ghost use Rattle.test_toys.specs.ToySchemes.{toy_declined, toy_refused, toy_valid};
ghost use Rattle.test_toys.specs.ToySignature.{toy_partner};

use super::check_private;
use crate::toy_signature::{toy_partner, toy_signature, toy_verify};
use rusty_paseto_core::{PasetoError, SignatureScheme};
use std::alloc::Global;

/// A toy signature scheme for version 1, with which **anyone can sign**: who has the public key can
/// make each signature.
///
/// It shows that the laws of a signature scheme can be met. A key has any length, and only the empty
/// private key is refused. No call takes memory.
#[derive(Drop)]
pub struct ToyV1;

impl SignatureScheme<256> for ToyV1 {
    ghost valid = { toy_valid 256 };

    ghost partner = { toy_partner };

    ghost refused = { toy_refused };

    ghost declined = { toy_declined };

    /// The signature of a message, or `KeyRejected` for the empty private key.
    fn sign(
        &mut self,
        _alloc: Global,
        private: &[u8],
        message: &[u8],
    ) -> Result<[u8; 256], PasetoError>
        ensures ok { IfOk result (λ signature. (private.now ≢ [])
            × toy_valid 256 (toy_partner private.now) message.now signature) }
        ensures err { IfErr result (λ error. toy_declined private.now message.now error) }
    {
        check_private(private)?;
        Ok(toy_signature(&toy_partner(private), message))
    }

    /// Is `Ok` exactly where the signature is the toy's own, and else `InvalidSignature`.
    fn verify(
        &self,
        _alloc: Global,
        public: &[u8],
        message: &[u8],
        signature: &[u8; 256],
    ) -> Result<(), PasetoError>
        ensures ok { OnOk result (toy_valid 256 public.now message.now signature.now) }
        ensures err { IfErr result (λ error. (¬ toy_valid 256 public.now message.now signature.now)
            × toy_refused public.now message.now signature.now error) }
    {
        toy_verify(public, message, signature)
    }
}
