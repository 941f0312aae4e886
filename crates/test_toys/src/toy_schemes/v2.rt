//! The toy of the versions 2 and 4.

ghost use Rattle.std.specs.Prelude.{◌≢◌, [], IfErr, IfOk, OnOk};
ghost use Rattle.test_toys.specs.ToySchemes.{toy_declined, toy_refused, toy_valid};
ghost use Rattle.test_toys.specs.ToySignature.{toy_partner};

use super::check_private;
use crate::toy_signature::{toy_partner, toy_signature, toy_verify};
use rusty_paseto_core::{PasetoError, SignatureScheme};
use std::alloc::Global;

/// A toy signature scheme for the versions 2 and 4. What `ToyV1` says holds of it too.
#[derive(Drop)]
pub struct ToyV2;

impl SignatureScheme<64> for ToyV2 {
    ghost valid = { toy_valid 64 };

    ghost partner = { toy_partner };

    ghost refused = { toy_refused };

    ghost declined = { toy_declined };

    /// The signature of a message, or `KeyRejected` for the empty private key.
    fn sign(
        &mut self,
        _alloc: Global,
        private: &[u8],
        message: &[u8],
    ) -> Result<[u8; 64], PasetoError>
        ensures ok { IfOk result (λ signature. (private.now ≢ [])
            × toy_valid 64 (toy_partner private.now) message.now signature) }
        ensures err { IfErr result (λ error. toy_declined private.now message.now error) }
    {
        check_private(private)?;
        Ok(toy_signature(&toy_partner(private), message))
    }

    /// Is `Ok` exactly where the signature is the toy's own, and else `InvalidSignature`.
    fn verify(
        &self,
        _alloc: Global,
        public: &[u8],
        message: &[u8],
        signature: &[u8; 64],
    ) -> Result<(), PasetoError>
        ensures ok { OnOk result (toy_valid 64 public.now message.now signature.now) }
        ensures err { IfErr result (λ error. (¬ toy_valid 64 public.now message.now signature.now)
            × toy_refused public.now message.now signature.now error) }
    {
        toy_verify(public, message, signature)
    }
}
