//! A signature scheme that refuses everything.

ghost use Rattle.std.specs.Prelude.{◌≡◌, []};
ghost use Rattle.rusty_paseto_parts.specs.declared.error.PasetoError.TheVariants.{Signature};

use rusty_paseto_core::{CompressedKey, PasetoError, SignatureScheme};
use std::alloc::Global;

/// A signature scheme that holds no signature valid, and answers each call by `Signature`. So a test
/// sees by the answer whether the scheme was asked.
#[derive(Drop)]
pub struct Refusing;

impl<const SIG: usize> SignatureScheme<SIG> for Refusing {
    ghost valid = { λ public message signature. ⊥ };

    ghost partner = { λ private. [] };

    ghost refused = { λ public message signature error. error ≡ Signature };

    ghost declined = { λ private message error. error ≡ Signature };

    /// Is `Signature`.
    fn sign(
        &mut self,
        _alloc: Global,
        _private: &[u8],
        _message: &[u8],
    ) -> Result<[u8; SIG], PasetoError> {
        Err(PasetoError::Signature)
    }

    /// Is `Signature`.
    fn verify(
        &self,
        _alloc: Global,
        _public: &[u8],
        _message: &[u8],
        _signature: &[u8; SIG],
    ) -> Result<(), PasetoError> {
        Err(PasetoError::Signature)
    }
}

impl CompressedKey for Refusing {
    /// Is `Signature`.
    fn public_key(&self, _alloc: Global, _private: &[u8]) -> Result<[u8; 49], PasetoError> {
        Err(PasetoError::Signature)
    }
}
