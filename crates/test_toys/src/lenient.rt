//! A signature scheme that accepts everything, and takes memory.

ghost use Rattle.std.specs.Prelude.{⊤, replicate};

use rusty_paseto_core::{CompressedKey, PasetoError, SignatureScheme};
use std::alloc::Global;

/// A signature scheme that holds **every signature valid**, and copies each message on the way. So a test can
/// refuse it memory.
#[derive(Drop)]
pub struct Lenient;

impl<const SIG: usize> SignatureScheme<SIG> for Lenient {
    ghost valid = { λ public message signature. ⊤ };

    ghost partner = { λ private. replicate 49 2 };

    ghost refused = { λ public message signature error. ⊥ };

    ghost declined = { λ private message error. ⊥ };

    /// Bytes that do not depend on the message.
    fn sign(
        &mut self,
        alloc: Global,
        _private: &[u8],
        message: &[u8],
    ) -> Result<[u8; SIG], PasetoError> {
        let _copy = message.to_vec(alloc)?;
        Ok([7; SIG])
    }

    /// Is `Ok`.
    fn verify(
        &self,
        alloc: Global,
        _public: &[u8],
        message: &[u8],
        _signature: &[u8; SIG],
    ) -> Result<(), PasetoError> {
        let _copy = message.to_vec(alloc)?;
        Ok(())
    }
}

impl CompressedKey for Lenient {
    /// The same key for each private key.
    fn public_key(&self, alloc: Global, private: &[u8]) -> Result<[u8; 49], PasetoError> {
        let _copy = private.to_vec(alloc)?;
        Ok([2; 49])
    }
}
