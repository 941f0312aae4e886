//! The scheme of version 1 with a salt that was drawn before.

ghost use Rattle.std.specs.Prelude.{◌≡◌, length};
ghost use Rattle.paseto_rsa.specs.Keys.{rsa_public};
ghost use Rattle.paseto_rsa.specs.RsaPss.{IsRefused, RsaPssVerifies};
ghost use Rattle.paseto_keys.specs.Salted.{IsUnsigned};

use paseto_rsa::RsaPss;
use rand_core::{Infallible, TryRng};
use rusty_paseto_core::{PasetoError, SignatureScheme};
use std::alloc::Global;

/// A generator that returns the bytes that were drawn before. Nobody asks it for numbers, each of which is 0.
#[derive(Drop)]
pub(crate) struct Given<'a> {
    pub(crate) bytes: &'a [u8],
}

impl TryRng for Given<'_> {
    type Error = Infallible;

    ghost may_next_u32 = { λ _ number _. number ≡ 0 };

    ghost may_next_u64 = { λ _ number _. number ≡ 0 };

    ghost may_fill = { λ given filled _. length filled ≡ length given.bytes.now → filled
        ≡ given.bytes.now };

    fn try_next_u32(&mut self) -> Result<u32, Infallible> {
        Ok(0)
    }

    fn try_next_u64(&mut self) -> Result<u64, Infallible> {
        Ok(0)
    }

    fn try_fill_bytes(&mut self, dst: &mut [u8]) -> Result<(), Infallible> {
        if dst.len() == self.bytes.len() {
            dst.copy_from_slice(self.bytes);
        }
        Ok(())
    }
}

/// RSASSA-PSS with a salt that was drawn before: of 48 bytes for a signature, and of any length for verifying, which
/// draws none.
#[derive(Drop)]
pub(crate) struct Salted<'a> {
    scheme: RsaPss<Given<'a>>,
}

impl<'a> Salted<'a> {
    /// The scheme over this salt.
    pub(crate) fn new(salt: &'a [u8]) -> Salted<'a>
        ensures { result.scheme.rng.bytes.now ≡ salt.now }
    {
        Salted {
            scheme: RsaPss::new(Given { bytes: salt }),
        }
    }
}

impl SignatureScheme<256> for Salted<'_> {
    ghost valid = { RsaPssVerifies };

    ghost partner = { rsa_public };

    ghost refused = { IsRefused };

    ghost declined = { IsUnsigned };

    fn sign(
        &mut self,
        alloc: Global,
        private: &[u8],
        message: &[u8],
    ) -> Result<[u8; 256], PasetoError> {
        self.scheme.sign(alloc, private, message)
    }

    fn verify(
        &self,
        alloc: Global,
        public: &[u8],
        message: &[u8],
        signature: &[u8; 256],
    ) -> Result<(), PasetoError> {
        self.scheme.verify(alloc, public, message, signature)
    }
}
