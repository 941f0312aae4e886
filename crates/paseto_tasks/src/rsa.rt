//! The scheme of version 1, for verification.

use paseto_rsa::RsaPss;
use rand_core::TryRng;
use std::fmt;

/// A generator with no bytes. Every call fails, so a scheme over it verifies and never signs.
#[derive(Drop)]
pub struct NoSalt;

impl TryRng for NoSalt {
    type Error = fmt::Error;

    ghost may_next_u32 = { λ _ _ _. ⊥ };

    ghost may_next_u64 = { λ _ _ _. ⊥ };

    ghost may_fill = { λ _ _ _. ⊥ };

    fn try_next_u32(&mut self) -> Result<u32, fmt::Error> {
        Err(fmt::Error)
    }

    fn try_next_u64(&mut self) -> Result<u64, fmt::Error> {
        Err(fmt::Error)
    }

    fn try_fill_bytes(&mut self, _dst: &mut [u8]) -> Result<(), fmt::Error> {
        Err(fmt::Error)
    }
}

/// The scheme for verification, for which no salt is generated.
pub fn verifier() -> RsaPss<NoSalt> {
    RsaPss::new(NoSalt)
}
