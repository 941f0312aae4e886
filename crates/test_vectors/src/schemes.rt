//! Signature schemes: those of the versions, and the toys by themselves.

mod ed25519;
mod p384;
pub(crate) mod rsa;
mod toys;

use rand_core::{Infallible, TryRng};

// A generator that gives one byte again and again.
#[derive(Drop)]
struct Repeated {
    byte: u8,
}

impl TryRng for Repeated {
    type Error = Infallible;

    fn try_next_u32(&mut self) -> Result<u32, Infallible> {
        Ok(7)
    }

    fn try_next_u64(&mut self) -> Result<u64, Infallible> {
        Ok(7)
    }

    fn try_fill_bytes(&mut self, bytes: &mut [u8]) -> Result<(), Infallible> {
        bytes.fill(self.byte);
        Ok(())
    }
}
