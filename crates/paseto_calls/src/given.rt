//! Random bytes that the caller has drawn.

ghost use Rattle.std.specs.Prelude.{◌≡◌, length};

use rand_core::{Infallible, TryRng};

/// A generator that returns the caller's bytes. It is called once, for a nonce.
#[derive(Drop)]
pub struct Given<'a> {
    pub bytes: &'a [u8],
}

impl TryRng for Given<'_> {
    type Error = Infallible;

    ghost may_fill = { λ given filled _. length filled ≡ length given.bytes.now → filled
        ≡ given.bytes.now };

    fn try_next_u32(&mut self) -> Result<u32, Infallible> {
        Ok(0)
    }

    fn try_next_u64(&mut self) -> Result<u64, Infallible> {
        Ok(0)
    }

    fn try_fill_bytes(&mut self, dst: &mut [u8]) -> Result<(), Infallible> {
        if dst.len() == self.bytes.len() {
            dst.copy_from_slice(self.bytes);
        }
        Ok(())
    }
}
