//! Generators of bytes for builders.

use rand_core::{Infallible, TryRng};
use std::fmt;

/// A generator that counts: the bytes 1, 2, 3 and so on.
#[derive(Drop)]
pub struct Counting {
    last: u8,
}

impl Counting {
    /// A generator that begins anew.
    pub fn new() -> Self {
        Counting { last: 0 }
    }
}

impl TryRng for Counting {
    type Error = Infallible;

    fn try_next_u32(&mut self) -> Result<u32, Infallible> {
        Ok(0)
    }

    fn try_next_u64(&mut self) -> Result<u64, Infallible> {
        Ok(0)
    }

    fn try_fill_bytes(&mut self, bytes: &mut [u8]) -> Result<(), Infallible> {
        'bytes: for byte in bytes.iter_mut() {
            self.last = self.last.wrapping_add(1);
            *byte = self.last;
        }
        Ok(())
    }
}

/// A generator of zeros.
#[derive(Drop)]
pub struct Zeros;

impl TryRng for Zeros {
    type Error = Infallible;

    fn try_next_u32(&mut self) -> Result<u32, Infallible> {
        Ok(0)
    }

    fn try_next_u64(&mut self) -> Result<u64, Infallible> {
        Ok(0)
    }

    fn try_fill_bytes(&mut self, bytes: &mut [u8]) -> Result<(), Infallible> {
        bytes.fill(0);
        Ok(())
    }
}

/// A generator that always fails, and counts how often it is asked.
#[derive(Drop)]
pub struct Failing {
    /// How often it was asked.
    pub asked: u8,
}

impl TryRng for Failing {
    type Error = fmt::Error;

    fn try_next_u32(&mut self) -> Result<u32, fmt::Error> {
        Err(fmt::Error)
    }

    fn try_next_u64(&mut self) -> Result<u64, fmt::Error> {
        Err(fmt::Error)
    }

    fn try_fill_bytes(&mut self, bytes: &mut [u8]) -> Result<(), fmt::Error> {
        bytes.fill(7);
        self.asked = self.asked.wrapping_add(1);
        Err(fmt::Error)
    }
}
