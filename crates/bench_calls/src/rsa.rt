//! Signatures of version 1, each call many times over.
//!
//! Each call answers 2^64 - 1 where a length is not one that it has, or the scheme refused.

ghost use Rattle.std.specs.Prelude.{◌≡◌, ◌≢◌, ◌^◌, ◌-◌};
ghost use Rattle.paseto_rsa.specs.Keys.{rsa_public};
ghost use Rattle.paseto_rsa.specs.RsaPss.{RsaPssVerifies};

use paseto_rsa::{PublicKey, RsaPss};
use rand_core::{Infallible, TryRng};
use rusty_paseto_core::SignatureScheme;
use std::alloc::Global;

/// What is answered where a length is wrong or the scheme refused.
const FAILED: u64 = u64::MAX;

/// A generator of numbered salts, which costs next to nothing.
#[derive(Drop)]
struct Numbers {
    last: u64,
}

impl TryRng for Numbers {
    type Error = Infallible;

    fn try_next_u32(&mut self) -> Result<u32, Infallible> {
        Ok(0)
    }

    fn try_next_u64(&mut self) -> Result<u64, Infallible> {
        Ok(0)
    }

    fn try_fill_bytes(&mut self, bytes: &mut [u8]) -> Result<(), Infallible> {
        self.last = self.last.wrapping_add(1);
        bytes.fill(self.last.to_le_bytes()[0]);
        Ok(())
    }
}

/// Signs `message` under a private key in PKCS #8, `reps` times and at least once, each time with another salt. The
/// answer is 0.
pub fn bench_rsa_sign(
    alloc: Global,
    private: &[u8],
    message: &[u8],
    signature: &mut [u8],
    reps: u32,
) -> u64
    ensures { result ≢ 2 ^ 64 - 1
        → RsaPssVerifies (rsa_public private.now) message.now signature.new }
{
    if signature.len() != 256 {
        return FAILED;
    }
    let mut scheme = RsaPss::new(Numbers { last: 0 });
    'repetitions: for _repetition in 1..reps {
        match scheme.sign(alloc, private, message) {
            Ok(made) => signature.copy_from_slice(&made),
            Err(_) => return FAILED,
        }
    }
    let last = match scheme.sign(alloc, private, message) {
        Ok(last) => last,
        Err(_) => return FAILED,
    };
    signature.copy_from_slice(&last);
    0
}

/// Verifies a signature of 256 bytes under a public key in PKCS #1, which is read each time, `reps` times and at least
/// once. It is the same each time: one that is not valid is mostly refused by its last byte, before anything is hashed.
/// The answer is how many times it is valid.
pub fn bench_rsa_verify(
    alloc: Global,
    public: &[u8],
    message: &[u8],
    signature: &[u8],
    reps: u32,
) -> u64
    ensures { result ≢ 2 ^ 64 - 1 → RsaPssVerifies public.now message.now signature.now }
{
    let Some(signature) = signature.as_array::<256>() else {
        return FAILED;
    };
    let scheme = RsaPss::new(Numbers { last: 0 });
    let mut valid = 0u64;
    'repetitions: for _repetition in 1..reps {
        if scheme.verify(alloc, public, message, signature).is_ok() {
            valid = valid.wrapping_add(1);
        }
    }
    match scheme.verify(alloc, public, message, signature) {
        Ok(()) => valid.wrapping_add(1) % FAILED,
        Err(_) => FAILED,
    }
}

/// The same under a public key that is read once.
pub fn bench_rsa_verify_read(public: &[u8], message: &[u8], signature: &[u8], reps: u32) -> u64
    ensures { result ≢ 2 ^ 64 - 1 → RsaPssVerifies public.now message.now signature.now }
{
    let Some(signature) = signature.as_array::<256>() else {
        return FAILED;
    };
    let Some(key) = PublicKey::from_der(public) else {
        return FAILED;
    };
    let mut valid = 0u64;
    'repetitions: for _repetition in 1..reps {
        if key.verify(message, signature) {
            valid = valid.wrapping_add(1);
        }
    }
    if !key.verify(message, signature) {
        return FAILED;
    }
    valid.wrapping_add(1) % FAILED
}
