//! Of `P384`.

use paseto_p384::P384;
use rand_core::TryRng;
use rusty_paseto_core::{PasetoError, SignatureScheme};
use std::alloc::Global;

/// Signs a message under a new key, and verifies it.
pub fn sign_and_verify<R: TryRng>(
    alloc: Global,
    rng: &mut R,
    message: &[u8],
) -> Result<(), PasetoError> {
    let (private, public) = P384::key_pair(rng)?;
    let signature = P384.sign(alloc, private.as_bytes(), message)?;
    P384.verify(alloc, public.as_bytes(), message, &signature)
}
