//! Of `RsaPss`.

use paseto_rsa::RsaPss;
use rand_core::TryRng;
use rusty_paseto_core::{PasetoError, SignatureScheme};
use std::alloc::Global;

/// Signs a message with a random salt, and verifies it.
pub fn sign_and_verify<R: TryRng + Drop>(
    alloc: Global,
    rng: R,
    private: &[u8],
    public: &[u8],
    message: &[u8],
) -> Result<(), PasetoError> {
    let mut scheme = RsaPss::new(rng);
    let signature = scheme.sign(alloc, private, message)?;
    scheme.verify(alloc, public, message, &signature)
}
