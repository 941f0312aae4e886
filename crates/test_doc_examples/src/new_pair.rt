//! Of `Ed25519::try_new_pair`.

use paseto_ed25519::Ed25519;
use rand_core::TryRng;
use rusty_paseto::prelude::*;
use std::alloc::Global;

/// A token that the new key signed, and the public key for its readers.
pub fn sign<R: TryRng>(alloc: Global, rng: &mut R) -> Result<(String, PublicKey<V4>), PasetoError> {
    let pair: KeyPair<V4> = Ed25519::try_new_pair(alloc, rng)?;
    let token = Paseto::<V4, Public>::builder().try_sign(alloc, &mut Ed25519, &pair.private())?;
    let (_private, public) = pair.into_keys();
    Ok((token, public))
}
