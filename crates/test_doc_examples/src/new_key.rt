//! Of `PasetoSymmetricKey::try_new_random`.

use rand_core::TryRng;
use rusty_paseto::prelude::*;

/// The key of a service that begins: `local_to_paserk` writes it as a text, which it keeps.
pub fn new_key<R: TryRng>(rng: &mut R) -> Result<PasetoSymmetricKey<V4, Local>, PasetoError> {
    PasetoSymmetricKey::try_new_random(rng)
}
