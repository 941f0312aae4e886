//! Of `XChaCha20Poly1305`.

use paseto_xchacha20poly1305::XChaCha20Poly1305;
use rusty_paseto_core::{Local, Paseto, PasetoError, PasetoSymmetricKey, V2};
use std::alloc::Global;

/// The text of a token of version 2 with no footer.
pub fn decrypt(
    alloc: Global,
    token: &str,
    key: &PasetoSymmetricKey<V2, Local>,
) -> Result<String, PasetoError> {
    Paseto::<V2, Local>::try_decrypt(alloc, &XChaCha20Poly1305, token, key, None)
}
