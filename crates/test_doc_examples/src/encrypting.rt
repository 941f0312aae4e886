//! Of `Paseto`.

use rusty_paseto_core::{
    Footer, Local, Paseto, PasetoError, PasetoNonce, PasetoSymmetricKey, Payload, V4,
};
use std::alloc::Global;

/// The token of a message, whose footer names the key.
pub fn encrypt(
    alloc: Global,
    key: &PasetoSymmetricKey<V4, Local>,
    nonce: &PasetoNonce<'_, V4, Local>,
    message: &str,
) -> Result<String, PasetoError> {
    let mut paseto = Paseto::<V4, Local>::builder();
    paseto
        .set_payload(Payload::from(message))
        .set_footer(Footer::from("{\"kid\":\"2026-11\"}"));
    paseto.try_encrypt(alloc, key, nonce)
}
