//! Of `rusty_paseto_core`.

use rusty_paseto_core::{
    Footer, Local, Paseto, PasetoError, PasetoNonce, PasetoSymmetricKey, Payload, V4,
};
use std::alloc::Global;

/// Encrypts a message with a footer, and decrypts it.
pub fn round_trip(
    alloc: Global,
    key: &PasetoSymmetricKey<V4, Local>,
    nonce: &PasetoNonce<'_, V4, Local>,
) -> Result<String, PasetoError> {
    let footer = Footer::from("{\"kid\":\"2026-11\"}");
    let mut paseto = Paseto::<V4, Local>::builder();
    paseto
        .set_payload(Payload::from("a message"))
        .set_footer(footer);
    let token = paseto.try_encrypt(alloc, key, nonce)?;
    Paseto::<V4, Local>::try_decrypt(alloc, token.as_str(), key, Some(footer), None)
}
