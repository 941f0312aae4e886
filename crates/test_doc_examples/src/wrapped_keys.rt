//! Of `paseto_wrapping`.

use paseto_wrapping::{WrapError, WrappingKey, unwrap_local, wrap_local};
use rusty_paseto_parts::{Key, Local, PasetoSymmetricKey, V4};
use std::alloc::Global;

/// Writes a key under a wrapping key, `k4.local-wrap.pie...`, by a nonce that was drawn for it, and reads it again.
pub fn wrap_and_unwrap(
    alloc: Global,
    wrapping_key: &WrappingKey<V4>,
    nonce: &Key<32>,
    key: &PasetoSymmetricKey<V4, Local>,
) -> Result<PasetoSymmetricKey<V4, Local>, WrapError> {
    let text = wrap_local(alloc, wrapping_key, nonce, key)?;
    unwrap_local(alloc, wrapping_key, text.as_str())
}
