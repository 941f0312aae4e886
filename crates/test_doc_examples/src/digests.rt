//! Of `rusty_paseto_primitives`.

use rusty_paseto_primitives::{blake2b_keyed, hmac_sha384};

/// The BLAKE2b digest and the HMAC-SHA384 code of a message.
pub fn digests(key: &[u8; 32], message: &[u8]) -> ([u8; 32], [u8; 48]) {
    (blake2b_keyed(key, message), hmac_sha384(key, message))
}
