//! Of `poly1305`.

use paseto_xchacha20poly1305::poly1305;

/// The Poly1305 tag of a message. A key serves one message.
pub fn tag(one_time_key: &[u8; 32], message: &[u8]) -> [u8; 16] {
    poly1305(one_time_key, message)
}
