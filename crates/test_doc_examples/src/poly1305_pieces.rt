//! Of `Poly1305Hasher`.

use paseto_xchacha20poly1305::Poly1305Hasher;

/// The tag of a message in two pieces.
pub fn tag_of_pieces(one_time_key: &[u8; 32], first: &[u8], second: &[u8]) -> [u8; 16] {
    let mut hasher = Poly1305Hasher::new(one_time_key);
    hasher.update(first);
    hasher.update(second);
    hasher.finalize()
}
