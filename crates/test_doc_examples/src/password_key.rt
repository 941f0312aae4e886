//! Of `rusty_paseto_primitives`.

use rusty_paseto_primitives::pbkdf2_sha384;

/// The key of a password by 100,000 iterations.
pub fn key_of(password: &str, salt: &[u8; 32]) -> [u8; 48] {
    pbkdf2_sha384(password.as_bytes(), salt, 100_000)
}
