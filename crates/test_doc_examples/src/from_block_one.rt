//! Of `xchacha20_apply_from`.

use rusty_paseto_primitives::{xchacha20_apply, xchacha20_apply_from};

/// Encrypts a text from block 1 on, and answers the one-time key, which stands in block 0.
pub fn encrypt(key: &[u8; 32], nonce: &[u8; 24], text: &mut [u8]) -> [u8; 32] {
    let mut one_time_key = [0u8; 32];
    xchacha20_apply(key, nonce, &mut one_time_key);
    xchacha20_apply_from(key, nonce, 1, text);
    one_time_key
}
