//! Of `paseto_keys`.

use paseto_keys::{AnyKey, KeyError, TokenWriter, decrypt, encrypt};
use rand_core::TryRng;
use std::alloc::Global;

/// Encrypts a text with a key for local tokens, with random bytes from a generator, and decrypts the token.
pub fn there_and_back<G: TryRng>(
    alloc: Global,
    key: &AnyKey,
    generator: &mut G,
    text: &str,
) -> Result<String, KeyError> {
    let drawn = key.draw(alloc, generator)?;
    let token = encrypt(alloc, key, &drawn, text, None, None)?;
    decrypt(alloc, key, token.as_str(), None, None)
}
