//! Of `paseto_pem`.

use paseto_pem::{PemError, private_key_from_pem, private_key_to_pem};
use rusty_paseto_parts::V4;
use std::alloc::Global;

/// Reads a key that `openssl genpkey -algorithm ed25519` made, and writes it again.
pub fn read_and_write(alloc: Global, text: &str) -> Result<String, PemError> {
    let key = private_key_from_pem::<V4>(alloc, text)?;
    private_key_to_pem(alloc, &key.lend())
}
