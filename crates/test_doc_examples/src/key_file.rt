//! Of `paseto_key_files`.

use paseto_key_files::{KeyFileError, Openers, unlock};
use std::alloc::Global;

/// The line of the key that a file of this text holds, under a password where it is locked.
pub fn line_of(alloc: Global, password: &[u8], text: &str) -> Result<String, KeyFileError> {
    let openers = Openers {
        password: Some(password),
        key: None,
    };
    unlock(alloc, &openers, text)
}
