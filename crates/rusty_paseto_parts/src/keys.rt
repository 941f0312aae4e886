//! Keys and nonces.

pub mod key;
pub mod key_pair;
pub mod nonce;
pub mod owned_keys;
pub mod private_key;
pub mod public_key;
pub mod symmetric_key;
