//! Ed25519 (RFC 8032), the signature scheme of PASETO's public tokens in versions 2 and 4.
#![tactic(auto)]

mod bytes;
mod ed25519;
pub mod laws;
mod signer;
mod signing;

pub use ed25519::Ed25519;
pub use signer::Ed25519Signer;
