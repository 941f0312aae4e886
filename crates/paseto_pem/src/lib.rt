//! Keys in PEM (RFC 7468), as `openssl pkey` writes them: private keys in PKCS #8 and public keys as SubjectPublicKeyInfo,
//! of Ed25519 for versions 2 and 4, of P-384 for version 3, and of RSA for version 1.
//!
//! ```rust
//! use paseto_pem::{PemError, private_key_from_pem, private_key_to_pem};
//! use rusty_paseto_parts::V4;
//! use std::alloc::Global;
//!
//! /// Reads a key that `openssl genpkey -algorithm ed25519` made, and writes it again.
//! pub fn read_and_write(alloc: Global, text: &str) -> Result<String, PemError> {
//!     let key = private_key_from_pem::<V4>(alloc, text)?;
//!     private_key_to_pem(alloc, &key.lend())
//! }
//! ```
//!
//! `EC PRIVATE KEY` (SEC 1), `RSA PRIVATE KEY` and `RSA PUBLIC KEY` (PKCS #1) are read, too, and keys of other programs
//! than OpenSSL. Anything else is refused with an error that says what it is.
//!
//! `key_from_pem` reads a key of whatever algorithm, private or public, and says which it is; `holds_pem` says whether a
//! text has a block of PEM at all.
#![tactic(auto)]

mod algorithm;
mod ed25519;
mod error;
mod found;
mod info;
mod keys;
mod label;
pub mod laws;
mod p384;
mod pem_key;
mod rsa;
mod text;
mod version;

pub use error::PemError;
pub use found::{Algorithm, Curve};
pub use keys::{private_key_from_pem, private_key_to_pem, public_key_from_pem, public_key_to_pem};
pub use label::Label;
pub use pem_key::{PemKey, key_from_pem};
pub use text::holds_pem;
pub use version::PemVersion;
