//! XChaCha20-Poly1305, the sealed box of local tokens of version 2, and Poly1305, its authenticator.
//!
//! ```rust
//! use paseto_xchacha20poly1305::XChaCha20Poly1305;
//! use rusty_paseto_core::{Local, Paseto, PasetoError, PasetoNonce, PasetoSymmetricKey, Payload, V2};
//! use std::alloc::Global;
//!
//! /// Encrypts a message in version 2, and decrypts it.
//! pub fn round_trip(
//!     alloc: Global,
//!     key: &PasetoSymmetricKey<V2, Local>,
//!     nonce: &PasetoNonce<'_, V2, Local>,
//! ) -> Result<String, PasetoError> {
//!     let mut paseto = Paseto::<V2, Local>::builder();
//!     paseto.set_payload(Payload::from("a message"));
//!     let token = paseto.try_encrypt(alloc, &XChaCha20Poly1305, key, nonce)?;
//!     Paseto::<V2, Local>::try_decrypt(alloc, &XChaCha20Poly1305, token.as_str(), key, None)
//! }
//! ```
#![tactic(auto)]

mod arithmetic;
mod hasher;
pub mod laws;
mod limbs;
mod sealing;
mod tag;

pub use hasher::Poly1305Hasher;
pub use sealing::XChaCha20Poly1305;
pub use tag::poly1305;
