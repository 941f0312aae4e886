//! Argon2id (RFC 9106): derives a key from a password, at a cost in time and memory for an attacker who guesses
//! passwords.
//!
//! ```rust
//! use paseto_argon2::{Argon2Error, Parameters, argon2id};
//! use std::alloc::Global;
//!
//! /// The key of a password by 64 MiB and two passes.
//! pub fn key_of(alloc: Global, password: &str, salt: &[u8; 16]) -> Result<[u8; 32], Argon2Error> {
//!     let parameters = Parameters {
//!         memory: 64 * 1024,
//!         passes: 2,
//!         lanes: 1,
//!     };
//!     let mut key = [0; 32];
//!     argon2id(alloc, password.as_bytes(), salt, parameters, &mut key)?;
//!     Ok(key)
//! }
//! ```
#![tactic(auto)]

mod allowed;
mod block;
mod derivation;
mod error;
mod filling;
mod permutation;
mod variable_hash;

pub use allowed::Parameters;
pub use derivation::{argon2id, argon2id_with};
pub use error::Argon2Error;
