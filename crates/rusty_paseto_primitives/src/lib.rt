//! The cryptographic primitives of PASETO tokens. No call allocates.
//!
//! ```rust
//! use rusty_paseto_primitives::{blake2b_keyed, hmac_sha384};
//!
//! /// The BLAKE2b digest and the HMAC-SHA384 code of a message.
//! pub fn digests(key: &[u8; 32], message: &[u8]) -> ([u8; 32], [u8; 48]) {
//!     (blake2b_keyed(key, message), hmac_sha384(key, message))
//! }
//! ```
//!
//! They are for building protocols: a cipher alone does not authenticate.
#![tactic(auto)]

mod aes;
mod blake2;
mod chacha;
mod equality;
mod hkdf;
mod hmac;
mod keystream;
pub mod laws;
mod pbkdf2;

pub use aes::{Aes256, aes256_ctr_apply};
pub use blake2::hasher::Blake2b;
pub use blake2::keyed::blake2b_keyed;
pub use blake2::pair::blake2b_keyed_pair;
pub use chacha::{chacha20_block, hchacha20, quarter_round, xchacha20_apply, xchacha20_apply_from};
pub use equality::same_bytes;
pub use hkdf::{hkdf_sha384_expand, hkdf_sha384_extract};
pub use hmac::{HmacSha384, hmac_sha384};
pub use pbkdf2::{DerivedKeyTooLong, pbkdf2_sha384, pbkdf2_sha384_into};
