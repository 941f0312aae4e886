//! Keys as PASERK text, which other programs can read: one line for each key, which names its version and its type, and
//! a short id that identifies the key without revealing it.
//!
//! ```rust
//! use rusty_paseto_parts::{Local, PasetoSymmetricKey, V4};
//! use rusty_paseto_paserk::{PaserkError, local_from_paserk, local_id, local_to_paserk};
//! use std::alloc::Global;
//!
//! /// Writes a key as a text, `k4.local...`, reads it again, and answers its id, `k4.lid...`.
//! pub fn write_and_read(
//!     alloc: Global,
//!     key: &PasetoSymmetricKey<V4, Local>,
//! ) -> Result<String, PaserkError> {
//!     let text = local_to_paserk(alloc, key)?;
//!     let again = local_from_paserk::<V4>(alloc, text.as_str())?;
//!     local_id(alloc, &again)
//! }
//! ```
//!
//! A key of another version or type is refused with an error that names it.
#![tactic(auto)]

mod error;
mod header;
mod id;
mod keys;
pub mod laws;
mod rsa;
mod text;
mod versions;

pub use error::PaserkError;
pub use header::{PaserkType, PaserkVersion, header_of};
pub use id::{local_id, public_id, secret_id};
pub use keys::{
    local_from_paserk, local_to_paserk, private_key_from_paserk, public_from_paserk,
    public_key_from_paserk, public_to_paserk, secret_from_paserk, secret_to_paserk,
};
pub use rsa::{
    rsa_private_key_from_paserk, rsa_public_id, rsa_public_key_from_paserk, rsa_public_to_paserk,
    rsa_secret_id, rsa_secret_to_paserk,
};
pub use versions::{KeyPairVersion, KeyVersion};
