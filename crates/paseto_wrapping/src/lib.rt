//! Keys under a wrapping key, under a password, or sealed to a public key, as PASERK text. Keys can be stored and sent
//! in this form where others may read them.
//!
//! ```rust
//! use paseto_wrapping::{WrapError, WrappingKey, unwrap_local, wrap_local};
//! use rusty_paseto_parts::{Key, Local, PasetoSymmetricKey, V4};
//! use std::alloc::Global;
//!
//! /// Writes a key under a wrapping key, `k4.local-wrap.pie...`, by a nonce that was drawn for it, and reads it again.
//! pub fn wrap_and_unwrap(
//!     alloc: Global,
//!     wrapping_key: &WrappingKey<V4>,
//!     nonce: &Key<32>,
//!     key: &PasetoSymmetricKey<V4, Local>,
//! ) -> Result<PasetoSymmetricKey<V4, Local>, WrapError> {
//!     let text = wrap_local(alloc, wrapping_key, nonce, key)?;
//!     unwrap_local(alloc, wrapping_key, text.as_str())
//! }
//! ```
//!
//! A text of another version or type is refused with an error that names it. A text is bound to its header: a key that
//! was wrapped as one version or type is not unwrapped as another.
#![tactic(auto)]

mod cost;
mod error;
mod family;
mod header;
mod keys;
pub mod laws;
mod password;
mod pie;
mod sealing;
mod text;

pub use cost::PasswordCost;
pub use error::WrapError;
pub use header::{WrappedType, wrapped_header_of};
pub use keys::WrappingKey;
pub use password::{protect_local, protect_secret, unprotect_local, unprotect_secret};
pub use pie::{unwrap_local, unwrap_secret, wrap_local, wrap_secret};
pub use sealing::{seal, unseal};
