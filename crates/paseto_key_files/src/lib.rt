//! Converts between key files in all their forms and the line that a program stores for a key: its PASERK text, such as
//! `k4.local...`.
//!
//! `unlock` reads a key file, in PEM, password-protected, wrapped or sealed, and returns the line of its key.
//! `protect`, `wrap`, `seal` and `pem_of` write a line in these forms.
//!
//! ```rust
//! use paseto_key_files::{KeyFileError, Openers, unlock};
//! use std::alloc::Global;
//!
//! /// The line of the key that a file of this text holds, under a password where it is locked.
//! pub fn line_of(alloc: Global, password: &[u8], text: &str) -> Result<String, KeyFileError> {
//!     let openers = Openers {
//!         password: Some(password),
//!         key: None,
//!     };
//!     unlock(alloc, &openers, text)
//! }
//! ```
//!
//! The line of a secret key is as secret as the key. Nothing is wiped: lines, keys and random bytes stay in memory when
//! they are dropped.
#![tactic(auto)]

mod drawing;
mod error;
pub mod laws;
mod line;
mod openers;
mod opening;
mod password;
mod pem;
mod sealing;
mod wrapping;

pub use error::KeyFileError;
pub use openers::Openers;
pub use opening::unlock;
pub use password::protect;
pub use pem::pem_of;
pub use sealing::seal;
pub use wrapping::wrap;
