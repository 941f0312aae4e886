//! Keys of any version and type, and the tokens that they read and write.
//!
//! A token is a text, and so are its claims. So code that reads or writes tokens needs no type parameter for the
//! version or the purpose: it takes an [`AnyKey`], or any [`TokenReader`] or [`TokenWriter`]. A key is bound to its
//! version and its type, and reads and writes no other tokens.
//!
//! ```rust
//! use paseto_keys::{AnyKey, KeyError, TokenWriter, decrypt, encrypt};
//! use rand_core::TryRng;
//! use std::alloc::Global;
//!
//! /// Encrypts a text with a key for local tokens, with random bytes from a generator, and decrypts the token.
//! pub fn there_and_back<G: TryRng>(
//!     alloc: Global,
//!     key: &AnyKey,
//!     generator: &mut G,
//!     text: &str,
//! ) -> Result<String, KeyError> {
//!     let drawn = key.draw(alloc, generator)?;
//!     let token = encrypt(alloc, key, &drawn, text, None, None)?;
//!     decrypt(alloc, key, token.as_str(), None, None)
//! }
//! ```
//!
//! Nothing is wiped: the bytes of a key stay in memory when it is dropped.
#![tactic(auto, unfolding(rusty_paseto_core::specs::Local::V1::v1, rusty_paseto_core::specs::Local::V3::v3, rusty_paseto_core::specs::Local::V4::v4))]

mod any_key;
mod claims;
mod claims_builder;
mod drawing;
mod error;
mod forms;
mod generation;
mod id;
mod line;
mod public_half;
mod reading;
mod ring;
mod ring_error;
mod salted;
mod token_key;
mod token_reader;
mod token_writer;
mod tokens;
mod unlock;
mod writing;
mod written_line;

pub use any_key::AnyKey;
pub use claims::{ClaimsParser, admit, issue};
pub use claims_builder::ClaimsBuilder;
pub use error::{AdmitError, KeyError};
pub use ring::admit_by_ring;
pub use ring_error::RingError;
pub use token_key::TokenKey;
pub use token_reader::TokenReader;
pub use token_writer::TokenWriter;
pub use tokens::{decrypt, encrypt, sign, verify};
