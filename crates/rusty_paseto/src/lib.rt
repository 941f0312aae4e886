//! PASETO tokens, local and public, of versions 1 to 4: builders and parsers of tokens with the usual claims, on top of
//! the generic ones and the core.
//!
//! ```rust
//! use anyhow::Result;
//! use jiff::Timestamp;
//! use rand_core::TryRng;
//! use rusty_paseto::prelude::*;
//! use serde_json::Value;
//! use std::alloc::Global;
//!
//! /// Builds a token that is good after `now`, for an hour, and parses it later.
//! pub fn round_trip<R: TryRng>(
//!     alloc: Global,
//!     now: Timestamp,
//!     later: Timestamp,
//!     rng: &mut R,
//!     key: &PasetoSymmetricKey<V4, Local>,
//! ) -> Result<Value> {
//!     let token = PasetoBuilder::<V4, Local>::try_default(alloc, now)?.build(rng, key)?;
//!     Ok(PasetoParser::<V4, Local>::default(alloc, later)?.parse(token.as_str(), key)?)
//! }
//! ```
//!
//! `paseto_example` is a complete program that uses this crate.
#![tactic(auto)]

mod error;
mod key_ring;
mod keys;
pub mod laws;
mod moment;
mod paseto_builder;
mod paseto_parser;
pub mod prelude;
mod setter;
mod shown_id;
pub mod validators;
mod version;

pub use error::{GeneralPasetoError, KeyRingError, KeyRingParserError};
pub use key_ring::{
    KeyRing, OwnedPublicKeyRing, PublicKeyRing, Ring, footer_of, key_footer, key_id,
};
pub use moment::fits_default;
pub use paseto_builder::PasetoBuilder;
pub use paseto_parser::{DefaultParser, PasetoParser};
pub use rusty_paseto_core as paseto_core;
pub use rusty_paseto_generic as generic;
pub use setter::CountingSetter;
pub use version::{DefaultAssertionVersion, DefaultLocalVersion};
