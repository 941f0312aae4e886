//! Toys for the crates that test: what a caller of the library brings, as small as it can be, and its keys.
//!
//! A toy sealed box stands in for the one that a caller brings to tokens of version 2, toy signature schemes
//! for those that a caller brings to public tokens, and generators of known bytes for a random one. `OneTag` is a
//! version whose tokens share a tag. `long` has texts that are longer than those that a call may be expected to take.
//!
//! ```rust
//! use rusty_paseto_core::{
//!     Paseto, PasetoAsymmetricPrivateKey, PasetoAsymmetricPublicKey, PasetoError, Public, V4,
//! };
//! use std::alloc::Global;
//! use test_toys::ToyV4;
//!
//! /// Signs an empty message by a toy, and verifies it.
//! pub fn round_trip(
//!     alloc: Global,
//!     private: &PasetoAsymmetricPrivateKey<'_, V4, Public>,
//!     public: &PasetoAsymmetricPublicKey<'_, V4, Public>,
//! ) -> Result<String, PasetoError> {
//!     let token = Paseto::<V4, Public>::builder().try_sign(alloc, &mut ToyV4, private)?;
//!     Paseto::<V4, Public>::try_verify(alloc, &ToyV4, token.as_str(), public, None, None)
//! }
//! ```
//!
//! Anyone can sign by a toy, and a toy box keeps nothing secret.
#![tactic(auto)]

pub mod counting;
pub mod generators;
pub mod keys;
mod lenient;
pub mod long;
mod one_tag;
mod plain_box;
mod refusing;
mod toy_box;
mod toy_schemes;
mod toy_signature;

pub use lenient::Lenient;
pub use one_tag::OneTag;
pub use plain_box::PlainBox;
pub use refusing::Refusing;
pub use toy_box::ToyBox;
pub use toy_schemes::{ToyV1, ToyV2, ToyV3, ToyV4};
pub use toy_signature::{toy_partner, toy_partner_v3};
