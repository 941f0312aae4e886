//! Encrypting and decrypting, signing and verifying PASETO tokens. All memory comes from the allocator that a call is
//! passed.
//!
//! ```rust
//! use rusty_paseto_core::{
//!     Footer, Local, Paseto, PasetoError, PasetoNonce, PasetoSymmetricKey, Payload, V4,
//! };
//! use std::alloc::Global;
//!
//! /// Encrypts a message with a footer, and decrypts it.
//! pub fn round_trip(
//!     alloc: Global,
//!     key: &PasetoSymmetricKey<V4, Local>,
//!     nonce: &PasetoNonce<'_, V4, Local>,
//! ) -> Result<String, PasetoError> {
//!     let footer = Footer::from("{\"kid\":\"2026-11\"}");
//!     let mut paseto = Paseto::<V4, Local>::builder();
//!     paseto
//!         .set_payload(Payload::from("a message"))
//!         .set_footer(footer);
//!     let token = paseto.try_encrypt(alloc, key, nonce)?;
//!     Paseto::<V4, Local>::try_decrypt(alloc, token.as_str(), key, Some(footer), None)
//! }
//! ```
#![tactic(auto)]

mod context;
mod framing;
pub mod laws;
mod local;
mod paseto;
mod public;
mod reading;
mod tag;

#[doc(hidden)]
pub use local::LocalSuite;
pub use local::LocalVersion;
pub use local::box_forgery::BoxForgery;
pub use local::forgery::TagForgery;
pub use local::sealed_box::SealedBox;
pub use local::tag_collision::{Opening, TagCollision};
pub use paseto::{AssertionVersion, Paseto};
pub use public::scheme::{CompressedKey, SignatureScheme};
pub use public::signature_forgery::{SignatureForgery, SignedToken};
pub use public::{PublicVersion, Signs, Verifies};
pub use rusty_paseto_parts::{
    Footer, Header, ImplicitAssertion, ImplicitAssertionCapable, Key, KeyPair, Local,
    PasetoAsymmetricPrivateKey, PasetoAsymmetricPublicKey, PasetoError, PasetoNonce,
    PasetoSymmetricKey, Payload, PreAuthenticationEncoding, PrivateKey, Public, PublicKey,
    PurposeTrait, UntrustedToken, V1, V1orV3, V2, V2orV4, V3, V4, VersionTrait, from_section,
    split_token, to_section,
};
