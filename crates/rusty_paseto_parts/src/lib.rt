//! The parts of PASETO tokens: versions and purposes, the texts of a token, keys and nonces, pre-authentication
//! encoding, the sections of a token, and reading a token before it is verified.
//!
//! ```rust
//! use rusty_paseto_parts::{PasetoError, UntrustedToken};
//! use std::alloc::Global;
//!
//! /// The footer of a token, as `{"kid":"2026-11"}`. Anybody can write one: it counts once the token is opened.
//! pub fn footer_of(alloc: Global, token: &str) -> Result<Option<String>, PasetoError> {
//!     UntrustedToken::try_parse(token)?.footer_str(alloc)
//! }
//! ```
#![tactic(auto)]

mod absorb;
mod error;
mod keys;
pub mod laws;
mod lengths;
mod limit;
mod pre_authentication_encoding;
mod purpose;
mod section;
mod sixteen;
mod texts;
mod untrusted_token;
mod version;

pub use absorb::Absorb;
pub use error::PasetoError;
pub use keys::key::Key;
pub use keys::key_pair::KeyPair;
pub use keys::nonce::PasetoNonce;
pub use keys::owned_keys::{PrivateKey, PublicKey};
pub use keys::private_key::PasetoAsymmetricPrivateKey;
pub use keys::public_key::PasetoAsymmetricPublicKey;
pub use keys::symmetric_key::PasetoSymmetricKey;
pub use lengths::add_lengths;
pub use limit::{has_longer_footer, is_longer};
pub use pre_authentication_encoding::{PreAuthenticationEncoding, absorb_pieces};
pub use purpose::PurposeTrait;
pub use purpose::local::Local;
pub use purpose::public::Public;
pub use section::{from_section, is_section_of, push_section, split_token, to_section};
pub use texts::footer::Footer;
pub use texts::header::Header;
pub use texts::implicit_assertion::ImplicitAssertion;
pub use texts::payload::Payload;
pub use untrusted_token::UntrustedToken;
pub use version::v1::V1;
pub use version::v2::V2;
pub use version::v3::V3;
pub use version::v4::V4;
pub use version::{ImplicitAssertionCapable, V1orV3, V2orV4, VersionTrait};
