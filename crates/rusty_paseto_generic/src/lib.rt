//! Builders of PASETO tokens from claims, and parsers that check them, for every version and purpose. It also
//! re-exports the claims and the core, which it is built on.
//!
//! ```rust
//! use anyhow::Result;
//! use rand_core::TryRng;
//! use rusty_paseto_generic::{
//!     CheckSetter, ClaimSetter, GenericBuilder, GenericParser, Local, PasetoSymmetricKey,
//!     SubjectClaim, V4,
//! };
//! use serde_json::Value;
//! use std::alloc::Global;
//!
//! /// Builds a token of one claim, and parses it with a check of that claim.
//! pub fn round_trip<R: TryRng>(
//!     alloc: Global,
//!     rng: &mut R,
//!     key: &PasetoSymmetricKey<V4, Local>,
//! ) -> Result<Value> {
//!     let mut builder = GenericBuilder::<V4, Local>::new(alloc);
//!     builder.set_claim(&SubjectClaim::from("Ada"))?;
//!     let token = builder.try_encrypt(rng, key)?;
//!
//!     let mut parser = GenericParser::<V4, Local>::new(alloc);
//!     parser.check_claim(&SubjectClaim::from("Ada"))?;
//!     Ok(parser.parse(token.as_str(), key)?)
//! }
//! ```
#![tactic(auto)]

mod blame;
mod builders;
mod entry;
mod error;
mod explained;
mod itself;
pub mod laws;
mod parsers;
mod validator;
mod whole;

pub use blame::Blame;
pub use builders::{ClaimSetter, GenericBuilder, GenericLocalVersion};
pub use error::{GenericBuilderError, GenericParserError};
pub use explained::Explained;
pub use itself::Itself;
pub use parsers::{CheckSetter, GenericParser, TokenParser};
pub use rusty_paseto_claims::{
    Audience, AudienceClaim, ClaimValue, CustomClaim, DateClaim, Expiration, ExpirationClaim,
    IssuedAt, IssuedAtClaim, Issuer, IssuerClaim, NotBefore, NotBeforeClaim, PasetoClaim,
    PasetoClaimError, ReservedKey, Subject, SubjectClaim, TextClaim, TokenIdentifier,
    TokenIdentifierClaim, has_short_year, is_whole, moment_text, odd_key, same_value,
};
pub use rusty_paseto_core::{
    AssertionVersion, BoxForgery, CompressedKey, Footer, Header, ImplicitAssertion,
    ImplicitAssertionCapable, Key, KeyPair, Local, LocalVersion, Opening, Paseto,
    PasetoAsymmetricPrivateKey, PasetoAsymmetricPublicKey, PasetoError, PasetoNonce,
    PasetoSymmetricKey, Payload, PreAuthenticationEncoding, PrivateKey, Public, PublicKey,
    PublicVersion, PurposeTrait, SealedBox, SignatureForgery, SignatureScheme, SignedToken, Signs,
    TagCollision, TagForgery, UntrustedToken, V1, V1orV3, V2, V2orV4, V3, V4, Verifies,
    VersionTrait, from_section, split_token, to_section,
};
pub use validator::{Validator, ValidatorFn, ValidatorMap};
