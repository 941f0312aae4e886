//! Claims of PASETO tokens: the trait of claims, the seven claims that the standard reserves, custom claims, and tests
//! on JSON values.
//!
//! ```rust
//! use rusty_paseto_claims::{CustomClaim, PasetoClaim, PasetoClaimError};
//! use serde_json::Value;
//! use std::alloc::Global;
//!
//! /// The JSON of a claim, `{"seats":4}`, which a builder stores under `seats`.
//! pub fn seats(alloc: Global) -> Result<Value, PasetoClaimError> {
//!     let seats = CustomClaim::try_from_str(alloc, "seats", 4u64)?;
//!     seats.to_json(alloc)
//! }
//! ```
#![tactic(auto)]

mod claim;
mod claim_value;
mod custom_claim;
mod date_claim;
mod error;
mod moment;
mod reserved;
mod same;
mod text_claim;
mod whole;

pub use claim::PasetoClaim;
pub use claim_value::ClaimValue;
pub use custom_claim::CustomClaim;
pub use date_claim::{DateClaim, ExpirationClaim, IssuedAtClaim, NotBeforeClaim};
pub use error::PasetoClaimError;
pub use moment::{has_short_year, moment_text};
pub use reserved::{
    Audience, Expiration, IssuedAt, Issuer, NotBefore, ReservedKey, Subject, TokenIdentifier,
};
pub use same::same_value;
pub use text_claim::{AudienceClaim, IssuerClaim, SubjectClaim, TextClaim, TokenIdentifierClaim};
pub use whole::{is_whole, odd_key};
