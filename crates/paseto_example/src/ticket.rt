//! Encrypted tickets: local tokens.

use anyhow::Result;
use jiff::Timestamp;
use rand_core::TryRng;
use rusty_paseto::prelude::*;
use serde_json::Value;
use std::alloc::Global;

/// A ticket for a customer with four seats, which expires an hour from now.
pub fn issue<R: TryRng>(
    alloc: Global,
    now: Timestamp,
    rng: &mut R,
    key: &PasetoSymmetricKey<V4, Local>,
) -> Result<String> {
    let mut builder = PasetoBuilder::<V4, Local>::try_default(alloc, now)?;
    builder
        .set_claim(&AudienceClaim::from("customers"))?
        .set_claim(&CustomClaim::try_from_str(alloc, "seats", 4u64)?)?;
    Ok(builder.build(rng, key)?)
}

/// The claims of a customer's ticket that is valid at the moment, or the error.
pub fn admit(
    alloc: Global,
    now: Timestamp,
    token: &str,
    key: &PasetoSymmetricKey<V4, Local>,
) -> Result<Value, GenericParserError> {
    let mut parser = PasetoParser::<V4, Local>::default(alloc, now)?;
    parser.check_claim(&AudienceClaim::from("customers"))?;
    parser.parse(token, key)
}

/// The number of seats.
pub fn seats(claims: &Value) -> u64 {
    claims
        .get("seats")
        .and_then(|seats| seats.as_u64())
        .unwrap_or(0)
}
