//! Ten everyday uses of the library, each as short as it is.

use anyhow::{Context, Result};
use jiff::Timestamp;
use paseto_ed25519::Ed25519;
use rand_core::TryRng;
use rusty_paseto::prelude::*;
use rusty_paseto::validators::AtMost;
use rusty_paseto_paserk::{private_key_from_paserk, public_key_from_paserk};
use serde_json::Value;
use std::alloc::Global;

/// A new key for local tokens.
pub fn new_key<R: TryRng>(rng: &mut R) -> Result<PasetoSymmetricKey<V4, Local>> {
    Ok(PasetoSymmetricKey::try_new_random(rng)?)
}

/// A default token.
pub fn default_token<R: TryRng>(
    alloc: Global,
    now: Timestamp,
    rng: &mut R,
    key: &PasetoSymmetricKey<V4, Local>,
) -> Result<String> {
    Ok(PasetoBuilder::<V4, Local>::try_default(alloc, now)?.build(rng, key)?)
}

/// A token that lives a week, with a claim of the service's own and one for its reader.
pub fn token_for_a_week<R: TryRng>(
    alloc: Global,
    now: Timestamp,
    rng: &mut R,
    key: &PasetoSymmetricKey<V4, Local>,
) -> Result<String> {
    let mut builder = PasetoBuilder::<V4, Local>::try_default(alloc, now)?;
    builder
        .set_lifetime(604_800)?
        .set_claim(&AudienceClaim::from("customers"))?
        .set_claim(&CustomClaim::try_from_str(alloc, "seats", 4u64)?)?;
    Ok(builder.build(rng, key)?)
}

/// The claims of a token for customers.
pub fn for_customers(
    alloc: Global,
    now: Timestamp,
    token: &str,
    key: &PasetoSymmetricKey<V4, Local>,
) -> Result<Value, GenericParserError> {
    let mut parser = PasetoParser::<V4, Local>::default(alloc, now)?;
    parser.check_claim(&AudienceClaim::from("customers"))?;
    parser.parse(token, key)
}

/// The claims of a token with at most so many seats.
pub fn with_seats(
    alloc: Global,
    now: Timestamp,
    seats: i64,
    token: &str,
    key: &PasetoSymmetricKey<V4, Local>,
) -> Result<Value> {
    let mut parser = PasetoParser::<V4, Local>::default(alloc, now)?;
    parser.validate_key("seats", Box::new(alloc, AtMost(seats))?)?;
    Ok(parser.parse(token, key)?)
}

/// A public token under a key whose text is `k4.secret...`.
pub fn sign(alloc: Global, now: Timestamp, key: &str) -> Result<String> {
    let key = private_key_from_paserk::<V4>(alloc, key)?;
    Ok(PasetoBuilder::<V4, Public>::try_default(alloc, now)?.build(&mut Ed25519, &key.lend())?)
}

/// The claims of a public token under a key whose text is `k4.public...`.
pub fn verify(alloc: Global, now: Timestamp, key: &str, token: &str) -> Result<Value> {
    let key = public_key_from_paserk::<V4>(alloc, key)?;
    let parser = PasetoParser::<V4, Public>::default(alloc, now)?;
    Ok(parser.parse(&Ed25519, token, &key.lend())?)
}

/// A token under the ring's key of this id, which its footer names.
pub fn issue_by_ring<R: TryRng>(
    alloc: Global,
    now: Timestamp,
    rng: &mut R,
    ring: &KeyRing<V4>,
    id: &str,
) -> Result<String> {
    let footer = key_footer(alloc, id)?;
    let mut builder = PasetoBuilder::<V4, Local>::try_default(alloc, now)?;
    builder.set_footer(Footer::from(footer.as_str()));
    Ok(builder.build(rng, ring.key(id).context("no key of this id")?)?)
}

/// The id of the ring's key that a token names, and the claims.
pub fn admit_by_ring(
    alloc: Global,
    now: Timestamp,
    ring: &KeyRing<V4>,
    token: &str,
) -> Result<(String, Value), KeyRingParserError> {
    ring.parse(&PasetoParser::default(alloc, now)?, token)
}

/// The status of an answer over HTTP.
pub fn status<T>(answer: &Result<T, GenericParserError>) -> u16 {
    match answer {
        Ok(_) => 200,
        Err(refusal) => match refusal.blame() {
            Blame::Foreign | Blame::Untimely => 401,
            Blame::Unfit => 403,
            Blame::Memory => 503,
        },
    }
}
