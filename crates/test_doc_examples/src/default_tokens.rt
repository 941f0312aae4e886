//! Of `rusty_paseto`.

use anyhow::Result;
use jiff::Timestamp;
use rand_core::TryRng;
use rusty_paseto::prelude::*;
use serde_json::Value;
use std::alloc::Global;

/// Builds a token that is good after `now`, for an hour, and parses it later.
pub fn round_trip<R: TryRng>(
    alloc: Global,
    now: Timestamp,
    later: Timestamp,
    rng: &mut R,
    key: &PasetoSymmetricKey<V4, Local>,
) -> Result<Value> {
    let token = PasetoBuilder::<V4, Local>::try_default(alloc, now)?.build(rng, key)?;
    Ok(PasetoParser::<V4, Local>::default(alloc, later)?.parse(token.as_str(), key)?)
}
