//! Of `KeyRing`.

use anyhow::Result;
use jiff::Timestamp;
use rusty_paseto::prelude::*;
use serde_json::Value;
use std::alloc::Global;

/// The id of the key that the token's footer `{"kid":"2026-11"}` names, and the claims.
pub fn admit(
    alloc: Global,
    now: Timestamp,
    token: &str,
    key: PasetoSymmetricKey<V4, Local>,
) -> Result<(String, Value)> {
    let mut ring = KeyRing::<V4>::new(alloc);
    ring.add("2026-11", key)?;
    Ok(ring.parse(&PasetoParser::default(alloc, now)?, token)?)
}
