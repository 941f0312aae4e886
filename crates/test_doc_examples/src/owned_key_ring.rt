//! Of `OwnedPublicKeyRing`.

use anyhow::Result;
use jiff::Timestamp;
use paseto_ed25519::Ed25519;
use rusty_paseto::prelude::*;
use rusty_paseto_paserk::public_key_from_paserk;
use serde_json::Value;
use std::alloc::Global;

/// The ring of the keys of these ids and texts, as `k4.public...`.
pub fn ring_of(alloc: Global, lines: &[(&str, &str)]) -> Result<OwnedPublicKeyRing<V4>> {
    let mut ring = OwnedPublicKeyRing::<V4>::new(alloc);
    for (id, text) in lines {
        ring.add(id, public_key_from_paserk(alloc, text)?)?;
    }
    Ok(ring)
}

/// The id of the key that the token's footer names, and the claims.
pub fn admit(
    alloc: Global,
    now: Timestamp,
    ring: &OwnedPublicKeyRing<V4>,
    token: &str,
) -> Result<(String, Value)> {
    Ok(ring.parse(&Ed25519, &PasetoParser::default(alloc, now)?, token)?)
}
