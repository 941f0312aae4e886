//! Of `PublicKeyRing`.

use anyhow::Result;
use jiff::Timestamp;
use paseto_ed25519::Ed25519;
use rusty_paseto::prelude::*;
use serde_json::Value;
use std::alloc::Global;

/// The id of the key that the token's footer `{"kid":"2026-11"}` names, and the claims.
pub fn admit(
    alloc: Global,
    now: Timestamp,
    token: &str,
    public: &Key<32>,
) -> Result<(String, Value)> {
    let mut ring = PublicKeyRing::<V4>::new(alloc);
    ring.add("2026-11", PasetoAsymmetricPublicKey::from(public))?;
    Ok(ring.parse(&Ed25519, &PasetoParser::default(alloc, now)?, token)?)
}
