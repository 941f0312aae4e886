//! Of `PasetoBuilder`.

use anyhow::Result;
use jiff::Timestamp;
use rand_core::TryRng;
use rusty_paseto::prelude::*;
use std::alloc::Global;

/// A token for customers, whose footer names the key.
pub fn issue<R: TryRng>(
    alloc: Global,
    now: Timestamp,
    rng: &mut R,
    key: &PasetoSymmetricKey<V4, Local>,
) -> Result<String> {
    let mut builder = PasetoBuilder::<V4, Local>::try_default(alloc, now)?;
    builder
        .set_claim(&AudienceClaim::from("customers"))?
        .set_footer(Footer::from("{\"kid\":\"2026-11\"}"));
    Ok(builder.build(rng, key)?)
}
