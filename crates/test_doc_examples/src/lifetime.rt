//! Of `set_lifetime`.

use anyhow::Result;
use jiff::Timestamp;
use rand_core::TryRng;
use rusty_paseto::prelude::*;
use std::alloc::Global;

/// A token that lives ten minutes.
pub fn issue_for_ten_minutes<R: TryRng>(
    alloc: Global,
    now: Timestamp,
    rng: &mut R,
    key: &PasetoSymmetricKey<V4, Local>,
) -> Result<String> {
    let mut builder = PasetoBuilder::<V4, Local>::try_default(alloc, now)?;
    builder.set_lifetime(600)?;
    Ok(builder.build(rng, key)?)
}
