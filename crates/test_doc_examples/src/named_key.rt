//! Of `key_footer`.

use anyhow::Result;
use jiff::Timestamp;
use rand_core::TryRng;
use rusty_paseto::prelude::*;
use std::alloc::Global;

/// A token under the key of this id, which a ring with the key opens.
pub fn issue_under<R: TryRng>(
    alloc: Global,
    now: Timestamp,
    rng: &mut R,
    id: &str,
    key: &PasetoSymmetricKey<V4, Local>,
) -> Result<String> {
    let footer = key_footer(alloc, id)?;
    let mut builder = PasetoBuilder::<V4, Local>::try_default(alloc, now)?;
    builder.set_footer(Footer::from(footer.as_str()));
    Ok(builder.build(rng, key)?)
}
