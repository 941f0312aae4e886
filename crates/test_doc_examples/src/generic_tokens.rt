//! Of `rusty_paseto_generic`.

use anyhow::Result;
use rand_core::TryRng;
use rusty_paseto_generic::{
    CheckSetter, ClaimSetter, GenericBuilder, GenericParser, Local, PasetoSymmetricKey,
    SubjectClaim, V4,
};
use serde_json::Value;
use std::alloc::Global;

/// Builds a token of one claim, and parses it with a check of that claim.
pub fn round_trip<R: TryRng>(
    alloc: Global,
    rng: &mut R,
    key: &PasetoSymmetricKey<V4, Local>,
) -> Result<Value> {
    let mut builder = GenericBuilder::<V4, Local>::new(alloc);
    builder.set_claim(&SubjectClaim::from("Ada"))?;
    let token = builder.try_encrypt(rng, key)?;

    let mut parser = GenericParser::<V4, Local>::new(alloc);
    parser.check_claim(&SubjectClaim::from("Ada"))?;
    Ok(parser.parse(token.as_str(), key)?)
}
