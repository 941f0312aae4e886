//! Of `GenericBuilder`.

use rand_core::TryRng;
use rusty_paseto_generic::{
    AudienceClaim, ClaimSetter, Footer, GenericBuilder, GenericBuilderError, Local,
    PasetoSymmetricKey, V4,
};
use std::alloc::Global;

/// A token of one claim, whose footer names the key.
pub fn build<R: TryRng>(
    alloc: Global,
    rng: &mut R,
    key: &PasetoSymmetricKey<V4, Local>,
) -> Result<String, GenericBuilderError> {
    let mut builder = GenericBuilder::<V4, Local>::new(alloc);
    builder
        .set_claim(&AudienceClaim::from("customers"))?
        .set_footer(Footer::from("{\"kid\":\"2026-11\"}"));
    builder.try_encrypt(rng, key)
}
