//! Of `rusty_paseto_claims`.

use rusty_paseto_claims::{CustomClaim, PasetoClaim, PasetoClaimError};
use serde_json::Value;
use std::alloc::Global;

/// The JSON of a claim, `{"seats":4}`, which a builder stores under `seats`.
pub fn seats(alloc: Global) -> Result<Value, PasetoClaimError> {
    let seats = CustomClaim::try_from_str(alloc, "seats", 4u64)?;
    seats.to_json(alloc)
}
