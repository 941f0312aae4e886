//! Of `PasetoParser`.

use jiff::Timestamp;
use rusty_paseto::prelude::*;
use serde_json::Value;
use std::alloc::Global;

/// The claims of a token for customers that expires, with five seconds for clocks that differ.
pub fn admit(
    alloc: Global,
    now: Timestamp,
    token: &str,
    key: &PasetoSymmetricKey<V4, Local>,
) -> Result<Value, GenericParserError> {
    let mut parser = PasetoParser::<V4, Local>::default(alloc, now)?;
    parser
        .check_claim(&AudienceClaim::from("customers"))?
        .require_claim("exp")?
        .set_leeway(5)
        .set_footer(Footer::from("{\"kid\":\"2026-11\"}"));
    parser.parse(token, key)
}
