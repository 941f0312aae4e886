//! Of `GenericParser`.

use rusty_paseto_generic::{
    AudienceClaim, CheckSetter, Footer, GenericParser, GenericParserError, Local,
    PasetoSymmetricKey, V4,
};
use serde_json::Value;
use std::alloc::Global;

/// The claims of a token for customers, whose footer names the key.
pub fn parse(
    alloc: Global,
    token: &str,
    key: &PasetoSymmetricKey<V4, Local>,
) -> Result<Value, GenericParserError> {
    let mut parser = GenericParser::<V4, Local>::new(alloc);
    parser
        .check_claim(&AudienceClaim::from("customers"))?
        .set_footer(Footer::from("{\"kid\":\"2026-11\"}"));
    parser.parse(token, key)
}
