//! Of `validators`.

use anyhow::Result;
use rusty_paseto::prelude::*;
use rusty_paseto::validators::AtMost;
use std::alloc::Global;

/// Makes a parser refuse a token of more than eight seats.
pub fn limit_seats(alloc: Global, parser: &mut GenericParser<'_, V4, Local>) -> Result<()> {
    parser.validate_key("seats", Box::new(alloc, AtMost(8))?)?;
    Ok(())
}
