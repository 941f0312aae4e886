//! Of `DateClaim::at`.

use anyhow::Result;
use jiff::Timestamp;
use rusty_paseto::prelude::*;
use std::alloc::Global;

/// When a session ends that begins now and lasts a day.
pub fn end_of_session(alloc: Global, now: Timestamp) -> Result<ExpirationClaim> {
    let end = Timestamp::from_second(now.as_second().saturating_add(86_400))?;
    Ok(ExpirationClaim::at(alloc, end)?)
}
