//! The calls on claims.

use crate::parsers::now;
use crate::run::{Run, Snapshot, calls, edits, put, shown};
use anyhow::Result;
use jiff::Timestamp;
use rusty_paseto::prelude::*;
use serde_json::Value;
use std::alloc::Global;

/// A date.
pub const DATE: &str = "2024-01-01T00:00:00Z";

impl<K: ReservedKey> Snapshot for DateClaim<K> {
    fn snapshot(&self, alloc: Global) -> Result<String> {
        shown(alloc, self.to_json(alloc)?)
    }
}

impl Snapshot for CustomClaim<&str> {
    fn snapshot(&self, alloc: Global) -> Result<String> {
        shown(alloc, self.to_json(alloc)?)
    }
}

/// Asks them.
pub fn ask(run: &mut Run<'_>) -> Result<()> {
    ask_made(run)?;
    let (alloc, text) = (run.alloc, run.text);
    let (string, value) = (String::from_str(alloc, text)?, tree(alloc, text)?);
    calls!(run;
        "ClaimValue::to_value of &str" => text.to_value(alloc);
        "ClaimValue::to_value of String" => string.to_value(alloc);
        "ClaimValue::to_value of Value" => value.to_value(alloc);
    )?;
    ask_json(run)
}

fn ask_made(run: &mut Run<'_>) -> Result<()> {
    let (alloc, text) = (run.alloc, run.text);
    let (claim, now) = (ExpirationClaim::try_from_str(alloc, DATE)?, now()?);
    edits!(run, "DateClaim::", slot = Ok(None);
        "try_from_str of a date" => put(slot, ExpirationClaim::try_from_str(alloc, DATE));
        "try_from_str of no date, refused" => put(slot, ExpirationClaim::try_from_str(alloc, text));
        "at of a moment" => put(slot, ExpirationClaim::at(alloc, now));
        "at of a moment before the year 0, refused" => put(slot, ExpirationClaim::at(alloc, Timestamp::MIN));
        "default of its date" => put(slot, ExpirationClaim::default(alloc));
        "try_clone of a claim" => put(slot, claim.try_clone(alloc));
    )?;
    calls! { run;
        "moment_text of a moment" => moment_text(alloc, now);
        "CustomClaim::try_from_str of a key and a text" => CustomClaim::try_from_str(alloc, text, text);
        "CustomClaim::try_from_key of a key" => CustomClaim::<&str>::try_from_key(alloc, text);
        "CustomClaim::try_from_str of iss, refused" => CustomClaim::try_from_str(alloc, "iss", "a");
        "CustomClaim::try_from_key of jti, refused" => CustomClaim::<&str>::try_from_key(alloc, "jti");
    }
}

/// A claim `k0`, `k1` and so on. With them a map is filled so far that its next key takes new nodes.
pub fn numbered(alloc: Global, number: u64) -> Result<CustomClaim<u64>> {
    Ok(CustomClaim::try_from_string(format!(in alloc; "k{number}")?, number)?)
}

/// JSON that holds each form of values, and the text.
pub fn tree(alloc: Global, text: &str) -> Result<Value> {
    let json = format!(in alloc; "{{\"a\":[1,{{\"b\":\"{text}\"}}],\"c\":null,\"d\":true}}")?;
    Ok(Value::from_str(alloc, json.as_str())?)
}

fn ask_json(run: &mut Run<'_>) -> Result<()> {
    let (alloc, text) = (run.alloc, run.text);
    let date = ExpirationClaim::try_from_str(alloc, DATE)?;
    let of_text = CustomClaim::try_from_str(alloc, "a", text)?;
    let of_number = CustomClaim::try_from_str(alloc, "a", 4u64)?;
    let of_tree = CustomClaim::try_from_str(alloc, "a", tree(alloc, text)?)?;
    calls! { run;
        "PasetoClaim::to_json of TextClaim" => AudienceClaim::from(text).to_json(alloc);
        "PasetoClaim::to_json of DateClaim" => date.to_json(alloc);
        "PasetoClaim::to_json of CustomClaim, a text" => of_text.to_json(alloc);
        "PasetoClaim::to_json of CustomClaim, a number" => of_number.to_json(alloc);
        "PasetoClaim::to_json of CustomClaim, JSON" => of_tree.to_json(alloc);
    }
}
