//! Issuing tokens of claims.

ghost use Rattle.std.specs.Prelude.{◌≡◌, ◌⊎◌, MatchResult, OnOk, IfErr, IfOk, string_bytes};
ghost use Rattle.jiff.specs.Words.{IsTimestampNanos};
ghost use Rattle.serde_json.specs.Data.{put, string};
ghost use Rattle.serde_json.specs.View.{members_view};
ghost use Rattle.rusty_paseto_generic.specs.Builders.Claims.{becomes};
ghost use Rattle.rusty_paseto_generic.specs.Builders.Held.{held};
ghost use Rattle.paseto_calls.specs.Claims.{IsClaimFault, all_set};
ghost use Rattle.paseto_calls.specs.Issue.{AreClaims, AreMomentClaims, AreMoments, AreTimes, IsIssued, IsMembersFault, hour_after, issuing, second_before};
ghost use Rattle.paseto_calls.specs.Request.{IsMade, IsMadeWholeWhere};
ghost use Rattle.paseto_calls.specs.Tokens.{HasToken};

use crate::arguments::Texts;
use crate::claims::object_of;
use crate::fault::Fault;
use crate::held_key::{HeldKey, front};
use crate::refusal::Refusal;
use crate::wanted::Wanted;
use jiff::Timestamp;
use paseto_keys::{ClaimsBuilder, TokenWriter};
use rusty_paseto_claims::moment_text;
use rusty_paseto_generic::ClaimSetter;
use serde_json::{Map, Value};
use std::alloc::{AllocError, Global};

/// The nanoseconds of an hour.
const HOUR: i128 = 3_600_000_000_000;

/// The nanoseconds of a second.
const SECOND: i128 = 1_000_000_000;

/// The token of claims, under a key that writes tokens, with the first of what was drawn for it.
pub fn issue(
    alloc: Global,
    key: &HeldKey,
    drawn: &[u8],
    claims: &[u8],
    now: i64,
    footer: &[u8],
    assertion: &[u8],
) -> Result<String, Fault>
    ensures made { IsMade (issuing key.now drawn.now claims.now now footer.now assertion.now) result }
    ensures whole { IsMadeWholeWhere
        (IsIssued claims.now now (HasToken key.now drawn.now footer.now assertion.now))
        (issuing key.now drawn.now claims.now now footer.now assertion.now) result }
{
    let writer = key.take_bound(alloc, Wanted::Writers, assertion)?;
    let drawn = front(drawn, writer.draws())?;
    let texts = Texts::take(claims, footer, assertion)?;
    let members = object_of(alloc, texts.text)?;
    let claims = claims_of(alloc, members, now)?;
    Ok(paseto_keys::issue(
        alloc,
        &writer,
        drawn,
        &claims,
        texts.footer,
        texts.assertion,
    )?)
}

// The claims that members make at a moment.
fn claims_of(alloc: Global, members: Map<String, Value>, now: i64) -> Result<ClaimsBuilder, Refusal>
    ensures { MatchResult result
        (λ made. AreMoments now × AreClaims (members_view members.entries) now (held made.builder.claims))
        (λ refusal. (refusal ≡ Refusal.Memory)
        ⊎ IsMembersFault (members_view members.entries) now refusal) }
{
    let times = times_at(alloc, now)?;
    let mut builder = ClaimsBuilder::new(alloc);
    builder.put_claims(times)?;
    set_members(&mut builder, members)?;
    Ok(builder)
}

// Sets each member as a claim, without a copy of it. A member with the empty key is none.
fn set_members(builder: &mut ClaimsBuilder, members: Map<String, Value>) -> Result<(), Refusal>
    ensures claims { OnOk result (all_set (members_view members.entries) (held builder.old.builder.claims)
        ≡ becomes (held builder.new.builder.claims)) }
    ensures err { IfErr result (λ refusal. (refusal ≡ Refusal.Memory)
        ⊎ IsClaimFault (members_view members.entries) refusal) }
{
    let mut claims = members;
    drop(claims.remove(""));
    builder.put_claims(claims)?;
    Ok(())
}

// The times of a token that is issued at a moment.
fn times_at(alloc: Global, now: i64) -> Result<Map<String, Value>, Refusal>
    ensures { MatchResult result
        (λ times. AreMoments now × AreTimes now (members_view times.entries))
        (λ refusal. (refusal ≡ Refusal.Memory)
        ⊎ ((refusal ≡ Refusal.InvalidMoment) × ¬ AreMoments now)) }
{
    let issue = moment_at(now)?;
    let end = hour_after(issue)?;
    let begin = second_before(issue)?;
    Ok(times_of(alloc, end, issue, begin)?)
}

// The moment of so many nanoseconds since 1970, or `InvalidMoment`.
fn moment_at(now: i64) -> Result<Timestamp, Refusal>
    ensures { MatchResult result
        (λ moment. (moment.nanosecond ≡ now) × IsTimestampNanos now)
        (λ refusal. (refusal ≡ Refusal.InvalidMoment) × ¬ IsTimestampNanos now) }
{
    match Timestamp::from_nanosecond(now as i128) {
        Ok(moment) => Ok(moment),
        Err(_) => Err(Refusal::InvalidMoment),
    }
}

// The moment an hour later, or `InvalidMoment`.
fn hour_after(moment: Timestamp) -> Result<Timestamp, Refusal>
    ensures { MatchResult result
        (λ later. (later.nanosecond ≡ hour_after moment.nanosecond)
        × IsTimestampNanos (hour_after moment.nanosecond))
        (λ refusal. (refusal ≡ Refusal.InvalidMoment)
        × ¬ IsTimestampNanos (hour_after moment.nanosecond)) }
{
    match Timestamp::from_nanosecond(moment.as_nanosecond() + HOUR) {
        Ok(later) => Ok(later),
        Err(_) => Err(Refusal::InvalidMoment),
    }
}

// The moment a second before it, or `InvalidMoment`.
fn second_before(moment: Timestamp) -> Result<Timestamp, Refusal>
    ensures { MatchResult result
        (λ earlier. (earlier.nanosecond ≡ second_before moment.nanosecond)
        × IsTimestampNanos (second_before moment.nanosecond))
        (λ refusal. (refusal ≡ Refusal.InvalidMoment)
        × ¬ IsTimestampNanos (second_before moment.nanosecond)) }
{
    match Timestamp::from_nanosecond(moment.as_nanosecond() - SECOND) {
        Ok(earlier) => Ok(earlier),
        Err(_) => Err(Refusal::InvalidMoment),
    }
}

// The claims of three moments.
fn times_of(
    alloc: Global,
    end: Timestamp,
    issue: Timestamp,
    begin: Timestamp,
) -> Result<Map<String, Value>, AllocError>
    ensures { IfOk result (λ times. AreMomentClaims end.nanosecond issue.nanosecond begin.nanosecond
        (members_view times.entries)) }
{
    let mut times = Map::new(alloc);
    let end = moment_text(alloc, end)?;
    put_text(&mut times, alloc, "exp", end)?;
    let issue = moment_text(alloc, issue)?;
    put_text(&mut times, alloc, "iat", issue)?;
    let begin = moment_text(alloc, begin)?;
    put_text(&mut times, alloc, "nbf", begin)?;
    Ok(times)
}

// Puts a text under its key.
fn put_text(
    claims: &mut Map<String, Value>,
    alloc: Global,
    key: &str,
    text: String,
) -> Result<(), AllocError>
    ensures { OnOk result (members_view claims.new.entries
        ≡ put key.now (string (string_bytes text)) (members_view claims.old.entries)) }
{
    serde_json::put(claims, alloc, key, Value::String(text))
}
