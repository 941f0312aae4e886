//! The calls of generic parsers.

use crate::builders::{ODD, map_of, odd_claim};
use crate::claims::numbered;
use crate::kinds::{Cases, Signed, ask_kinds, footer, symmetric_key};
use crate::run::{Run, Snapshot, calls, edits, shown};
use crate::tokens::{seal, seal_boxed, sign};
use crate::validators::{Refuses, validators};
use anyhow::Result;
use jiff::Timestamp;
use rusty_paseto::prelude::*;
use serde_json::Value;
use std::alloc::Global;
use test_toys::keys::Keys;
use test_toys::{Lenient, PlainBox};

/// The entries that all parsers check.
const CHECKED: &str = "\"k0\":0,\"k1\":1,\"k10\":10,\"k11\":11,\"k12\":12,\"k13\":13,\
    \"k2\":2,\"k3\":3,\"k4\":4,\"k5\":5,\"k6\":6,\"k7\":7,\"k8\":8,\"k9\":9,\"seats\":4";

/// A payload that passes no check of times.
fn expired(alloc: Global) -> Result<String> {
    let begin = "\"aud\":\"customers\",\"exp\":\"2019-01-01T00:00:00Z\"";
    Ok(format!(in alloc; "{{{begin},{CHECKED}}}")?)
}

/// A payload that passes the checks of the cases, and holds the text.
pub fn good(alloc: Global, text: &str) -> Result<String> {
    let times = "\"exp\":\"2050-01-01T00:00:00Z\",\"nbf\":\"2019-01-01T00:00:00Z\"";
    Ok(format!(in alloc; "{{\"aud\":[1,\"{text}\"],{times},{CHECKED}}}")?)
}

/// A moment at which a token of the cases is good.
pub fn now() -> Result<Timestamp> {
    Ok(Timestamp::from_second(1_704_067_200)?)
}

/// A parser is known by what it answers for a token.
impl Snapshot for GenericParser<'_, V4, Local> {
    fn snapshot(&self, alloc: Global) -> Result<String> {
        let token = seal::<V4>(alloc, expired(alloc)?.as_str(), footer())?;
        shown(alloc, self.parse(token.as_str(), &symmetric_key()))
    }
}

/// Asks them.
pub fn ask(run: &mut Run<'_>) -> Result<()> {
    ask_checks(run)?;
    ask_expected(run)?;
    ask_maps(run)?;
    ask_value(run)?;
    ask_kinds::<Kinds>(run)?;
    ask_failed_checks(run)
}

pub type Parser<V, P> = GenericParser<'static, V, P>;

/// A parser that checks fifteen claims, and expects the footer.
pub fn parser_of<V: VersionTrait, P: PurposeTrait>(alloc: Global) -> Result<Parser<V, P>> {
    let mut parser = GenericParser::new(alloc);
    put_checks(&mut parser, alloc, 14)?;
    parser.set_footer(footer());
    Ok(parser)
}

/// Puts checks of entries of good payloads.
pub fn put_checks<B, P: CheckSetter<B>>(parser: &mut P, alloc: Global, more: u64) -> Result<()> {
    parser.put_check(&CustomClaim::try_from_str(alloc, "seats", 4u64)?)?;
    'numbers: for number in 0..more {
        parser.put_check(&numbered(alloc, number)?)?;
    }
    Ok(())
}

// A parser that checks the times too.
fn timed<V: VersionTrait, P: PurposeTrait>(alloc: Global) -> Result<Parser<V, P>> {
    let mut parser = parser_of(alloc)?;
    parser.put_times(now()?)?;
    Ok(parser)
}

fn ask_checks(run: &mut Run<'_>) -> Result<()> {
    let (alloc, own) = (run.alloc, AudienceClaim::from("customers"));
    let claim = AudienceClaim::from("others");
    let seats = CustomClaim::try_from_str(alloc, "seats", 5u64)?;
    let odd = odd_claim(alloc)?;
    edits! { run, "TokenParser::", parser = parser_of::<V4, Local>(alloc);
        "put_check of a claim" => parser.put_check(&claim);
        "check_claim of a claim" => parser.check_claim(&claim).map(drop);
        "put_check of a key that is there" => parser.put_check(&seats);
        "put_check of a fraction, refused" => parser.put_check(&odd);
        "put_validator of a fraction, refused", given = Box::new(alloc, Refuses)?
            => parser.put_validator(&odd, given);
        "put_checks of a map with a fraction, refused", map = map_of(alloc, ODD)? => parser.put_checks(map);
        "put_validator of a claim", given = Box::new(alloc, Refuses)? => parser.put_validator(&own, given);
        "validate_claim of a claim", given = Box::new(alloc, Refuses)?
            => parser.validate_claim(&own, given).map(drop);
    }
}

// The entry of an audience.
fn audience(alloc: Global) -> Result<(String, Value)> {
    let value = Value::try_from_str(alloc, "others")?;
    Ok((String::from_str(alloc, "aud")?, value))
}

fn ask_expected(run: &mut Run<'_>) -> Result<()> {
    let alloc = run.alloc;
    edits! { run, "TokenParser::", parser = parser_of::<V4, Local>(alloc);
        "put_expected of a value", entry = audience(alloc)? => parser.put_expected(entry.0, entry.1);
    }
}

/// Entries of several keys, one of which is stored already.
pub const SEVERAL: &str = "{\"a\":{\"a\":1},\"aud\":{\"aud\":\"others\"},\"seats\":5}";

fn ask_maps(run: &mut Run<'_>) -> Result<()> {
    let (alloc, now) = (run.alloc, now()?);
    edits! { run, "TokenParser::", parser = parser_of::<V4, Local>(alloc);
        "put_checks of a map", map = map_of(alloc, SEVERAL)? => parser.put_checks(map);
        "extend_check_claims of a map", map = map_of(alloc, SEVERAL)?
            => parser.extend_check_claims(map).map(drop);
        "put_validators of a map", map = validators!(alloc) => parser.put_validators(map);
        "extend_validation_claims of a map", map = validators!(alloc)
            => parser.extend_validation_claims(map).map(drop);
        "put_key_validator of a key", given = Box::new(alloc, Refuses)?
            => parser.put_key_validator("aud", given);
        "validate_key of a key", given = Box::new(alloc, Refuses)?
            => parser.validate_key("aud", given).map(drop);
        "put_required of a claim" => parser.put_required("sub");
        "require_claim of a claim" => parser.require_claim("sub").map(drop);
        "put_times of a moment" => parser.put_times(now);
        "check_times of a moment" => parser.check_times(now).map(drop);
    }
}

fn ask_value(run: &mut Run<'_>) -> Result<()> {
    let (payload, parser) = (good(run.alloc, run.text)?, timed::<V4, Local>(run.alloc)?);
    let undated = Value::from_str(run.alloc, "{\"exp\":\"x\"}")?;
    calls! { run;
        "TokenParser::value_of of a text" => parser.value_of(payload.as_str());
        "TokenParser::check of no date, refused" => parser.check(&undated);
    }
}

struct Kinds;

impl Cases for Kinds {
    fn ask_local<V: DefaultLocalVersion>(run: &mut Run<'_>, kind: &str) -> Result<()> {
        let token = seal::<V>(run.alloc, good(run.alloc, run.text)?.as_str(), footer())?;
        let parser = timed::<V, Local>(run.alloc)?;
        calls! { run, kind; "TokenParser::parse of {}" => parser.parse(token.as_str(), &symmetric_key()); }
    }

    fn ask_boxed(run: &mut Run<'_>) -> Result<()> {
        let token = seal_boxed(run.alloc, good(run.alloc, run.text)?.as_str(), footer())?;
        let (parser, key) = (timed::<V2, Local>(run.alloc)?, symmetric_key());
        calls! { run; "TokenParser::parse of v2.local" => parser.parse(&PlainBox, token.as_str(), &key); }
    }

    fn ask_public<V: Signed>(run: &mut Run<'_>, kind: &str, keys: &Keys) -> Result<()> {
        let token = sign::<V>(run.alloc, good(run.alloc, run.text)?.as_str(), footer())?;
        let (key, parser) = (V::public_key(keys)?, timed::<V, Public>(run.alloc)?);
        calls! { run, kind; "TokenParser::parse of {}" => parser.parse(&Lenient, token.as_str(), &key); }
    }
}

// Payloads that are no JSON, or fail a check, and so are refused.
const REFUSED: &[(&str, &str)] = &[
    ("no JSON, refused", "{\"aud\":"),
    ("a fraction, refused", "{\"aud\":[3.5]}"),
    ("another audience, refused", "{\"aud\":\"others\"}"),
    ("no audience, refused", "{\"seats\":4}"),
    ("no date, refused", "{\"aud\":\"customers\",\"exp\":\"x\"}"),
    (
        "a claim that is missing, refused",
        "{\"aud\":\"customers\",\"nbf\":\"2050-01-01T00:00:00Z\",\"k0\":0}",
    ),
];

fn ask_failed_checks(run: &mut Run<'_>) -> Result<()> {
    let (alloc, payload) = (run.alloc, expired(run.alloc)?);
    let payload = payload.as_str();
    let mut parser = timed::<V4, Local>(alloc)?;
    parser.put_check(&AudienceClaim::from("customers"))?;
    'payloads: for &(of, payload) in REFUSED {
        ask_refused(run, of, payload, &parser)?;
    }
    ask_refused(run, "an expired token, refused", payload, &parser)?;
    let mut parser = parser_of(alloc)?;
    parser.put_validators(validators!(alloc))?;
    ask_refused(run, "what a validator refuses, refused", payload, &parser)
}

fn ask_refused(run: &mut Run<'_>, of: &str, json: &str, parser: &Parser<V4, Local>) -> Result<()> {
    let token = seal::<V4>(run.alloc, json, footer())?;
    calls! { run, of; "TokenParser::parse of {}" => parser.parse(token.as_str(), &symmetric_key()); }
}
