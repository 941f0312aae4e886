//! The calls of default builders and parsers.

use crate::builders::map_of;
use crate::claims::numbered;
use crate::kinds::{Cases, Signed, ask_kinds, footer, symmetric_key};
use crate::parsers::{SEVERAL, good, now, put_checks};
use crate::run::{Run, Snapshot, calls, edits, put, shown};
use crate::tokens::{seal, seal_boxed, sign};
use crate::validators::{Refuses, validators};
use anyhow::{Result, ensure};
use jiff::Timestamp;
use rusty_paseto::prelude::*;
use serde_json::Value;
use std::alloc::Global;
use test_toys::generators::Zeros;
use test_toys::keys::Keys;
use test_toys::{Lenient, PlainBox};

/// A builder is known by its token.
impl Snapshot for PasetoBuilder<'_, V4, Local> {
    fn snapshot(&self, alloc: Global) -> Result<String> {
        shown(alloc, self.build(&mut Zeros, &symmetric_key()))
    }
}

/// A parser is known by what it answers for a token.
impl Snapshot for PasetoParser<'_, V4, Local> {
    fn snapshot(&self, alloc: Global) -> Result<String> {
        let token = seal::<V4>(alloc, good(alloc, "customers")?.as_str(), footer())?;
        shown(alloc, self.parse(token.as_str(), &symmetric_key()))
    }
}

/// Asks them.
pub fn ask(run: &mut Run<'_>) -> Result<()> {
    ask_defaults(run)?;
    ask_claims(run)?;
    ask_payload(run)?;
    ask_repeated_claims(run)?;
    ask_lifetimes(run)?;
    ask_checks(run)?;
    ask_validators(run)?;
    ask_kinds::<Kinds>(run)
}

/// A builder of five claims and so many more, one of them with the text, and a footer.
pub fn builder_of<V: VersionTrait, P: PurposeTrait>(
    alloc: Global,
    text: &str,
    more: u64,
) -> Result<PasetoBuilder<'static, V, P>> {
    let now = now()?;
    ensure!(fits_default(now), "no default builder begins at the moment");
    let mut builder = PasetoBuilder::default(alloc, now)?;
    builder.put_claim(&AudienceClaim::from("customers"))?;
    builder.put_claim(&CustomClaim::try_from_str(alloc, "data", text)?)?;
    'numbers: for number in 0..more {
        builder.put_claim(&numbered(alloc, number)?)?;
    }
    builder.set_footer(footer());
    Ok(builder)
}

/// A parser that checks fifteen claims, and expects the footer.
pub fn parser_of<V: VersionTrait, P: PurposeTrait>(
    alloc: Global,
) -> Result<PasetoParser<'static, V, P>> {
    let mut parser = PasetoParser::default(alloc, now()?)?;
    put_checks(&mut parser, alloc, 12)?;
    parser.set_footer(footer());
    Ok(parser)
}

fn ask_defaults(run: &mut Run<'_>) -> Result<()> {
    let (alloc, now) = (run.alloc, now()?);
    ensure!(fits_default(now), "no default builder begins at the moment");
    edits!(run, "PasetoBuilder::", slot = Ok(None);
        "default of a moment" => put(slot, PasetoBuilder::<V4, Local>::default(alloc, now));
        "try_default of a moment" => put(slot, PasetoBuilder::<V4, Local>::try_default(alloc, now));
        "try_default of the last moment, refused"
            => put(slot, PasetoBuilder::<V4, Local>::try_default(alloc, Timestamp::MAX));
    )?;
    edits! { run, "DefaultParser::", slot = Ok(None);
        "default of a moment" => put(slot, PasetoParser::<V4, Local>::default(alloc, now));
    }
}

// With ten more the claims are fifteen, and with thirteen more the keys that are counted.
fn ask_claims(run: &mut Run<'_>) -> Result<()> {
    let (alloc, text) = (run.alloc, run.text);
    let claim = CustomClaim::try_from_str(alloc, "text", text)?;
    edits!(run, "PasetoBuilder::", builder = builder_of::<V4, Local>(alloc, text, 10);
        "put_claim of a claim" => builder.put_claim(&claim);
    )?;
    edits!(run, "PasetoBuilder::", builder = builder_of::<V4, Local>(alloc, text, 13);
        "put_claim of a claim beside many" => builder.put_claim(&claim);
    )?;
    edits! { run, "PasetoBuilder::", builder = builder_of::<V4, Local>(alloc, text, 10);
        "set_claim of a claim" => builder.set_claim(&claim).map(drop);
    }
}

fn ask_payload(run: &mut Run<'_>) -> Result<()> {
    let builder = builder_of::<V4, Local>(run.alloc, run.text, 10)?;
    calls! { run; "PasetoBuilder::build_payload_from_claims of some claims"
        => builder.build_payload_from_claims(); }
}

// A claim that is set again makes a key the repeated one, for which nothing is built.
fn ask_repeated_claims(run: &mut Run<'_>) -> Result<()> {
    let (alloc, claim, key) = (run.alloc, AudienceClaim::from("others"), symmetric_key());
    edits!(run, "PasetoBuilder::", builder = builder_of::<V4, Local>(alloc, "a", 10);
        "put_claim of a key that was set" => builder.put_claim(&claim);
    )?;
    let mut builder = builder_of::<V4, Local>(alloc, "a", 10)?;
    builder.put_claim(&claim)?;
    calls!(run; "PasetoBuilder::build of a key that was set again, refused"
        => builder.build(&mut Zeros, &key);)?;
    calls!(run; "PasetoBuilder::build_payload_from_claims of a key that was set again, refused"
        => builder.build_payload_from_claims();)?;
    edits! { run, "PasetoBuilder::", builder = builder_of::<V4, Local>(alloc, "a", 10);
        "put_no_expiration_danger_acknowledged of a builder"
            => builder.put_no_expiration_danger_acknowledged();
        "set_no_expiration_danger_acknowledged of a builder"
            => builder.set_no_expiration_danger_acknowledged().map(drop);
    }
}

// From the last moment at which a builder begins, an hour is left, and its fraction of a second.
fn ask_lifetimes(run: &mut Run<'_>) -> Result<()> {
    let alloc = run.alloc;
    let last = Timestamp::from_nanosecond(Timestamp::MAX.as_nanosecond() - 3_600_000_000_000)?;
    edits!(run, "PasetoBuilder::", builder = builder_of::<V4, Local>(alloc, "a", 10);
        "put_lifetime of a builder" => builder.put_lifetime(600);
        "set_lifetime of a builder" => builder.set_lifetime(600).map(drop);
    )?;
    edits! { run, "PasetoBuilder::", builder = Ok(PasetoBuilder::<V4, Local>::try_default(alloc, last)?);
        "put_lifetime of a builder past the last moment, refused" => builder.put_lifetime(3_601);
    }
}

fn ask_checks(run: &mut Run<'_>) -> Result<()> {
    let (alloc, claim) = (run.alloc, AudienceClaim::from("others"));
    edits! { run, "DefaultParser::", parser = parser_of::<V4, Local>(alloc);
        "put_check of a claim" => parser.put_check(&claim);
        "check_claim of a claim" => parser.check_claim(&claim).map(drop);
        "put_checks of a map", map = map_of(alloc, SEVERAL)? => parser.put_checks(map);
        "extend_check_claims of a map", map = map_of(alloc, SEVERAL)?
            => parser.extend_check_claims(map).map(drop);
    }
}

// At the first moment of 2060 all tokens of the cases have expired.
fn ask_validators(run: &mut Run<'_>) -> Result<()> {
    let (alloc, claim) = (run.alloc, AudienceClaim::from("customers"));
    let late = Timestamp::from_second(2_840_140_800)?;
    edits! { run, "DefaultParser::", parser = parser_of::<V4, Local>(alloc);
        "put_validator of a claim", given = Box::new(alloc, Refuses)? => parser.put_validator(&claim, given);
        "validate_claim of a claim", given = Box::new(alloc, Refuses)?
            => parser.validate_claim(&claim, given).map(drop);
        "put_validators of a map", map = validators!(alloc) => parser.put_validators(map);
        "extend_validation_claims of a map", map = validators!(alloc)
            => parser.extend_validation_claims(map).map(drop);
        "put_key_validator of a key", given = Box::new(alloc, Refuses)?
            => parser.put_key_validator("aud", given);
        "validate_key of a key", given = Box::new(alloc, Refuses)?
            => parser.validate_key("aud", given).map(drop);
        "put_required of a claim" => parser.put_required("sub");
        "require_claim of a claim" => parser.require_claim("sub").map(drop);
        "put_times of a moment, with no memory" => parser.put_times(late);
        "check_times of a moment, with no memory" => parser.check_times(late).map(drop);
    }
}

struct Kinds;

impl Cases for Kinds {
    fn ask_local<V: DefaultLocalVersion>(run: &mut Run<'_>, kind: &str) -> Result<()> {
        let (alloc, key) = (run.alloc, symmetric_key());
        let token = seal::<V>(alloc, good(alloc, run.text)?.as_str(), footer())?;
        let builder = builder_of::<V, Local>(alloc, run.text, 10)?;
        let parser = parser_of::<V, Local>(alloc)?;
        calls! { run, kind;
            "PasetoBuilder::build of {}" => builder.build(&mut Zeros, &key);
            "DefaultParser::parse of {}" => parser.parse(token.as_str(), &key);
        }
    }

    fn ask_boxed(run: &mut Run<'_>) -> Result<()> {
        let (alloc, key) = (run.alloc, symmetric_key());
        let token = seal_boxed(alloc, good(alloc, run.text)?.as_str(), footer())?;
        let builder = builder_of::<V2, Local>(alloc, run.text, 10)?;
        let parser = parser_of::<V2, Local>(alloc)?;
        let undated = Value::from_str(alloc, "{\"exp\":\"x\"}")?;
        calls! { run;
            "DefaultParser::check of no date, refused" => parser.check(&undated);
            "PasetoBuilder::build of v2.local" => builder.build(&PlainBox, &mut Zeros, &key);
            "DefaultParser::parse of v2.local" => parser.parse(&PlainBox, token.as_str(), &key);
        }
    }

    fn ask_public<V: Signed>(run: &mut Run<'_>, kind: &str, keys: &Keys) -> Result<()> {
        let (alloc, private, public) = (run.alloc, V::private_key(keys), V::public_key(keys)?);
        let token = sign::<V>(alloc, good(alloc, run.text)?.as_str(), footer())?;
        let builder = builder_of::<V, Public>(alloc, run.text, 10)?;
        let parser = parser_of::<V, Public>(alloc)?;
        calls! { run, kind;
            "PasetoBuilder::build of {}" => builder.build(&mut Lenient, &private);
            "DefaultParser::parse of {}" => parser.parse(&Lenient, token.as_str(), &public);
        }
    }
}
