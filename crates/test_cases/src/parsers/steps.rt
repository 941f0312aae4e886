//! What parsers are told to check.

use crate::claims::json::value_of;
use crate::parsers::validators::{Accepts, RefusesNull, Tells};
use rusty_paseto_claims::{AudienceClaim, CustomClaim, PasetoClaim};
use rusty_paseto_core::{PurposeTrait, VersionTrait};
use rusty_paseto_generic::{CheckSetter, GenericParser, GenericParserError, ValidatorFn};
use serde_json::Value;
use std::alloc::Global;
use std::collections::BTreeMap;
use std::process::Abort;

/// Which validator checks.
#[derive(Clone, Copy)]
pub(crate) enum Rule {
    Accepts,
    RefusesNull,
    Tells,
}

impl Rule {
    /// The validator.
    pub(crate) fn boxed(self, rt: &impl Abort, alloc: Global) -> ValidatorFn {
        match self {
            Rule::Accepts => Box::new(alloc, Accepts).expect(rt, "memory"),
            Rule::RefusesNull => Box::new(alloc, RefusesNull).expect(rt, "memory"),
            Rule::Tells => Box::new(alloc, Tells).expect(rt, "memory"),
        }
    }
}

/// A call that adds to the checks. JSON is given by its text.
#[derive(Clone, Copy)]
pub(crate) enum Step<'a> {
    /// The audience is checked by its claim.
    Audience(&'a str),
    /// A claim of a key and JSON is checked.
    Check(&'a str, &'a str),
    /// JSON is expected under a key, without a claim.
    Expected(&'a str, &'a str),
    /// A key and JSON are stored as they are.
    Store(&'a str, &'a str),
    /// A claim of a key and JSON is checked by a validator.
    Checker(&'a str, &'a str, Rule),
    /// A key is checked by a validator.
    CheckerKey(&'a str, Rule),
}

/// A claim of a caller's own.
pub(crate) fn custom(rt: &impl Abort, alloc: Global, key: &str, json: &str) -> CustomClaim<Value> {
    let value = value_of(rt, alloc, json);
    CustomClaim::try_from_str(alloc, key, value).expect(rt, "a claim")
}

/// A map of one key.
pub(crate) fn map_of<T: Drop>(
    rt: &impl Abort,
    alloc: Global,
    key: &str,
    value: T,
) -> BTreeMap<String, T> {
    let mut map = BTreeMap::new(alloc);
    let key = String::from_str(alloc, key).expect(rt, "memory");
    let old: Result<_, _> = map.insert(key, value);
    drop(old.expect(rt, "memory"));
    map
}

/// A map of keys and JSON.
pub(crate) fn values_of(
    rt: &impl Abort,
    alloc: Global,
    rows: &[(&str, &str)],
) -> BTreeMap<String, Value> {
    let mut map = BTreeMap::new(alloc);
    'rows: for (key, json) in rows {
        let key = String::from_str(alloc, *key).expect(rt, "memory");
        let value = value_of(rt, alloc, *json);
        let old: Result<_, _> = map.insert(key, value);
        drop(old.expect(rt, "memory"));
    }
    map
}

fn put_check<V: VersionTrait, P: PurposeTrait, C: PasetoClaim + Drop>(
    parser: &mut GenericParser<'_, V, P>,
    claim: C,
) -> Result<(), GenericParserError> {
    parser.put_check(&claim)
}

fn put_expected<V: VersionTrait, P: PurposeTrait>(
    rt: &impl Abort,
    parser: &mut GenericParser<'_, V, P>,
    alloc: Global,
    key: &str,
    json: &str,
) -> Result<(), GenericParserError> {
    let key = String::from_str(alloc, key).expect(rt, "memory");
    parser.put_expected(key, value_of(rt, alloc, json))
}

fn put_validator<V: VersionTrait, P: PurposeTrait>(
    parser: &mut GenericParser<'_, V, P>,
    claim: CustomClaim<Value>,
    validator: ValidatorFn,
) -> Result<(), GenericParserError> {
    parser.put_validator(&claim, validator)
}

/// Makes the call.
pub(crate) fn add<V: VersionTrait, P: PurposeTrait>(
    rt: &impl Abort,
    parser: &mut GenericParser<'_, V, P>,
    alloc: Global,
    step: Step<'_>,
) -> Result<(), GenericParserError> {
    match step {
        Step::Audience(text) => put_check(parser, AudienceClaim::from(text)),
        Step::Check(key, json) => put_check(parser, custom(rt, alloc, key, json)),
        Step::Expected(key, json) => put_expected(rt, parser, alloc, key, json),
        Step::Store(key, json) => {
            let value = value_of(rt, alloc, json);
            parser.put_checks(map_of(rt, alloc, key, value))
        }
        Step::Checker(key, json, rule) => {
            put_validator(parser, custom(rt, alloc, key, json), rule.boxed(rt, alloc))
        }
        Step::CheckerKey(key, rule) => {
            parser.put_validators(map_of(rt, alloc, key, rule.boxed(rt, alloc)))
        }
    }
}
