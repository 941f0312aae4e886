//! What builders refuse, and that they are then unchanged.

ghost use Rattle.rusty_paseto_claims.specs.Claim.{refuses};
ghost use Rattle.rusty_paseto_claims.specs.Error.{expired};
ghost use Rattle.std.specs.Prelude.{[], codes};

use crate::builders::payloads::{check, put};
use crate::expect::{expect_outcome, expect_that};
use crate::parsers::steps::{custom, values_of};
use rusty_paseto_claims::{AudienceClaim, PasetoClaim, PasetoClaimError};
use rusty_paseto_core::{Local, V4};
use rusty_paseto_generic::{ClaimSetter, GenericBuilder};
use serde_json::Value;
use std::alloc::Global;
use std::cell::Cell;
use std::process::Abort;

type Builder<'a> = GenericBuilder<'a, V4, Local>;

/// A claim that is not to be written.
#[derive(Drop)]
struct Unwritten;

impl PasetoClaim for Unwritten {
    ghost key = { λ _. codes "unwritten" };

    ghost json = { λ _. refuses expired };

    fn get_key(&self) -> &str {
        "unwritten"
    }

    fn to_json(&self, _alloc: Global) -> Result<Value, PasetoClaimError> {
        Err(PasetoClaimError::Expired)
    }
}

/// A claim with the empty key, which notes whether it was asked for its JSON.
#[derive(Drop)]
struct Keyless {
    is_asked: Cell<bool>,
}

impl PasetoClaim for Keyless {
    ghost key = { λ _. [] };

    ghost json = { λ _. refuses expired };

    fn get_key(&self) -> &str {
        ""
    }

    fn to_json(&self, _alloc: Global) -> Result<Value, PasetoClaimError> {
        self.is_asked.set(true);
        Err(PasetoClaimError::Expired)
    }
}

// That the value under the key `b` was refused for its numbers.
const UNEXPECTED_B: &str = "ClaimError { source: Unexpected(\"b\") }";

const CUSTOMERS: &str = "{\"aud\":\"customers\"}";

// A builder of one claim.
fn builder_of_customers<'a>(rt: &impl Abort, alloc: Global) -> Builder<'a> {
    let mut builder = Builder::new(alloc);
    put(rt, &mut builder, AudienceClaim::from("customers"));
    builder
}

const OTHER_NUMBERS: &[&str] = &["3.5", "[1,{\"a\":1.0}]", "18446744073709551616", "1e2"];

#[test]
fn other_numbers(rt: HostRuntime) {
    let mut builder = builder_of_customers(&rt, rt.alloc());
    'texts: for &text in OTHER_NUMBERS {
        let answer = builder.put_claim(&custom(&rt, rt.alloc(), "n", text));
        let wanted = "ClaimError { source: Unexpected(\"n\") }";
        expect_outcome(&rt, rt.alloc(), answer, wanted, text);
    }
    check(&rt, &builder, CUSTOMERS);
    drop(builder);
}

#[test]
fn all_values_or_none(rt: HostRuntime) {
    let mut builder = builder_of_customers(&rt, rt.alloc());
    let rows = &[("z", "1.5"), ("aud", "null"), ("b", "[2.5]"), ("a", "1")];
    let answer = builder.put_claims(values_of(&rt, rt.alloc(), rows));
    expect_outcome(&rt, rt.alloc(), answer, UNEXPECTED_B, "put");
    check(&rt, &builder, CUSTOMERS);
    drop(builder);
}

#[test]
fn extended_by_fractions(rt: HostRuntime) {
    let mut builder = Builder::new(rt.alloc());
    let rows = &[("a", "1"), ("b", "3.5"), ("c", "4.5")];
    let more = values_of(&rt, rt.alloc(), rows);
    let answer = builder.extend_claims(more).map(drop);
    expect_outcome(&rt, rt.alloc(), answer, UNEXPECTED_B, "extended");
    check(&rt, &builder, "{}");
    drop(builder);
}

#[test]
fn a_claims_own_fault(rt: HostRuntime) {
    let mut builder = Builder::new(rt.alloc());
    let answer = builder.put_claim(&Unwritten);
    let wanted = "ClaimError { source: Expired }";
    expect_outcome(&rt, rt.alloc(), answer, wanted, "the claim");
    check(&rt, &builder, "{}");
    drop(builder);
}

#[test]
fn the_empty_key(rt: HostRuntime) {
    let mut builder = builder_of_customers(&rt, rt.alloc());
    let claim = Keyless {
        is_asked: Cell::new(false),
    };
    let answer = builder.put_claim(&claim);
    expect_outcome(&rt, rt.alloc(), answer, "Ok", "the claim");
    expect_that(&rt, !claim.is_asked.get(), "the claim");
    check(&rt, &builder, CUSTOMERS);
    drop(builder);
}
