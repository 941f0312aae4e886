//! Claims of long keys and texts.

use crate::claims::dates::is_no_date;
use crate::expect::{expect_same, expect_that, shown};
use rusty_paseto_claims::{
    AudienceClaim, ClaimValue, CustomClaim, ExpirationClaim, PasetoClaim, same_value,
};
use serde_json::Value;
use std::alloc::Global;
use std::process::Abort;
use test_toys::long::{LENGTHS, text_of};

fn length_of(rt: &impl Abort, alloc: Global, json: &Value) -> usize {
    shown(rt, alloc, json).len()
}

#[test]
fn are_written(rt: HostRuntime) {
    let alloc = rt.alloc();
    'lengths: for (length, audience, custom) in [
        (100_000usize, 100_010usize, 200_007usize),
        (1_000_000, 1_000_010, 2_000_007),
    ] {
        let text = text_of(alloc, length).expect(&rt, "memory");
        let text = text.as_str();
        let json = AudienceClaim::from(text).to_json(alloc).expect(&rt, "JSON");
        expect_same(&rt, &length_of(&rt, alloc, &json), &audience, "the answer");
        drop(json);
        let claim = CustomClaim::try_from_str(alloc, text, text).expect(&rt, "a claim");
        let json = claim.to_json(alloc).expect(&rt, "JSON");
        expect_same(&rt, &length_of(&rt, alloc, &json), &custom, "the answer");
        let copy = json.to_value(alloc).expect(&rt, "memory");
        expect_that(&rt, same_value(&copy, &json), "the answer");
        drop(copy);
        drop(json);
    }
}

#[test]
fn are_no_dates(rt: HostRuntime) {
    let alloc = rt.alloc();
    'lengths: for &length in LENGTHS {
        let text = text_of(alloc, length).expect(&rt, "memory");
        let answer = ExpirationClaim::try_from_str(alloc, text.as_str()).map(drop);
        expect_that(&rt, is_no_date(answer, text.as_str()), &length);
    }
}
