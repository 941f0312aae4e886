//! The claims that are a date and time.

use crate::claims::json;
use crate::expect::{expect_same, expect_text, expect_that};
use jiff::Timestamp;
use rusty_paseto_claims::{
    DateClaim, ExpirationClaim, IssuedAtClaim, NotBeforeClaim, PasetoClaimError, ReservedKey,
};
use std::process::Abort;

// The claim keeps the text, under its key.
fn check_kept<K: ReservedKey>(
    rt: &impl Abort,
    claim: Result<DateClaim<K>, PasetoClaimError>,
    key: &str,
    text: &str,
) {
    let claim = claim.expect(rt, text);
    expect_same(rt, claim.as_pair(), (key, text), "the claim");
}

#[test]
fn kept_as_given(rt: HostRuntime) {
    let alloc = rt.alloc();
    'texts: for text in [
        "2019-01-01T00:00:00+00:00",
        "2024-02-29T23:59:59Z",
        "1985-04-12T23:20:50.52Z",
        "1996-12-19T16:39:57-08:00",
        "1937-01-01T12:00:27.87+00:20",
    ] {
        check_kept(&rt, ExpirationClaim::try_from_str(alloc, text), "exp", text);
        let owned = String::from_str(alloc, text).expect(&rt, "memory");
        check_kept(
            &rt,
            NotBeforeClaim::try_from_string(alloc, owned),
            "nbf",
            text,
        );
    }
}

// The texts are those of GNU date, `date --utc --iso-8601=seconds`, with the fraction behind them.
#[test]
fn of_moments(rt: HostRuntime) {
    let alloc = rt.alloc();
    'rows: for (nanosecond, text) in [
        (0, "1970-01-01T00:00:00Z"),
        (1_795_608_000_000_000_000, "2026-11-25T12:00:00Z"),
        (482_196_050_520_000_000, "1985-04-12T23:20:50.52Z"),
        (-1, "1969-12-31T23:59:59.999999999Z"),
        (-62_167_219_200_000_000_000, "0000-01-01T00:00:00Z"),
    ] {
        let moment = Timestamp::from_nanosecond(nanosecond).expect(&rt, "a moment");
        let claim = IssuedAtClaim::at(alloc, moment).expect(&rt, "a claim");
        expect_text(&rt, claim.as_pair().1, text);
    }
    let moment = Timestamp::from_nanosecond(-62_167_219_200_000_000_001).expect(&rt, "a moment");
    let answer = NotBeforeClaim::at(alloc, moment).map(drop);
    let text = "-000001-12-31T23:59:59.999999999Z";
    expect_that(&rt, is_no_date(answer, text), &text);
}

/// Whether no instant was read of the text.
pub(crate) fn is_no_date(answer: Result<(), PasetoClaimError>, text: &str) -> bool {
    let is_named =
        matches!(&answer, Err(PasetoClaimError::RFC3339Date(told)) if told.as_str() == text);
    drop(answer);
    is_named
}

#[test]
fn refused_where_no_instant_is_read(rt: HostRuntime) {
    let alloc = rt.alloc();
    'texts: for text in [
        "hello",
        "",
        "2019-01-01",
        "2019-01-01T00:00:00",
        "2019-13-01T00:00:00Z",
        "2019-02-29T00:00:00Z",
        "2019-01-01T24:00:00Z",
        "2019-01-01T00:00:00Z ",
    ] {
        let answer = ExpirationClaim::try_from_str(alloc, text).map(drop);
        expect_that(&rt, is_no_date(answer, text), &text);
        let owned = String::from_str(alloc, text).expect(&rt, "memory");
        let answer = IssuedAtClaim::try_from_string(alloc, owned).map(drop);
        expect_that(&rt, is_no_date(answer, text), &text);
    }
}

#[test]
fn written_under_their_keys(rt: HostRuntime) {
    let alloc = rt.alloc();
    let text = "2050-01-01T00:00:00+00:00";
    let claim = ExpirationClaim::try_from_str(alloc, text).expect(&rt, "a claim");
    let copy = claim.try_clone(alloc).expect(&rt, "a copy");
    let json = "{\"exp\":\"2050-01-01T00:00:00+00:00\"}";
    json::check(&rt, alloc, claim, "exp", json);
    json::check(&rt, alloc, copy, "exp", json);
    let issued = IssuedAtClaim::default(alloc).expect(&rt, "a claim");
    json::check(
        &rt,
        alloc,
        issued,
        "iat",
        "{\"iat\":\"2019-01-01T00:00:00+00:00\"}",
    );
    let first = NotBeforeClaim::default(alloc).expect(&rt, "a claim");
    json::check(
        &rt,
        alloc,
        first,
        "nbf",
        "{\"nbf\":\"2019-01-01T00:00:00+00:00\"}",
    );
}
