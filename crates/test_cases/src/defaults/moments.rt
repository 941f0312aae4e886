//! The moments at which default builders begin, and their texts.

use crate::builders::maps::Numbers;
use crate::claims::json::value_of;
use crate::defaults::kinds::{Answer, moment_after};
use crate::defaults::rows::NONE;
use crate::expect::{OK, expect_refusal, expect_refusal_or_ok, expect_text, expect_that, shown};
use crate::kinds::{Binding, Kind, SECRET, symmetric_key};
use jiff::Timestamp;
use rusty_paseto::prelude::{CountingSetter, Local, PasetoBuilder, PasetoParser, V4, fits_default};
use serde_json::Value;
use std::alloc::Global;
use std::process::Abort;
use test_toys::generators::Counting;

/// The first moment of the year 0, in seconds since 1970.
const FIRST_SECOND: i64 = -62_167_219_200;

/// The nanoseconds of an hour.
const HOUR: i128 = 3_600_000_000_000;

// The moment so many nanoseconds later.
fn later(rt: &impl Abort, moment: Timestamp, nanoseconds: i128) -> Timestamp {
    let sum = moment.as_nanosecond().wrapping_add(nanoseconds);
    Timestamp::from_nanosecond(sum).expect(rt, "a moment")
}

#[test]
fn moments_that_fit(rt: HostRuntime) {
    let first = Timestamp::from_second(FIRST_SECOND).expect(&rt, "a moment");
    let last = later(&rt, Timestamp::MAX, -HOUR);
    'rows: for (moment, fits) in [
        (first, true),
        (later(&rt, first, -1), false),
        (last, true),
        (later(&rt, last, 1), false),
        (Timestamp::MAX, false),
        (Timestamp::MIN, false),
    ] {
        expect_that(&rt, fits_default(moment) == fits, &moment);
    }
}

// At which moments `try_default` makes a builder, and how it refuses others.
#[test]
fn moments_that_are_refused(rt: HostRuntime) {
    let first = Timestamp::from_second(FIRST_SECOND).expect(&rt, "a moment");
    let last = later(&rt, Timestamp::MAX, -HOUR);
    'rows: for (moment, expected) in [
        (first, OK),
        (
            later(&rt, first, -1),
            "The value -000001-12-31T23:59:59.999999999Z is a malformed RFC3339 date",
        ),
        (last, OK),
        (
            later(&rt, last, 1),
            "The value 9999-12-30T21:00:01Z is a malformed RFC3339 date",
        ),
        (
            Timestamp::MIN,
            "The value -009999-01-02T01:59:59Z is a malformed RFC3339 date",
        ),
    ] {
        let answer = PasetoBuilder::<V4, Local>::try_default(rt.alloc(), moment);
        expect_refusal_or_ok(&rt, rt.alloc(), answer, expected, &moment);
    }
}

// The claims of a default token that is built at the moment.
fn claims_at(rt: &impl Abort, alloc: Global, now: Timestamp) -> Value {
    let token = Kind::V4Local.default_token(rt, alloc, now, NONE, Binding::NONE);
    let text = Kind::V4Local.read(alloc, token.as_str(), Binding::NONE);
    value_of(rt, alloc, text.expect(rt, "a payload").as_str())
}

// The text under a key in claims.
fn text_under(rt: &impl Abort, alloc: Global, claims: &Value, key: &str) -> String {
    let found = claims.get(key).expect(rt, key);
    String::from_str(alloc, found.as_str().expect(rt, "a text")).expect(rt, "memory")
}

// The text under `iat` there.
fn text_at(rt: &impl Abort, alloc: Global, now: Timestamp) -> String {
    let claims = claims_at(rt, alloc, now);
    let text = text_under(rt, alloc, &claims, "iat");
    drop(claims);
    text
}

#[test]
fn texts(rt: HostRuntime) {
    let first = Timestamp::from_second(FIRST_SECOND).expect(&rt, "a moment");
    'rows: for (now, text) in [
        (moment_after(&rt, 0), "2024-01-01T00:00:00Z"),
        (moment_after(&rt, 500_000_000), "2024-01-01T00:00:00.5Z"),
        (moment_after(&rt, 1), "2024-01-01T00:00:00.000000001Z"),
        (moment_after(&rt, 10), "2024-01-01T00:00:00.00000001Z"),
        (
            moment_after(&rt, 123_456_789),
            "2024-01-01T00:00:00.123456789Z",
        ),
        (moment_after(&rt, -1), "2023-12-31T23:59:59.999999999Z"),
        (
            moment_after(&rt, 5_097_600_000_000_000),
            "2024-02-29T00:00:00Z",
        ),
        (first, "0000-01-01T00:00:00Z"),
        (
            later(&rt, Timestamp::MAX, -HOUR),
            "9999-12-30T21:00:00.999999999Z",
        ),
    ] {
        expect_text(&rt, text_at(&rt, rt.alloc(), now).as_str(), text);
    }
}

// A second of the years 0 to 9926, and nanoseconds that often end in zeros.
fn moment_of(rt: &impl Abort, numbers: &mut Numbers) -> Timestamp {
    let seconds = (numbers.next().wrapping_mul(73) % 313_000_000_000) as i64;
    let nanoseconds = match numbers.next() % 4 {
        0 => 0,
        1 => (numbers.next() % 1_000) * 1_000_000,
        _ => numbers.next() % 1_000_000_000,
    };
    Timestamp::new(FIRST_SECOND.wrapping_add(seconds), nanoseconds as i32).expect(rt, "a moment")
}

#[test]
fn read_back(rt: HostRuntime) {
    let alloc = rt.alloc();
    let mut numbers = Numbers::of_seed(3);
    'moments: for index in 0..1000u16 {
        let now = moment_of(&rt, &mut numbers);
        let text = text_at(&rt, alloc, now);
        let found = text.as_str().parse::<Timestamp>().expect(&rt, "an instant");
        expect_that(&rt, found == now, &(index, text));
    }
}

type Builder<'a> = PasetoBuilder<'a, V4, Local>;

// What a parser reads of the token that is built.
fn read(rt: &impl Abort, alloc: Global, builder: &Builder<'_>) -> Answer {
    let key = symmetric_key::<V4>(&SECRET);
    let token = builder.build(&mut Counting::new(), &key);
    let (token, parser) = (
        token.expect(rt, "a token"),
        PasetoParser::<V4, Local>::new(alloc),
    );
    parser.parse(token.as_str(), &key)
}

// The text under `exp` in the token that is built.
fn end_in(rt: &impl Abort, alloc: Global, builder: &Builder<'_>) -> String {
    let claims = read(rt, alloc, builder).expect(rt, "claims");
    let text = text_under(rt, alloc, &claims, "exp");
    drop(claims);
    text
}

// The text under `exp` in a token of so many seconds that is built at the moment, or the text of the refusal.
fn end_of(rt: &impl Abort, alloc: Global, now: Timestamp, seconds: u32) -> String {
    let mut builder = Builder::try_default(alloc, now).expect(rt, "a builder");
    let text = match builder.put_lifetime(seconds) {
        Ok(()) => end_in(rt, alloc, &builder),
        Err(refusal) => {
            let text = shown(rt, alloc, &refusal);
            drop(refusal);
            text
        }
    };
    drop(builder);
    text
}

#[test]
fn lifetimes(rt: HostRuntime) {
    let last = later(&rt, Timestamp::MAX, -HOUR);
    'rows: for (now, seconds, expected) in [
        (moment_after(&rt, 0), 600, "2024-01-01T00:10:00Z"),
        (moment_after(&rt, 0), 0, "2024-01-01T00:00:00Z"),
        (
            moment_after(&rt, 1),
            604_800,
            "2024-01-08T00:00:00.000000001Z",
        ),
        (moment_after(&rt, 0), u32::MAX, "2160-02-07T06:28:15Z"),
        (last, 3_600, "9999-12-30T22:00:00.999999999Z"),
        (
            last,
            3_601,
            "The value 9999-12-30T21:00:00.999999999Z is a malformed RFC3339 date",
        ),
    ] {
        expect_text(
            &rt,
            end_of(&rt, rt.alloc(), now, seconds).as_str(),
            expected,
        );
    }
}

// The lifetime counts as the claim `exp`: a second one is a key that was set again.
#[test]
fn a_lifetime_is_set_once(rt: HostRuntime) {
    let alloc = rt.alloc();
    let now = moment_after(&rt, 0);
    let mut builder = Builder::try_default(alloc, now).expect(&rt, "a builder");
    builder
        .set_lifetime(60)
        .expect(&rt, "memory")
        .set_lifetime(61)
        .expect(&rt, "memory");
    let refused = builder.build(&mut Counting::new(), &symmetric_key::<V4>(&SECRET));
    expect_refusal(
        &rt,
        alloc,
        refused,
        "The claim 'exp' appears more than once in the top level payload json",
    );
    drop(builder);
}
