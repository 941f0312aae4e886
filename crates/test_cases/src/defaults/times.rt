//! The times of a token, which a default builder writes and a default parser checks, over all kinds.

use crate::defaults::claims::Claim;
use crate::defaults::rows::{NONE, Row, USUAL, check_rows};

const HOUR: i128 = 3_600_000_000_000;

const EXPIRED: &str = "This token is expired";

const PAST: Claim<'static> = Claim::Expiration("2023-12-31T23:50:00Z");

// A token of the usual claims, a nanosecond after its first moment of use.
const BUILT: Row = Row {
    payload: None,
    claims: NONE,
    footers: (None, None),
    after: 1,
    checks: NONE,
    answer: USUAL,
};

const BUILT_ROWS: &[Row] = &[
    Row {
        after: 0,
        answer: "The token cannot be used before 2024-01-01T00:00:00Z",
        ..BUILT
    },
    BUILT,
    Row {
        after: HOUR - 1,
        ..BUILT
    },
    Row {
        after: HOUR,
        answer: EXPIRED,
        ..BUILT
    },
    Row {
        claims: &[PAST],
        answer: EXPIRED,
        ..BUILT
    },
    Row {
        claims: &[PAST, Claim::NoExpiration],
        answer: "{\"iat\":\"2024-01-01T00:00:00Z\",\"nbf\":\"2024-01-01T00:00:00Z\"}",
        ..BUILT
    },
    Row {
        claims: &[Claim::NotBefore("2024-01-01T01:00:00Z")],
        answer: "The token cannot be used before 2024-01-01T01:00:00Z",
        ..BUILT
    },
    Row {
        claims: &[Claim::IssuedAt("2024-01-02T00:00:00Z")],
        answer: "{\"exp\":\"2024-01-01T01:00:00Z\",\"iat\":\"2024-01-02T00:00:00Z\",\
            \"nbf\":\"2024-01-01T00:00:00Z\"}",
        ..BUILT
    },
];

// A payload that is parsed at the first of 2024.
const PARSED: Row = Row { after: 0, ..BUILT };

const EXPIRATIONS: &[Row] = &[
    Row {
        payload: Some("{\"exp\":\"2024-01-01T00:00:00Z\"}"),
        answer: EXPIRED,
        ..PARSED
    },
    Row {
        payload: Some("{\"exp\":\"2024-01-01T01:00:00+01:00\"}"),
        answer: EXPIRED,
        ..PARSED
    },
    Row {
        payload: Some("{\"exp\":5}"),
        answer: "Could not convert claim 'exp' to the expected data type",
        ..PARSED
    },
    Row {
        payload: Some("{\"exp\":null}"),
        answer: "{\"exp\":null}",
        ..PARSED
    },
    Row {
        payload: Some("{}"),
        answer: "{}",
        ..PARSED
    },
    Row {
        payload: Some("{\"exp\":\"\"}"),
        answer: "The value  is a malformed RFC3339 date",
        ..PARSED
    },
    Row {
        payload: Some("{\"exp\":\"x\",\"nbf\":5}"),
        answer: "The value x is a malformed RFC3339 date",
        ..PARSED
    },
    Row {
        payload: Some("{\"exp\":\"2025-01-01T00:00:00Z\"}"),
        checks: &[Claim::Expiration("2030-01-01T00:00:00Z")],
        answer: "{\"exp\":\"2025-01-01T00:00:00Z\"}",
        ..PARSED
    },
];

const FIRST_MOMENTS_OF_USE: &[Row] = &[
    Row {
        payload: Some("{\"nbf\":[]}"),
        answer: "Could not convert claim 'nbf' to the expected data type",
        ..PARSED
    },
    Row {
        payload: Some("{\"nbf\":null}"),
        answer: "{\"nbf\":null}",
        ..PARSED
    },
    Row {
        payload: Some("{\"nbf\":\"2023-12-31T23:59:59.999999999Z\"}"),
        answer: "{\"nbf\":\"2023-12-31T23:59:59.999999999Z\"}",
        ..PARSED
    },
    Row {
        payload: Some("{\"nbf\":\"2024-01-01T01:00:00+01:00\"}"),
        answer: "The token cannot be used before 2024-01-01T01:00:00+01:00",
        ..PARSED
    },
];

const OTHER_PAYLOADS: &[Row] = &[
    Row {
        payload: Some("{\"a\":1,\"pi\":3.5}"),
        answer: "Could not convert claim 'pi' to the expected data type",
        ..PARSED
    },
    Row {
        payload: Some("3.5"),
        answer: "Could not convert claim '' to the expected data type",
        ..PARSED
    },
    Row {
        payload: Some("5"),
        answer: "5",
        ..PARSED
    },
    Row {
        payload: Some("{\"exp\":"),
        answer: "The payload was unable to be serialized into json",
        ..PARSED
    },
];

// From the first moment of use to the expiration.
#[test]
fn times_and_payloads(rt: HostRuntime) {
    'tables: for rows in [
        BUILT_ROWS,
        EXPIRATIONS,
        FIRST_MOMENTS_OF_USE,
        OTHER_PAYLOADS,
    ] {
        check_rows(&rt, rt.alloc(), rows);
    }
}
