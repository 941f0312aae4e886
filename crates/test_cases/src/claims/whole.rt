//! Which values have whole numbers of 64 bits alone.

use crate::claims::json::value_of;
use crate::expect::expect_same;
use rusty_paseto_claims::{is_whole, odd_key};

// A value as JSON, and the key of its first part that has another number, where there is one.
const ROWS: &[(&str, Option<&str>)] = &[
    ("0", None),
    ("5", None),
    ("18446744073709551615", None),
    ("-9223372036854775808", None),
    ("null", None),
    ("true", None),
    ("\"1.5\"", None),
    ("[]", None),
    ("{}", None),
    ("[1,[2,{\"a\":-3}]]", None),
    ("{\"1.5\":{\"b\":[1]}}", None),
    ("18446744073709551616", Some("")),
    ("-9223372036854775809", Some("")),
    ("1e2", Some("")),
    ("1.0", Some("")),
    ("3.5", Some("")),
    ("[1,[2,{\"a\":3.5}]]", Some("")),
    ("{\"n\":18446744073709551616}", Some("n")),
    ("{\"n\":1e2}", Some("n")),
    ("{\"n\":[{\"m\":1.0}]}", Some("n")),
    ("{\"a\":1,\"pi\":3.5}", Some("pi")),
    ("{\"c\":1.5,\"b\":2.5,\"a\":3}", Some("b")),
    ("{\"\":1.5,\"a\":2.5}", Some("")),
    ("{\"a\":{\"b\":[0.5]},\"B\":0.5}", Some("B")),
];

#[test]
fn values(rt: HostRuntime) {
    'rows: for &(text, key) in ROWS {
        let value = value_of(&rt, rt.alloc(), text);
        expect_same(&rt, &is_whole(&value), &key.is_none(), &text);
        expect_same(&rt, &odd_key(&value), &key, &text);
        drop(value);
    }
}
