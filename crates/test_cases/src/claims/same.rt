//! Which values are the same.

use crate::claims::json::value_of;
use crate::expect::expect_same;
use rusty_paseto_claims::same_value;

// Two values as JSON, and whether they are the same.
const ROWS: &[(&str, &str, bool)] = &[
    ("null", "null", true),
    ("true", "true", true),
    ("0", "0", true),
    ("-9223372036854775808", "-9223372036854775808", true),
    ("18446744073709551615", "18446744073709551615", true),
    ("\"a\"", "\"\\u0061\"", true),
    ("[1,[2],{}]", "[ 1, [ 2 ], { } ]", true),
    ("{\"a\":1,\"b\":2}", "{\"b\":2,\"a\":1}", true),
    ("{\"a\":1,\"a\":2}", "{\"a\":2}", true),
    (
        "{\"o\":{\"b\":[1,2],\"a\":null}}",
        "{\"o\":{\"a\":null,\"b\":[1,2]}}",
        true,
    ),
    ("null", "false", false),
    ("null", "0", false),
    ("true", "false", false),
    ("1", "2", false),
    ("1", "-1", false),
    ("1", "\"1\"", false),
    ("9223372036854775807", "9223372036854775808", false),
    ("-9223372036854775808", "9223372036854775808", false),
    ("\"a\"", "\"A\"", false),
    ("[]", "{}", false),
    ("[1,2]", "[2,1]", false),
    ("[1]", "[1,1]", false),
    ("{}", "{\"a\":null}", false),
    ("{\"a\":1}", "{\"b\":1}", false),
    ("{\"a\":1}", "{\"a\":1,\"b\":2}", false),
    ("{\"o\":{\"a\":[1]}}", "{\"o\":{\"a\":[2]}}", false),
    // A number that is not a whole one of 64 bits is the same as nothing.
    ("3.5", "3.5", false),
    ("1.0", "1", false),
    ("1e2", "100", false),
    ("18446744073709551616", "18446744073709551616", false),
    ("[1,2.5]", "[1,2.5]", false),
    ("{\"a\":0.5}", "{\"a\":0.5}", false),
];

#[test]
fn values(rt: HostRuntime) {
    let alloc = rt.alloc();
    'rows: for &(left, right, same) in ROWS {
        let first = value_of(&rt, alloc, left);
        let second = value_of(&rt, alloc, right);
        expect_same(&rt, &same_value(&first, &second), &same, &(left, right));
        expect_same(&rt, &same_value(&second, &first), &same, &(right, left));
        drop(second);
        drop(first);
    }
}
