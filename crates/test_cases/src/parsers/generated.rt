//! Many payloads, which come back as the values that they are.

use crate::builders::maps::Numbers;
use crate::expect::shown;
use crate::kinds::{Binding, KINDS};
use crate::parsers::kinds::Expected;
use std::alloc::Global;
use std::process::Abort;

// JSON as it is spelled, and as its value is written.
#[derive(Drop)]
struct Spelled {
    text: String,
    written: String,
}

// Values that hold no others: how they are spelled, and how they are written. The numbers stand at the borders
// of 64 bits.
const LEAVES: &[(&str, &str); 29] = &[
    ("null", "null"),
    ("true", "true"),
    ("false", "false"),
    ("[]", "[]"),
    ("{}", "{}"),
    ("\"\"", "\"\""),
    ("\"customers\"", "\"customers\""),
    ("\"\\u00e9 \\\"\"", "\"\u{e9} \\\"\""),
    ("\"\\\\\\/\"", "\"\\\\/\""),
    ("\"\\b\\f\\n\\r\\t\"", "\"\\b\\f\\n\\r\\t\""),
    ("\"\\ud83d\\ude00\"", "\"\u{1f600}\""),
    ("\"\\u0000\"", "\"\\u0000\""),
    ("\"\u{e9}\u{1f600}\"", "\"\u{e9}\u{1f600}\""),
    ("-9223372036854775808", "-9223372036854775808"),
    ("-9223372036854775807", "-9223372036854775807"),
    ("-9223372036854775806", "-9223372036854775806"),
    ("-2", "-2"),
    ("-1", "-1"),
    ("0", "0"),
    ("1", "1"),
    ("2", "2"),
    ("9223372036854775805", "9223372036854775805"),
    ("9223372036854775806", "9223372036854775806"),
    ("9223372036854775807", "9223372036854775807"),
    ("9223372036854775808", "9223372036854775808"),
    ("9223372036854775809", "9223372036854775809"),
    ("18446744073709551613", "18446744073709551613"),
    ("18446744073709551614", "18446744073709551614"),
    ("18446744073709551615", "18446744073709551615"),
];

fn array_of(rt: &impl Abort, alloc: Global, leaf: (&str, &str), inner: &Spelled) -> Spelled {
    let (text, written) = leaf;
    Spelled {
        text: format!(in alloc; "[{text},{}]", inner.text).expect(rt, "memory"),
        written: format!(in alloc; "[{written},{}]", inner.written).expect(rt, "memory"),
    }
}

// The keys are spelled out of their order.
fn object_of(rt: &impl Abort, alloc: Global, leaf: (&str, &str), inner: &Spelled) -> Spelled {
    let (text, written) = leaf;
    Spelled {
        text: format!(in alloc; "{{\"\\u00e9\\\"\":{text},\"\":{}}}", inner.text).expect(
            rt, "memory",
        ),
        written: format!(in alloc; "{{\"\":{},\"\u{e9}\\\"\":{written}}}", inner.written).expect(
            rt, "memory",
        ),
    }
}

// A number in up to five arrays and objects, each with a leaf beside what it holds. The payloads of two
// numbers are different.
fn payload_of(rt: &impl Abort, alloc: Global, number: u64, numbers: &mut Numbers) -> Spelled {
    let mut payload = Spelled {
        text: shown(rt, alloc, &number),
        written: shown(rt, alloc, &number),
    };
    'levels: for _ in 0..numbers.next() % 6 {
        let leaf = LEAVES[(numbers.next() % 29) as usize];
        payload = if numbers.next() % 2 == 0 {
            array_of(rt, alloc, leaf, &payload)
        } else {
            object_of(rt, alloc, leaf, &payload)
        };
    }
    payload
}

// The payload comes back in the tokens of all kinds.
fn check(rt: &impl Abort, alloc: Global, payload: &Spelled) {
    let (text, written) = (payload.text.as_str(), payload.written.as_str());
    let expected = Expected::bound(Binding::NONE);
    'kinds: for &kind in KINDS {
        kind.check(rt, alloc, text, Binding::NONE, expected, written);
    }
}

#[test]
fn come_back(rt: HostRuntime) {
    let alloc = rt.alloc();
    let mut numbers = Numbers::of_seed(2);
    'payloads: for number in 0..650u64 {
        check(&rt, alloc, &payload_of(&rt, alloc, number, &mut numbers));
    }
}
