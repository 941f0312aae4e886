//! Payloads, checks and answers, over all kinds.

use crate::kinds::{Binding, KINDS};
use crate::parsers::kinds::Expected;
use crate::parsers::steps::{Rule, Step};
use std::alloc::Global;
use std::process::Abort;

// A payload, its checks, and what the answer tells: the payload's value as JSON, or the text of an error.
#[derive(Clone, Copy)]
struct Row {
    payload: &'static str,
    steps: &'static [Step<'static>],
    told: &'static str,
}

const NOT_CONVERTED_A: &str = "Could not convert claim 'a' to the expected data type";

const NOT_CONVERTED_N: &str = "Could not convert claim 'n' to the expected data type";

const ROWS: &[Row] = &[
    // The first key that fails is told.
    Row {
        payload: "{\"a\":1,\"b\":2}",
        steps: &[Step::Check("b", "3"), Step::Check("a", "9")],
        told: NOT_CONVERTED_A,
    },
    Row {
        payload: "{\"a\":1,\"b\":2}",
        steps: &[Step::Check("b", "2"), Step::Check("a", "1")],
        told: "{\"a\":1,\"b\":2}",
    },
    // A validator is handed the value that the payload has, or null where it has none.
    Row {
        payload: "{}",
        steps: &[Step::CheckerKey("z", Rule::RefusesNull)],
        told: "The claim 'z' failed custom validation",
    },
    Row {
        payload: "{\"z\":1}",
        steps: &[Step::CheckerKey("z", Rule::RefusesNull)],
        told: "{\"z\":1}",
    },
    Row {
        payload: "{\"seats\":4}",
        steps: &[Step::CheckerKey("seats", Rule::Tells)],
        told: "The claim 'seats' failed validation.  Expected '' but received '4'",
    },
    Row {
        payload: "{\"seats\":0,\"row\":4}",
        steps: &[Step::CheckerKey("seats", Rule::Tells)],
        told: "The claim 'seats' failed validation.  Expected '' but received '0'",
    },
    Row {
        payload: "{\"seats\":-9223372036854775808}",
        steps: &[Step::CheckerKey("seats", Rule::Tells)],
        told: "The claim 'seats' failed validation.  Expected '' but received '-9223372036854775808'",
    },
    Row {
        payload: "{\"seats\":18446744073709551615}",
        steps: &[Step::CheckerKey("seats", Rule::Tells)],
        told: "The claim 'seats' failed validation.  Expected '' but received '18446744073709551615'",
    },
    Row {
        payload: "{\"row\":4}",
        steps: &[Step::CheckerKey("seats", Rule::Tells)],
        told: "The claim 'seats' failed validation.  Expected '' but received 'null'",
    },
    // A validator checks alone.
    Row {
        payload: "{\"seats\":4}",
        steps: &[Step::Checker("seats", "5", Rule::Accepts)],
        told: "{\"seats\":4}",
    },
    Row {
        payload: "{\"seats\":4}",
        steps: &[
            Step::Check("seats", "5"),
            Step::CheckerKey("seats", Rule::Accepts),
        ],
        told: "{\"seats\":4}",
    },
    Row {
        payload: "{\"seats\":4}",
        steps: &[
            Step::CheckerKey("seats", Rule::Accepts),
            Step::Check("seats", "5"),
        ],
        told: "{\"seats\":4}",
    },
    // Missing and other values.
    Row {
        payload: "[1]",
        steps: &[Step::Audience("x")],
        told: "The expected claim 'aud' was not found in the payload",
    },
    Row {
        payload: "{}",
        steps: &[Step::Audience("x")],
        told: "The expected claim 'aud' was not found in the payload",
    },
    Row {
        payload: "{\"aud\":null}",
        steps: &[Step::Audience("x")],
        told: "The expected claim 'aud' was not found in the payload",
    },
    Row {
        payload: "[1]",
        steps: &[],
        told: "[1]",
    },
    Row {
        payload: "{\"aud\":\"customers\"}",
        steps: &[Step::Audience("not the same customers")],
        told: "The claim 'aud' failed validation.  Expected 'customers' but received 'not the same customers'",
    },
    Row {
        payload: "{\"a\":4}",
        steps: &[Step::Check("a", "5")],
        told: NOT_CONVERTED_A,
    },
    Row {
        payload: "{\"a\":4}",
        steps: &[Step::Expected("a", "5")],
        told: NOT_CONVERTED_A,
    },
    Row {
        payload: "{\"a\":4}",
        steps: &[Step::Check("a", "5"), Step::Expected("a", "4")],
        told: "{\"a\":4}",
    },
    // Values are compared as trees.
    Row {
        payload: "{\"o\":{\"b\":1,\"a\":2}}",
        steps: &[Step::Check("o", "{\"a\":2,\"b\":1}")],
        told: "{\"o\":{\"a\":2,\"b\":1}}",
    },
    // Values are stored as they are.
    Row {
        payload: "{\"aud\":\"customers\"}",
        steps: &[Step::Store("aud", "\"customers\"")],
        told: "Could not convert claim 'aud' to the expected data type",
    },
    Row {
        payload: "{\"aud\":\"customers\"}",
        steps: &[Step::Store("aud", "{\"aud\":\"customers\"}")],
        told: "{\"aud\":\"customers\"}",
    },
    // Numbers are whole, and of 64 bits.
    Row {
        payload: "{\"n\":18446744073709551615}",
        steps: &[],
        told: "{\"n\":18446744073709551615}",
    },
    Row {
        payload: "{\"n\":-9223372036854775808}",
        steps: &[],
        told: "{\"n\":-9223372036854775808}",
    },
    Row {
        payload: "{\"n\":18446744073709551616}",
        steps: &[],
        told: NOT_CONVERTED_N,
    },
    Row {
        payload: "{\"n\":18446744073709551616}",
        steps: &[Step::Audience("x")],
        told: NOT_CONVERTED_N,
    },
    Row {
        payload: "{\"n\":1e2}",
        steps: &[],
        told: NOT_CONVERTED_N,
    },
    Row {
        payload: "{\"n\":1e2}",
        steps: &[Step::Audience("x")],
        told: NOT_CONVERTED_N,
    },
    Row {
        payload: "{\"n\":[{\"m\":1.0}]}",
        steps: &[],
        told: NOT_CONVERTED_N,
    },
    Row {
        payload: "{\"n\":[{\"m\":1.0}]}",
        steps: &[Step::Audience("x")],
        told: NOT_CONVERTED_N,
    },
    Row {
        payload: "{\"a\":1,\"pi\":3.5}",
        steps: &[],
        told: "Could not convert claim 'pi' to the expected data type",
    },
    Row {
        payload: "3.5",
        steps: &[],
        told: "Could not convert claim '' to the expected data type",
    },
    Row {
        payload: "5",
        steps: &[],
        told: "5",
    },
    // A payload that is no JSON.
    Row {
        payload: "{\"exp\":",
        steps: &[],
        told: "The payload was unable to be serialized into json",
    },
];

fn check(rt: &impl Abort, alloc: Global, row: Row) {
    let expected = Expected::checks(row.steps);
    'kinds: for &kind in KINDS {
        kind.check(rt, alloc, row.payload, Binding::NONE, expected, row.told);
    }
}

#[test]
fn answers(rt: HostRuntime) {
    'rows: for row in ROWS {
        check(&rt, rt.alloc(), *row);
    }
}
