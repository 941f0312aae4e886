//! What tests expect of an answer, so that a test has one call for it.

use std::alloc::Global;
use std::fmt::{Debug, Display};
use std::process::Abort;

/// The fact holds. What it is about is told where it does not.
pub(crate) fn expect_that<T: Debug + Copy>(rt: &impl Abort, holds: bool, told: T) {
    assert!(rt; holds, "{told:?}");
}

/// What was found is what was wanted. What it is about is told where it is not.
pub(crate) fn expect_same<V: PartialEq + Debug + Copy, T: Debug + Copy>(
    rt: &impl Abort,
    found: V,
    wanted: V,
    told: T,
) {
    assert_eq!(rt; found, wanted, "{told:?}");
}

/// The text is the wanted one.
pub(crate) fn expect_text(rt: &impl Abort, found: &str, wanted: &str) {
    assert_eq!(rt; found, wanted);
}

/// The bytes are the wanted ones.
pub(crate) fn expect_bytes(rt: &impl Abort, found: &[u8], wanted: &[u8]) {
    assert_eq!(rt; found, wanted);
}

/// What a value shows.
pub(crate) fn shown<D: Display>(rt: &impl Abort, alloc: Global, value: &D) -> String {
    value.to_string(alloc).expect(rt, "memory")
}

/// What a value shows is the wanted text.
pub(crate) fn expect_shown<D: Display>(rt: &impl Abort, alloc: Global, value: &D, wanted: &str) {
    expect_text(rt, shown(rt, alloc, value).as_str(), wanted);
}

/// What a call answered: `Ok`, or its error's `Debug` text.
pub(crate) fn outcome_of<T: Drop, E: Debug + Drop>(
    rt: &impl Abort,
    alloc: Global,
    answer: Result<T, E>,
) -> String {
    match answer {
        Ok(_) => String::from_str(alloc, "Ok").expect(rt, "memory"),
        Err(error) => format!(in alloc; "{error:?}").expect(rt, "memory"),
    }
}

/// A call answered so: `Ok`, or its error's `Debug` text. What it is about is told where it did not.
///
/// It takes the answer, since the drop of a nested error is dear to prove in each function that has one at its end.
pub(crate) fn expect_outcome<T: Drop, E: Debug + Drop, R: Debug + Copy>(
    rt: &impl Abort,
    alloc: Global,
    answer: Result<T, E>,
    wanted: &str,
    row: R,
) {
    let found = outcome_of(rt, alloc, answer);
    assert_eq!(rt; found.as_str(), wanted, "{row:?}");
}

/// An error is this one, by its `Debug` text.
pub(crate) fn expect_variant<E: Debug + Drop>(
    rt: &impl Abort,
    alloc: Global,
    error: E,
    wanted: &str,
) {
    let found = format!(in alloc; "{error:?}").expect(rt, "memory");
    expect_text(rt, found.as_str(), wanted);
}

/// An error is shown as this text.
pub(crate) fn expect_error<E: Display + Drop>(
    rt: &impl Abort,
    alloc: Global,
    error: E,
    wanted: &str,
) {
    expect_shown(rt, alloc, &error, wanted);
}

/// What an answer tells: its value's text, or its error's.
pub(crate) fn told<T: Display + Drop, E: Display + Drop>(
    rt: &impl Abort,
    alloc: Global,
    answer: Result<T, E>,
) -> String {
    match answer {
        Ok(value) => shown(rt, alloc, &value),
        Err(error) => shown(rt, alloc, &error),
    }
}

/// An answer tells this: its value's text, or its error's. What it is about is told where it does not.
pub(crate) fn expect_told<T: Display + Drop, E: Display + Drop, R: Debug + Copy>(
    rt: &impl Abort,
    alloc: Global,
    answer: Result<T, E>,
    wanted: &str,
    row: R,
) {
    let found = told(rt, alloc, answer);
    assert_eq!(rt; found.as_str(), wanted, "{row:?}");
}

/// What is wanted of a call that refuses nothing.
pub(crate) const OK: &str = "ok";

/// A call refused by an error of this text, or refused nothing where `OK` is wanted. What it is about is told where it
/// did otherwise.
pub(crate) fn expect_refusal_or_ok<T: Drop, E: Display + Drop, R: Debug + Copy>(
    rt: &impl Abort,
    alloc: Global,
    answer: Result<T, E>,
    wanted: &str,
    row: R,
) {
    let found = match answer {
        Ok(_) => String::from_str(alloc, OK).expect(rt, "memory"),
        Err(error) => shown(rt, alloc, &error),
    };
    assert_eq!(rt; found.as_str(), wanted, "{row:?}");
}

/// The text of the error that a call answered.
pub(crate) fn refusal_of<T: Drop, E: Display + Drop>(
    rt: &impl Abort,
    alloc: Global,
    answer: Result<T, E>,
) -> String {
    match answer {
        Ok(_) => panic!(rt; "nothing was refused"),
        Err(error) => shown(rt, alloc, &error),
    }
}

/// A call refused, by an error of this text.
pub(crate) fn expect_refusal<T: Drop, E: Display + Drop>(
    rt: &impl Abort,
    alloc: Global,
    answer: Result<T, E>,
    wanted: &str,
) {
    expect_text(rt, refusal_of(rt, alloc, answer).as_str(), wanted);
}
