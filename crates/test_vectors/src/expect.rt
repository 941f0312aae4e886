//! What tests expect of an answer, so that a test has one call for it.

use std::alloc::Global;
use std::fmt::{Debug, Display};
use std::process::Abort;

/// The fact holds. What it is about is told where it does not.
pub(crate) fn expect_that<T: Debug + Copy>(rt: &impl Abort, holds: bool, told: T) {
    assert!(rt; holds, "{told:?}");
}

/// What was found is what was wanted. What it is about is told where it is not.
pub(crate) fn expect_same<V: PartialEq + Debug + Copy, T: Debug + Copy>(
    rt: &impl Abort,
    found: V,
    wanted: V,
    told: T,
) {
    assert_eq!(rt; found, wanted, "{told:?}");
}

/// The text is the wanted one.
pub(crate) fn expect_text(rt: &impl Abort, found: &str, wanted: &str) {
    assert_eq!(rt; found, wanted);
}

/// The bytes are the wanted ones.
pub(crate) fn expect_bytes(rt: &impl Abort, found: &[u8], wanted: &[u8]) {
    assert_eq!(rt; found, wanted);
}

/// The bytes are those that the digits spell.
pub(crate) fn expect_digits(rt: &impl Abort, alloc: Global, found: &[u8], digits: &str) {
    let wanted = hex::decode(alloc, digits).expect(rt, "hexadecimal digits");
    expect_bytes(rt, found, wanted.as_slice());
}

/// What a value shows.
pub(crate) fn shown<D: Display>(rt: &impl Abort, alloc: Global, value: &D) -> String {
    value.to_string(alloc).expect(rt, "memory")
}

/// What a value shows is the wanted text.
pub(crate) fn expect_shown<D: Display>(rt: &impl Abort, alloc: Global, value: &D, wanted: &str) {
    expect_text(rt, shown(rt, alloc, value).as_str(), wanted);
}
