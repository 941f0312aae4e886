//! The versions whose local tokens need no box from the caller, and those with implicit assertions.

use rusty_paseto_core::AssertionVersion;
use rusty_paseto_generic::{GenericLocalVersion, V1, V3, V4};

/// A version whose local tokens need no sealed box from the caller: 1, 3 and 4. It requires no more than
/// `GenericLocalVersion`. It exists because the methods of version 2, which take a box, have the same names: the
/// compiler tells two `impl` blocks apart only by a trait of the crate that they are in.
pub trait DefaultLocalVersion: GenericLocalVersion {}

impl DefaultLocalVersion for V1 {}

impl DefaultLocalVersion for V3 {}

impl DefaultLocalVersion for V4 {}

/// A version among these with implicit assertions: 3 and 4.
pub trait DefaultAssertionVersion: DefaultLocalVersion + AssertionVersion {}

impl DefaultAssertionVersion for V3 {}

impl DefaultAssertionVersion for V4 {}
