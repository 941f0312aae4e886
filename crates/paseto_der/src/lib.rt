//! DER, the distinguished encoding of ASN.1 (X.690), as far as keys need it: elements whose lengths are in the fewest
//! octets. No other encoding is read.
//!
//! ```rust
//! use paseto_der::read_element;
//!
//! /// The contents of a SEQUENCE with nothing behind it.
//! pub fn sequence(octets: &[u8]) -> Option<&[u8]> {
//!     let element = read_element(0x30, octets)?;
//!     element.behind.is_empty().then_some(element.contents)
//! }
//! ```
#![tactic(auto)]

mod element;

pub use element::{Element, read_element};
