//! Base64 (RFC 4648, sections 4 and 5) of secrets, by arithmetic on each character: no address and no branch depends on
//! a byte, or on a character but the padding. What is written is what the crate `base64` writes, and nothing else is read.
#![tactic(auto)]

mod alphabet;
mod comparing;
mod decoding;
mod encoding;
mod masks;

pub use alphabet::Alphabet;
pub use decoding::decode;
pub use encoding::{encode, encode_string};
