//! Of `set_longest` of a parser.

use rusty_paseto_generic::{GenericParser, Local, PasetoError, PasetoSymmetricKey, V4};
use std::alloc::Global;

/// Whether a token has more than 64 KiB, so that it was not read.
pub fn is_too_long(alloc: Global, token: &str, key: &PasetoSymmetricKey<V4, Local>) -> bool {
    let mut parser = GenericParser::<V4, Local>::new(alloc);
    parser.set_longest(65_536);
    match parser.parse(token, key) {
        Err(refusal) => matches!(refusal.cause(), Some(PasetoError::TooLong)),
        Ok(_) => false,
    }
}
