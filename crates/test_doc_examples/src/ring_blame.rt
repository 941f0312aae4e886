//! Of `KeyRingParserError::blame`.

use rusty_paseto::prelude::*;

/// The status that a service would answer over HTTP for a refused token.
pub fn status(refusal: &KeyRingParserError) -> u16 {
    match refusal.blame() {
        Blame::Foreign | Blame::Untimely => 401,
        Blame::Unfit => 403,
        Blame::Memory => 503,
    }
}
