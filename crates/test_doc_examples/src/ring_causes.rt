//! Of `KeyRingParserError::cause`.

use rusty_paseto::prelude::*;

/// Whether the token was changed, or was sealed with another key of this id or another assertion.
pub fn has_another_tag(error: &KeyRingParserError) -> bool {
    matches!(error.cause(), Some(PasetoError::Cryption))
}
