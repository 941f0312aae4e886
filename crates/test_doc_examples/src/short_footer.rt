//! Of `UntrustedToken::try_parse_within`.

use rusty_paseto_parts::{PasetoError, UntrustedToken};
use std::alloc::Global;

/// The footer of a token, of which no more than 4,096 bytes are read.
pub fn short_footer(alloc: Global, token: &str) -> Result<Option<String>, PasetoError> {
    UntrustedToken::try_parse_within(token, 4_096)?.footer_str(alloc)
}
