//! Of `rusty_paseto_parts`.

use rusty_paseto_parts::{PasetoError, UntrustedToken};
use std::alloc::Global;

/// The footer of a token, as `{"kid":"2026-11"}`. Anybody can write one: it counts once the token is opened.
pub fn footer_of(alloc: Global, token: &str) -> Result<Option<String>, PasetoError> {
    UntrustedToken::try_parse(token)?.footer_str(alloc)
}
