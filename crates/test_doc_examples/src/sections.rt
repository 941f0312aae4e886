//! Of `UntrustedToken`.

use rusty_paseto_parts::{PasetoError, UntrustedToken};

/// Whether a token says that it is a local one of version 4.
pub fn is_v4_local(token: &str) -> Result<bool, PasetoError> {
    let untrusted = UntrustedToken::try_parse(token)?;
    Ok(untrusted.version() == "v4" && untrusted.purpose() == "local")
}
