//! Of `GenericParserError::cause`.

use rusty_paseto_generic::{GenericParserError, PasetoError};

/// Whether the token has another footer than the parser, so that another parser may take it.
pub fn has_another_footer(error: &GenericParserError) -> bool {
    matches!(error.cause(), Some(PasetoError::FooterInvalid))
}
