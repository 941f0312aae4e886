//! How many bytes a token may have that a ring reads, and its footer.

ghost use Rattle.std.specs.Prelude.{◌≡◌};
ghost use Rattle.rusty_paseto.specs.KeyRing.{is_too_long, no_limits};

use rusty_paseto_parts::{has_longer_footer, is_longer};

/// The most bytes of a token, and of its footer, if there are limits.
#[derive(Clone, Copy)]
pub(crate) struct Limits {
    pub(crate) token: Option<usize>,
    pub(crate) footer: Option<usize>,
}

impl Limits {
    /// No limits.
    pub(crate) fn none() -> Limits
        ensures { result ≡ no_limits }
    {
        Limits {
            token: None,
            footer: None,
        }
    }

    /// Whether a token is beyond the limits, or beyond that of a parser.
    pub(crate) fn are_exceeded(&self, token: &str, longest: Option<usize>) -> bool
        ensures { result ≡ is_too_long longest self.now token.now }
    {
        is_longer(token, longest)
            || is_longer(token, self.token)
            || has_longer_footer(token, self.footer)
    }
}
