//! An error together with its cause.

ghost use Rattle.std.specs.Prelude.{◌≡◌, option_map};
ghost use Rattle.rusty_paseto_generic.specs.Explained.{explained_text};

use rusty_paseto_core::PasetoError;
use std::fmt;

/// Displays an error and, after a colon, its cause if it has one: one line, without a line end. `explained` of the
/// errors of builders and parsers makes it.
#[derive(Clone, Copy)]
pub struct Explained<'a, E> {
    error: &'a E,
    cause: Option<&'a PasetoError>,
}

impl<'a, E> Explained<'a, E> {
    pub(crate) fn new(error: &'a E, cause: Option<&'a PasetoError>) -> Self
        ensures error { result.error.now ≡ error.now }
        ensures cause { result.cause ≡ cause.entry }
    {
        Explained { error, cause }
    }
}

impl<E: fmt::Display> fmt::Display for Explained<'_, E> {
    ghost output = { λ shown. explained_text (E.output shown.error.now) (option_map (λ cause. cause.now) shown.cause) };

    fn fmt<W: fmt::Write>(&self, f: &mut fmt::Formatter<W>) -> fmt::Result {
        match self.cause {
            Some(cause) => write!(f, "{}: {}", self.error, cause),
            None => write!(f, "{}", self.error),
        }
    }
}
