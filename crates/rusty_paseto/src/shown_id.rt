//! A key id as an error shows it.

use std::fmt;

/// Shows a key id on one line. The id may be anybody's text, so that each character that is not printable, as a line
/// feed or another control, is escaped as in a Rust literal. All other characters are shown as they are, including
/// quotes.
#[derive(Clone, Copy)]
pub(crate) struct ShownId<'a>(pub(crate) &'a str);

impl fmt::Display for ShownId<'_> {
    fn fmt<W: fmt::Write>(&self, f: &mut fmt::Formatter<W>) -> fmt::Result {
        for character in self.0.chars() {
            show(character, f)?;
        }
        Ok(())
    }
}

fn show<W: fmt::Write>(character: char, f: &mut fmt::Formatter<W>) -> fmt::Result {
    match character {
        // (printable, though a literal would escape them)
        '\'' | '"' | '\\' => write!(f, "{character}"),
        _ => write!(f, "{}", character.escape_debug()),
    }
}
