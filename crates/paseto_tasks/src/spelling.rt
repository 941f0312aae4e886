//! The line of a file that a token is, and how its spelling differs.

ghost use Rattle.std.specs.Prelude.{◌≡◌, ◌↔◌, ◌++◌, ◌∷◌, [], ◌+◌, ◌<◌, ◌^◌, All, IfOk, IfSome, IsTrue, None, MatchOption, string_bytes};
ghost use Rattle.std.specs.Str.Lines.{lines};
ghost use Rattle.paseto_tasks.specs.Arguments.{texts};
ghost use Rattle.paseto_tasks.specs.Spelling.{IsFirst, IsNoSpelling, IsSpelled, issued_text, spelling_text};

use crate::front::after;
use std::alloc::{AllocError, Global};

/// How a token is spelled, beside the line that it is.
#[derive(Clone, Copy)]
pub enum Spelling {
    /// As the line.
    Same,
    /// With the dot before an empty footer, which the line lacks.
    Dotted,
    /// Without the dot before an empty footer, which the line has.
    Undotted,
}

impl Spelling {
    /// What is printed of it.
    fn text(self) -> &'static str
        ensures { result.now ≡ spelling_text self }
    {
        match self {
            Spelling::Same => "the same",
            Spelling::Dotted => "with a dot at the end, which the line lacks",
            Spelling::Undotted => "without the dot at the end of the line",
        }
    }
}

/// The lines of a text, without their line feeds and the carriage returns before these.
pub fn lines_of(alloc: Global, text: &str) -> Result<Vec<&str>, AllocError>
    ensures { IfOk result (λ found. texts found.items ≡ lines text.now) }
{
    text.lines().collect(alloc)
}

/// The first of the lines that is the token, by its position from 0, and how the token is spelled.
pub fn first_spelling(lines: &[&str], token: &str, footer: &str) -> Option<(usize, Spelling)>
    ensures first { IfSome result (λ found.
        IsFirst footer.now token.now (texts lines.now) found.0 found.1) }
    ensures room { IfSome result (λ found. found.0 + 1 < 2 ^ 64) }
    ensures none { result ≡ None → All (IsNoSpelling footer.now token.now) (texts lines.now) }
{
    'each: for index in 0..lines.len() {
        if let Some(spelling) = spelling_of(lines[index], token, footer) {
            return Some((index, spelling));
        }
    }
    None
}

/// How a token is spelled, if the line is it: both are one text, up to the dot before an empty footer.
fn spelling_of(line: &str, token: &str, footer: &str) -> Option<Spelling>
    ensures { MatchOption result (IsNoSpelling footer.now token.now line.now)
        (IsSpelled footer.now token.now line.now) }
{
    if line == token {
        Some(Spelling::Same)
    } else if !footer.is_empty() {
        None
    } else if is_with_dot(token, line) {
        Some(Spelling::Dotted)
    } else if is_with_dot(line, token) {
        Some(Spelling::Undotted)
    } else {
        None
    }
}

/// Whether the first text is the second and a dot.
fn is_with_dot(text: &str, bare: &str) -> bool
    ensures { IsTrue result ↔ (text.now ≡ bare.now ++ (46 ∷ [])) }
{
    match after(text, bare) {
        Some(rest) => rest == ".",
        None => false,
    }
}

/// What is printed of a token that was issued, in the line at a position from 0.
pub fn issued_text(alloc: Global, index: usize, spelling: Spelling) -> Result<String, AllocError>
    requires { index + 1 < 2 ^ 64 }
    ensures { IfOk result (λ text. string_bytes text ≡ issued_text index spelling) }
{
    format!(in alloc;
        "issued: line {}\nspelling: {}\n",
        index + 1,
        spelling.text()
    )
}
