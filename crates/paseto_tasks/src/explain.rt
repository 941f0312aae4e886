//! The command `explain`: which issued token a token is, or that it is a forgery.

ghost use Rattle.std.specs.Prelude.{◌≡◌, ◌⊎◌, IfErr, IfOk, string_bytes};
ghost use Rattle.rusty_paseto_core.specs.Context.{footer_of};
ghost use Rattle.paseto_keys.specs.AnyKey.{parts_of};
ghost use Rattle.paseto_tasks.specs.Error.{Fails, nothing};
ghost use Rattle.paseto_tasks.specs.Explain.{Explains, RefusesShowing, forged_text, reader_type};

use crate::arguments::Options;
use crate::error::ProgramError;
use crate::shown::shown;
use crate::spelling::{first_spelling, issued_text, lines_of};
use crate::tokens::fits;
use paseto_keys::AnyKey;
use rusty_paseto_core::Footer;
use rusty_paseto_paserk::PaserkType;
use std::alloc::{AllocError, Global};

/// What a token is, with the lines that say so.
#[derive(Drop)]
pub enum Explanation {
    /// It was issued.
    Issued(String),
    /// It opens, and was not issued.
    Forged(String),
}

/// Looks for a token in the lines of the issued ones. Where it is in none, it is a forgery, which shows what its tag or its
/// signature covers, and that.
///
/// A token that does not open under the key is refused as `decrypt` refuses it, and one that does not verify as `verify`
/// does, wherever it is.
pub fn explain(
    alloc: Global,
    key: &AnyKey,
    options: &Options<'_>,
    issued: &str,
    token: &str,
) -> Result<Explanation, ProgramError>
    ensures told { IfOk result (Explains (parts_of key.now) options.now issued.now token.now) }
    ensures refused { IfErr result (λ error. RefusesShowing (parts_of key.now) options.now token.now error
        ⊎ Fails nothing error) }
{
    fits(key, reader_type(key.kind()), options)?;
    let shown = shown(alloc, key, options, token)?;
    let lines = lines_of(alloc, issued)?;
    match first_spelling(&lines, token, footer_text(options.footer)) {
        Some((place, spelling)) => Ok(Explanation::Issued(issued_text(alloc, place, spelling)?)),
        None => Ok(Explanation::Forged(forged_text(alloc, shown.as_str())?)),
    }
}

/// The type of the keys that are taken. A private key reads no token: a public one is needed in its place.
fn reader_type(kind: PaserkType) -> PaserkType
    ensures { result ≡ reader_type kind }
{
    match kind {
        PaserkType::Local => PaserkType::Local,
        PaserkType::Secret | PaserkType::Public => PaserkType::Public,
    }
}

/// The text of a footer. That of none is empty.
fn footer_text<'a>(footer: Option<Footer<'a>>) -> &'a str
    ensures { result.now ≡ footer_of footer.entry }
{
    match footer {
        Some(footer) => footer.as_str(),
        None => "",
    }
}

/// What is printed of a token that was not issued, with what it shows.
fn forged_text(alloc: Global, shown: &str) -> Result<String, AllocError>
    ensures { IfOk result (λ text. string_bytes text ≡ forged_text shown.now) }
{
    format!(in alloc; "forged: in no line of the file\n{shown}")
}
