//! The forms in which keys are written.

ghost use Rattle.std.specs.Prelude.{◌≡◌, IfErr, IfOk, None, Some, option_map, string_bytes};
ghost use Rattle.paseto_keys.specs.AnyKey.{parts_of};
ghost use Rattle.paseto_keys.specs.WrittenLine.{WritesIn};
ghost use Rattle.paseto_tasks.specs.Error.{IsMemory};
ghost use Rattle.paseto.specs.Forms.{HasNoForm, IsEnded, IsEndedIn, IsFormed, IsLocked, IsNotLocked, IsTextIn, format_in, new_cost};
ghost use Rattle.paseto.specs.Keys.{IsKeyFault};

use crate::fault::Fault;
use paseto_key_files::KeyFileError;
use paseto_keys::AnyKey;
use paseto_tasks::{Format, ProgramError, UsageError, with_line_feed};
use paseto_wrapping::PasswordCost;
use rand_core::TryRng;
use std::alloc::Global;

/// The format that an argument names, or PASERK if there is none.
pub fn format_of(word: Option<&str>) -> Result<Format, ProgramError>
    ensures found { IfOk result (λ format.
        format_in (option_map (λ text. text.now) word.entry) ≡ Some format) }
    ensures none { IfErr result (λ error. (error ≡ ProgramError.Usage UsageError.NoFormat)
        × (format_in (option_map (λ text. text.now) word.entry) ≡ None)) }
{
    match word {
        None => Ok(Format::Paserk),
        Some(word) => match Format::parse(word) {
            Some(format) => Ok(format),
            None => Err(ProgramError::Usage(UsageError::NoFormat)),
        },
    }
}

/// The text of a key in a format, with a line feed at its end.
pub fn formed<'a>(
    alloc: Global,
    name: &'a str,
    key: &AnyKey,
    format: Format,
) -> Result<String, Fault<'a>>
    ensures formed { IfOk result (λ text. IsFormed format (parts_of key.now) (string_bytes text)) }
    ensures refused { IfErr result (IsKeyFault name.now (HasNoForm format (parts_of key.now))) }
{
    match text_in(alloc, key, format) {
        Ok(text) => Ok(in_format(text, format)?),
        Err(error) => Err(Fault::about(name, ProgramError::from(error))),
    }
}

/// The line of a key, or its PEM.
fn text_in(alloc: Global, key: &AnyKey, format: Format) -> Result<String, KeyFileError>
    ensures { WritesIn (IsTextIn format (parts_of key.now)) (HasNoForm format (parts_of key.now))
        result }
{
    match format {
        Format::Paserk => key.to_line(alloc),
        Format::Pem => key.to_pem(alloc),
    }
}

/// A line with a line feed behind it, or PEM as it is.
fn in_format(text: String, format: Format) -> Result<String, ProgramError>
    ensures made { IfOk result (λ made. IsEndedIn format (string_bytes text) (string_bytes made)) }
    ensures memory { IfErr result IsMemory }
{
    match format {
        Format::Paserk => ended(text),
        Format::Pem => Ok(text),
    }
}

/// A line, and a line feed behind it if it does not end in one.
fn ended(line: String) -> Result<String, ProgramError>
    ensures ended { IfOk result (λ text. IsEnded (string_bytes line) (string_bytes text)) }
    ensures memory { IfErr result IsMemory }
{
    let mut text = line;
    if !text.ends_with('\n') {
        text.push('\n')?;
    }
    Ok(text)
}

/// The text of a key under a password, with a line feed, at the cost of new ones.
pub fn locked<'a, G: TryRng>(
    alloc: Global,
    name: &'a str,
    key: &AnyKey,
    password: &[u8],
    generator: &mut G,
) -> Result<String, Fault<'a>>
    ensures locked { IfOk result (λ text. IsLocked password.now
        (λ drawn. G.may_fill generator.old drawn generator.new) (parts_of key.now)
        (string_bytes text)) }
    ensures refused { IfErr result (IsKeyFault name.now
        (IsNotLocked password.now G.Error (parts_of key.now))) }
{
    match key.protect(alloc, password, cost(), generator) {
        Ok(text) => Ok(with_line_feed(text)?),
        Err(error) => Err(Fault::about(name, ProgramError::from(error))),
    }
}

/// The cost of new texts under a password.
fn cost() -> PasswordCost
    ensures { result ≡ new_cost }
{
    PasswordCost::default()
}
