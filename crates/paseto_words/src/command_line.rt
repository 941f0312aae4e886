//! What the arguments request, or why they are refused.

ghost use Rattle.std.specs.Prelude.{◌≡◌, IfErr, IfOk, Some, [], ◌∷◌};
ghost use Rattle.clap.specs.Words.{HasKind, fault_of, kind_of, subcommand_rows_of};
ghost use Rattle.paseto_words.specs.Action.{plain};
ghost use Rattle.paseto_words.specs.App.{paseto_app};
ghost use Rattle.paseto_words.specs.CommandLine.{IsFoundIn, asked, faults, own_faults, status_of, words_of};
ghost use Rattle.paseto_words.specs.Reading.{found_in};

use crate::action::Action;
use crate::app::{
    Conflict, TWO_FOOTERS_TO_CHECK, TWO_FOOTERS_TO_ISSUE, TWO_KEYS, TWO_KEYS_TO_DECRYPT,
    TWO_KEYS_TO_ISSUE, TWO_KEYS_TO_VERIFY, TWO_LOCKS, paseto,
};
use crate::reading::{found, has};
use clap::error::ErrorKind;
use clap::{ArgMatches, Error};
use std::alloc::Global;

/// Parses the arguments, the first of which is the program's name.
///
/// Arguments that clap refuses are returned with clap's kinds of error; these include requests for
/// help or the version. Two options that exclude each other are refused with `ArgumentConflict`:
/// `--key` and `--ring`, `--footer` and `--footer-kid`, and for `wrap` `--wrapping-key` and
/// `--password-file`. A failed allocation is `OutOfMemory`.
pub fn parse<'a>(alloc: Global, words: &'a [String]) -> Result<Action<'a>, Error>
    ensures ok { IfOk result (λ action. asked (words_of words.entry.now) ≡ Some (plain action)) }
    ensures err { IfErr result (HasKind (faults (words_of words.entry.now))) }
{
    let matches = matches_of(alloc, words)?;
    action_of(alloc, &matches)
}

/// What clap finds in the arguments.
fn matches_of<'a>(alloc: Global, words: &'a [String]) -> Result<ArgMatches<'a>, Error>
    ensures ok { IfOk result (IsFoundIn paseto_app (words_of words.entry.now)) }
    ensures err { IfErr result (HasKind (fault_of paseto_app (words_of words.entry.now))) }
{
    let mut command = paseto(alloc)?;
    command.try_get_matches_from_mut(words)
}

/// What the matches request, or the error for options that exclude each other.
fn action_of<'a>(alloc: Global, matches: &ArgMatches<'a>) -> Result<Action<'a>, Error>
    ensures ok { IfOk result (λ action. found_in (subcommand_rows_of matches.now)
        ≡ Some (plain action)) }
    ensures err { IfErr result (HasKind (own_faults (subcommand_rows_of matches.now))) }
{
    match found(alloc, matches)? {
        Some(action) => Ok(action),
        None => Err(refused(alloc, matches)),
    }
}

/// The error for options that exclude each other, with the usage of their command.
fn refused(alloc: Global, matches: &ArgMatches<'_>) -> Error
    ensures { HasKind (ErrorKind.ArgumentConflict ∷ []) result }
{
    match conflict_in(matches).error(alloc) {
        Ok(error) => error,
        Err(error) => Error::from(error),
    }
}

fn conflict_in(matches: &ArgMatches<'_>) -> Conflict {
    match matches.subcommand() {
        Some(("check", inner)) if has(inner, "key") && has(inner, "ring") => TWO_KEYS,
        Some(("check", _)) => TWO_FOOTERS_TO_CHECK,
        Some(("issue", inner)) if has(inner, "key") && has(inner, "ring") => TWO_KEYS_TO_ISSUE,
        Some(("decrypt", _)) => TWO_KEYS_TO_DECRYPT,
        Some(("verify", _)) => TWO_KEYS_TO_VERIFY,
        Some(("wrap", _)) => TWO_LOCKS,
        _ => TWO_FOOTERS_TO_ISSUE,
    }
}

/// The status of a program that performs no action: 4 if an allocation failed, 0 if help or the
/// version was requested, and 2 if the arguments were refused.
pub fn status(error: &Error) -> u8
    ensures { result ≡ status_of (kind_of error.now) }
{
    match error.kind() {
        ErrorKind::OutOfMemory => 4,
        ErrorKind::DisplayHelp | ErrorKind::DisplayVersion => 0,
        _ => 2,
    }
}
