//! The program `paseto` generates keys, issues and checks tokens of claims, and encrypts, decrypts,
//! signs and verifies texts.
#![tactic(auto)]

ghost use Rattle.std.specs.Prelude.{◌≡◌, MatchBool};
ghost use Rattle.paseto.specs.Main.{HoldsNoSecretKey, HoldsSecretKey, IsSecretKey, task_of};

mod commands;
mod explain;
mod fault;
mod files;
mod folder;
mod forms;
mod half;
mod keys;
mod locks;
mod named;
mod new_file;
mod new_key;
mod options;
mod texts;
mod tokens;
mod warning;

use clap::Error;
use fault::Fault;
use files::{input_of, name_of};
use keys::{key_name, key_of};
use options::longest_of;
use paseto_tasks::run::{run_id, run_inspect};
use paseto_tasks::{Names, ProgramError, SystemError, Task, UsageError};
use paseto_words::{Action, Inspect, KeyFile, parse, status};
use rusty_paseto_paserk::{PaserkType, header_of};
use std::env;
use std::process::ExitCode;

fn main(rt: HostRuntime) -> ExitCode {
    let status = match words(&rt) {
        Ok(words) => serve(&rt, &words),
        Err(error) => Fault::from(error).report(&rt),
    };
    ExitCode::from(status)
}

/// The arguments, the first of which is the program's name.
fn words(rt: &HostRuntime) -> Result<Vec<String>, ProgramError> {
    match env::args(rt) {
        Ok(words) => Ok(words.collect(rt.alloc())?),
        Err(error) => Err(ProgramError::of_words(&error)),
    }
}

/// Performs the requested action, and returns the status. No line repeats a key that is passed as
/// an argument by mistake.
fn serve(rt: &HostRuntime, words: &[String]) -> u8 {
    if words.iter().any(|word| is_secret(word.as_str())) {
        return Fault::from(ProgramError::Usage(UsageError::KeyWord)).report(rt);
    }
    match parse(rt.alloc(), words) {
        Ok(action) => match done(rt, &action) {
            Ok(status) => status,
            Err(fault) => fault.report(rt),
        },
        Err(error) => shown(rt, &error),
    }
}

/// Whether an argument is a secret key, or passes one to an option: `--key=k4.local..`.
fn is_secret(word: &str) -> bool
    ensures { MatchBool result (HoldsSecretKey word.now) (HoldsNoSecretKey word.now) }
{
    match word.split_once('=') {
        Some((_, value)) => is_secret_key(word) || is_secret_key(value),
        None => is_secret_key(word),
    }
}

/// Whether a text begins like a secret key.
fn is_secret_key(text: &str) -> bool
    ensures { MatchBool result (IsSecretKey text.now) (¬ IsSecretKey text.now) }
{
    match header_of(text) {
        Some((_, PaserkType::Local | PaserkType::Secret, _)) => true,
        Some((_, PaserkType::Public, _)) => false,
        None => false,
    }
}

/// Prints help, the version, or why the arguments are refused, and returns the status.
fn shown(rt: &HostRuntime, error: &Error) -> u8 {
    match error.print(rt) {
        Ok(()) => status(error),
        Err(_) => Fault::from(ProgramError::System(SystemError::InputOrOutput)).report(rt),
    }
}

/// Performs an action, and returns the status.
fn done<'a>(rt: &HostRuntime, action: &Action<'a>) -> Result<u8, Fault<'a>> {
    match action {
        Action::Keygen(words) => new_key::make(rt, words),
        Action::Public(words) => half::tell(rt, words),
        Action::Id(key) => tell_id(rt, key),
        Action::Wrap(words) => locks::wrapped(rt, words),
        Action::Unwrap(words) => locks::unwrapped(rt, words),
        Action::Seal(words) => locks::sealed(rt, words),
        Action::Unseal(words) => locks::unsealed(rt, words),
        Action::Issue(words) => tokens::issue(rt, words),
        Action::Check(words) => tokens::check(rt, words),
        Action::Explain(words) => explain::explain(rt, words),
        Action::Inspect(words) => inspect(rt, words),
        Action::Encrypt(words)
        | Action::Decrypt(words)
        | Action::Sign(words)
        | Action::Verify(words) => texts::keyed(rt, task_of(action), words),
    }
}

/// The task of an action with a key and a text. The others have none, and are not asked for it.
fn task_of(action: &Action<'_>) -> Task
    ensures { result ≡ task_of action.now }
{
    match action {
        Action::Decrypt(_) => Task::Decrypt,
        Action::Sign(_) => Task::Sign,
        Action::Verify(_) => Task::Verify,
        _ => Task::Encrypt,
    }
}

/// Prints the id of a key.
fn tell_id<'a>(rt: &HostRuntime, words: &KeyFile<'a>) -> Result<u8, Fault<'a>> {
    let key = key_of(rt, words)?;
    let name = key_name(words.file);
    let names = Names {
        key: name,
        input: name,
    };
    Ok(run_id(rt.alloc(), &names, &key, &mut rt.stdout(), &mut rt.stderr()))
}

/// Prints what a token says about itself.
fn inspect<'a>(rt: &HostRuntime, words: &Inspect<'a>) -> Result<u8, Fault<'a>> {
    let bytes = input_of(rt, words.input, longest_of(words.longest)?)?;
    let name = name_of(words.input);
    let names = Names {
        key: name,
        input: name,
    };
    let mut input = bytes.as_slice();
    Ok(run_inspect(
        rt.alloc(),
        &names,
        &mut input,
        &mut rt.stdout(),
        &mut rt.stderr(),
    ))
}
