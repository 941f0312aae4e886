//! The keys that the arguments name: in a file, on standard input or in the environment, opened if
//! they are locked.

ghost use Rattle.std.specs.Prelude.{◌≡◌, ℕ, List, [], MatchBool, None, IfErr, IfOk, option_map, string_bytes};
ghost use Rattle.paseto_keys.specs.AnyKey.{parts_of};
ghost use Rattle.paseto_keys.specs.Line.{IsLineOf};
ghost use Rattle.paseto_tasks.specs.Error.{key_file_error_of};
ghost use Rattle.paseto.specs.Keys.{AreOpeners, HasSecondLine, Holds, HoldsNoKey, HoldsNone, IsLikePaserk, IsNoKeyLine, IsWithoutReturn, OpensHeld, about_of, key_name};

use crate::fault::Fault;
use crate::files::{name_of, once, opened};
use paseto_key_files::{KeyFileError, Openers, unlock};
use paseto_keys::AnyKey;
use paseto_pem::holds_pem;
use paseto_tasks::{FileError, ProgramError, UsageError, read_key_line, read_password};
use paseto_words::{KeyFile, Openers as OpenerWords};
use paseto_wrapping::{WrapError, wrapped_header_of};
use rusty_paseto_paserk::{PaserkError, PaserkType, header_of};
use std::alloc::{AllocError, Global};
use std::env::{self, VarError};
use std::fs::File;
use std::io;
use std::os::unix::fs::PermissionsExt;

/// The environment variable for the key if none is named.
const KEY: &str = "PASETO_KEY";

/// The environment variable for the password that opens keys if no password file is named.
const PASSWORD: &str = "PASETO_PASSWORD";

/// No file of what opens a key.
const NO_OPENERS: OpenerWords<'static> = OpenerWords {
    password: None,
    key: None,
};

/// The password and the key that open locked key files, with the name of the key's file.
#[derive(Drop)]
pub struct Held<'a> {
    password: Option<Vec<u8>>,
    key: Option<String>,
    key_name: &'a str,
}

impl<'a> Held<'a> {
    /// No password and no key.
    pub fn nothing() -> Held<'a>
        ensures { (result.password ≡ None) × (result.key ≡ None) × (result.key_name.now ≡ []) }
    {
        Held {
            password: None,
            key: None,
            key_name: "",
        }
    }

    /// What the arguments and the environment give. The key that opens files may itself be under the
    /// password.
    pub fn of(rt: &HostRuntime, words: &OpenerWords<'a>) -> Result<Held<'a>, Fault<'a>> {
        let password = opening_password(rt, words.password)?;
        let Some(path) = words.key else {
            return Ok(Held {
                password,
                key: None,
                key_name: "",
            });
        };
        let held = Held {
            password,
            key: None,
            key_name: path,
        };
        let key = held.line(rt.alloc(), path, key_text(rt, Some(path))?.as_str())?;
        Ok(Held {
            key: Some(key),
            ..held
        })
    }

    /// The key in the text of a key file of this name.
    pub fn open(&self, alloc: Global, name: &'a str, text: &str) -> Result<AnyKey, Fault<'a>>
        ensures found { IfOk result (λ key. (line : List ℕ) × Holds self.now text.now line
            × IsLineOf line (parts_of key)) }
        ensures refused { IfErr result (HoldsNoKey self.now name.now text.now) }
    {
        match self.line(alloc, name, text) {
            Ok(line) => key_of_line(alloc, name, line.as_str()),
            Err(fault) => Err(fault),
        }
    }

    /// The line of the key in the text of a key file of this name.
    fn line(&self, alloc: Global, name: &'a str, text: &str) -> Result<String, Fault<'a>>
        ensures held { IfOk result (λ line. Holds self.now text.now (string_bytes line)) }
        ensures refused { IfErr result (HoldsNone self.now name.now text.now) }
    {
        match self.unlock(alloc, text) {
            Ok(line) if has_second_line(text, line.as_str()) => Err(Fault::about(
                name,
                ProgramError::File(FileError::SecondLine),
            )),
            Ok(line) => Ok(line),
            Err(error) => Err(key_file_fault(self.key_name, name, error)),
        }
    }

    /// The line of the key in the text of a key file. The line feed at its end was removed when the
    /// file was read.
    fn unlock(&self, alloc: Global, text: &str) -> Result<String, KeyFileError>
        ensures { OpensHeld self.now text.now result }
    {
        unlock(alloc, &self.openers(), without_return(text))
    }

    /// What opens key files, as it is borrowed.
    fn openers(&self) -> Openers<'_>
        ensures { AreOpeners self.now result }
    {
        Openers {
            password: self.password.as_deref(),
            key: self.key.as_deref(),
        }
    }
}

/// A text without the carriage return at its end, if there is one.
fn without_return(text: &str) -> &str
    ensures { IsWithoutReturn text.now result.now }
{
    match text.strip_suffix("\r") {
        Some(rest) => rest,
        None => text,
    }
}

/// The key of a line.
pub fn key_of_line<'a>(alloc: Global, name: &'a str, line: &str) -> Result<AnyKey, Fault<'a>>
    ensures found { IfOk result (λ key. IsLineOf line.now (parts_of key)) }
    ensures refused { IfErr result (IsNoKeyLine name.now line.now) }
{
    match AnyKey::from_line(alloc, line) {
        Ok(key) => Ok(key),
        Err(error) => Err(Fault::about(name, ProgramError::from(error))),
    }
}

/// Why a key file is not opened or made. The error is about the key that opens it if that key was
/// refused, and otherwise about the key file.
pub fn key_file_fault<'a>(opener: &'a str, name: &'a str, error: KeyFileError) -> Fault<'a>
    ensures about { result.about.now ≡ about_of error opener.now name.now }
    ensures error { result.error ≡ key_file_error_of error }
{
    let about = match &error {
        KeyFileError::OtherOpener(_) | KeyFileError::Wrap(WrapError::InvalidPrivateKey) => opener,
        _ => name,
    };
    Fault::about(about, ProgramError::from(error))
}

/// Whether more stands behind a key in PASERK: in its line, or PEM in the text of its file.
fn has_second_line(text: &str, line: &str) -> bool
    ensures { MatchBool result (HasSecondLine text.now line.now)
        (¬ HasSecondLine text.now line.now) }
{
    if line.as_bytes().contains(&b'\n') {
        return true;
    }
    holds_pem(text) && is_paserk(text)
}

/// Whether a text begins like a key in PASERK, bare or locked.
fn is_paserk(text: &str) -> bool
    ensures { MatchBool result (IsLikePaserk text.now) (¬ IsLikePaserk text.now) }
{
    if header_of(text).is_some() {
        return true;
    }
    wrapped_header_of(text).is_some()
}

/// The name of a key in lines on standard error.
pub fn key_name(key: Option<&str>) -> &str
    ensures { result.now ≡ key_name (option_map (λ path. path.now) key.entry) }
{
    match key {
        None => KEY,
        Some(path) => name_of(Some(path)),
    }
}

/// The named key, opened if it is locked.
pub fn key_of<'a>(rt: &HostRuntime, key: &KeyFile<'a>) -> Result<AnyKey, Fault<'a>> {
    once(&[key.file, key.openers.password, key.openers.key])?;
    let held = Held::of(rt, &key.openers)?;
    let text = key_text(rt, key.file)?;
    held.open(rt.alloc(), key_name(key.file), text.as_str())
}

/// The line of the key of a file that is not locked, which is to wrap or to seal another key.
pub fn opener_line<'a>(rt: &HostRuntime, path: &'a str) -> Result<String, Fault<'a>> {
    let held = Held::of(rt, &NO_OPENERS)?;
    let text = key_text(rt, Some(path))?;
    held.line(rt.alloc(), key_name(Some(path)), text.as_str())
}

/// The text of the named key, with a warning if it is secret and others can read its file.
pub fn key_text<'a>(rt: &HostRuntime, key: Option<&'a str>) -> Result<String, Fault<'a>> {
    let text = match key {
        None => read_key_line(rt.alloc(), &mut variable(rt)?.as_bytes()),
        Some("-") => read_key_line(rt.alloc(), &mut rt.stdin()),
        Some(path) => return file_text(rt, path),
    };
    match text {
        Ok(text) => Ok(text),
        Err(error) => Err(Fault::about(key_name(key), error)),
    }
}

fn file_text<'a>(rt: &HostRuntime, path: &'a str) -> Result<String, Fault<'a>> {
    let mut file = opened(rt, path)?;
    match read_key_line(rt.alloc(), &mut file) {
        Ok(text) => {
            if is_bare(text.as_str()) {
                warn_of(rt, path, "key file", &file)?;
            }
            Ok(text)
        }
        Err(error) => Err(Fault::about(path, error)),
    }
}

/// Whether a text is a secret key that is not locked.
fn is_bare(text: &str) -> bool {
    if holds_pem(text) {
        return text.contains(" PRIVATE KEY-----");
    }
    matches!(
        header_of(text),
        Some((_, PaserkType::Local | PaserkType::Secret, _))
    )
}

/// The text of the environment variable for the key.
fn variable(rt: &HostRuntime) -> Result<String, Fault<'static>> {
    match env::var(rt, KEY) {
        Ok(text) => Ok(text),
        Err(VarError::NotPresent) => Err(Fault::from(ProgramError::Usage(UsageError::NoKey))),
        Err(VarError::NotUnicode) => Err(Fault::about(
            KEY,
            ProgramError::File(FileError::Key(PaserkError::NoKey)),
        )),
        Err(VarError::OutOfMemory) => Err(Fault::from(ProgramError::from(AllocError))),
    }
}

/// The password that opens locked keys: that of the named file, or else of the environment.
fn opening_password<'a>(
    rt: &HostRuntime,
    file: Option<&'a str>,
) -> Result<Option<Vec<u8>>, Fault<'a>> {
    match file {
        Some(path) => Ok(Some(password_of(rt, path)?)),
        None => password_variable(rt),
    }
}

/// The password of the named file, with a warning if others can read it, or of standard input.
pub fn password_of<'a>(rt: &HostRuntime, path: &'a str) -> Result<Vec<u8>, Fault<'a>> {
    let password = if path == "-" {
        read_password(rt.alloc(), &mut rt.stdin())
    } else {
        let mut file = opened(rt, path)?;
        warn_of(rt, path, "password file", &file)?;
        read_password(rt.alloc(), &mut file)
    };
    match password {
        Ok(password) => Ok(password),
        Err(error) => Err(Fault::about(name_of(Some(path)), error)),
    }
}

/// The password of the environment.
fn password_variable(rt: &HostRuntime) -> Result<Option<Vec<u8>>, Fault<'static>> {
    let password = match env::var(rt, PASSWORD) {
        Ok(text) => read_password(rt.alloc(), &mut text.as_bytes()),
        Err(VarError::NotPresent) => return Ok(None),
        Err(VarError::NotUnicode) => Err(ProgramError::File(FileError::OddPassword)),
        Err(VarError::OutOfMemory) => Err(ProgramError::from(AllocError)),
    };
    match password {
        Ok(password) => Ok(Some(password)),
        Err(error) => Err(Fault::about(PASSWORD, error)),
    }
}

/// Warns if users other than its owner can read a secret file.
fn warn_of(rt: &HostRuntime, path: &str, what: &str, file: &File) -> Result<(), ProgramError> {
    if is_open_to_others(file)? {
        let line = format!(in rt.alloc();
            "paseto: {path}: warning: others than its owner can read the {what}"
        )?;
        rt.eprintln(&line)?;
    }
    Ok(())
}

/// Whether users other than its owner can read a file.
fn is_open_to_others(file: &File) -> io::Result<bool> {
    let mode = file.metadata()?.permissions().mode();
    Ok(mode & 0o044 != 0)
}
