//! The commands `wrap`, `unwrap`, `seal` and `unseal`.

ghost use Rattle.std.specs.Prelude.{◌≡◌, ◌⊎◌, IfErr, IfOk, MatchBool, OnOk, string_bytes};
ghost use Rattle.paseto_key_files.specs.Sealing.{SealsLine, SealsNone};
ghost use Rattle.paseto_key_files.specs.Wrapping.{WrapsLine, WrapsNone};
ghost use Rattle.paseto_keys.specs.AnyKey.{parts_of};
ghost use Rattle.paseto_keys.specs.Forms.{ByLine, ByNoLine};
ghost use Rattle.paseto_words.specs.Action.{text};
ghost use Rattle.paseto_tasks.specs.Error.{key_file_error_of};
ghost use Rattle.paseto.specs.Keys.{IsOtherFault, IsTextBy, about_of, seal_about_of};
ghost use Rattle.paseto.specs.Locks.{file_under, IsBare, IsBareFault, IsLockFault, IsLockedBy, IsUnwrappedFault, IsWrappedAs, OpensIn, OpensNone};

use crate::fault::Fault;
use crate::files::once;
use crate::forms::{format_of, formed, locked};
use crate::keys::{Held, key_file_fault, key_name, key_of, key_text, opener_line, password_of};
use crate::new_file::{free, put_secret};
use paseto_key_files::KeyFileError;
use paseto_keys::AnyKey;
use paseto_pem::holds_pem;
use paseto_tasks::{FileError, Format, ProgramError, UsageError, with_line_feed};
use paseto_words::{Seal, Under, Wrap, Written};
use paseto_wrapping::{WrapError, WrappedType, wrapped_header_of};
use rand::rngs::SysRng;
use rand_core::TryRng;
use rusty_paseto_paserk::{PaserkError, header_of};
use std::alloc::Global;

/// Prints a key wrapped under a password or a wrapping key.
pub fn wrapped<'a>(rt: &HostRuntime, words: &Wrap<'a>) -> Result<u8, Fault<'a>> {
    free(rt, words.out)?;
    once(&[words.key, under_file(words.under)])?;
    let name = key_name(words.key);
    let text = key_text(rt, words.key)?;
    let key = Held::nothing().open(rt.alloc(), name, text.as_str())?;
    let made = match words.under {
        Under::Key(path) => under_key(rt, name, path, &key)?,
        Under::Password(path) => under_password(rt, name, path, &key)?,
        Under::Unsaid => return Err(Fault::from(ProgramError::Usage(UsageError::NoPassword))),
    };
    written(rt, words.out, made.as_str())
}

/// The file that wraps a key.
fn under_file(under: Under<'_>) -> Option<&str>
    ensures { text result ≡ file_under under.entry }
{
    match under {
        Under::Unsaid => None,
        Under::Key(path) | Under::Password(path) => Some(path),
    }
}

/// A key wrapped under the wrapping key of a file.
fn under_key<'a>(
    rt: &HostRuntime,
    name: &'a str,
    path: &'a str,
    key: &AnyKey,
) -> Result<String, Fault<'a>> {
    let wrapping = opener_line(rt, path)?;
    under_line(
        rt.alloc(),
        name,
        path,
        key,
        wrapping.as_str(),
        &mut SysRng::new(rt),
    )
}

/// The text of a key under the wrapping key of a line, with a line feed.
fn under_line<'a, G: TryRng>(
    alloc: Global,
    name: &'a str,
    other: &'a str,
    key: &AnyKey,
    wrapping: &str,
    generator: &mut G,
) -> Result<String, Fault<'a>>
    ensures wrapped { IfOk result (λ text. IsTextBy (ByLine (parts_of key.now) (WrapsLine
        wrapping.now (λ drawn. G.may_fill generator.old drawn generator.new))) (string_bytes text)) }
    ensures refused { IfErr result (IsOtherFault (λ error. about_of error other.now name.now)
        (ByNoLine (parts_of key.now) (WrapsNone wrapping.now G.Error))) }
{
    match key.wrap(alloc, wrapping, generator) {
        Ok(text) => Ok(with_line_feed(text)?),
        Err(error) => Err(key_file_fault(other, name, error)),
    }
}

/// A key wrapped under the password of a file.
fn under_password<'a>(
    rt: &HostRuntime,
    name: &'a str,
    path: &'a str,
    key: &AnyKey,
) -> Result<String, Fault<'a>> {
    let password = password_of(rt, path)?;
    locked(rt.alloc(), name, key, &password, &mut SysRng::new(rt))
}

/// Prints the key of a key file that is under a password, wrapped or sealed.
pub fn unwrapped<'a>(rt: &HostRuntime, words: &Written<'a>) -> Result<u8, Fault<'a>> {
    opened(rt, words, Lock::Any)
}

/// Prints the key that was sealed to a public key.
pub fn unsealed<'a>(rt: &HostRuntime, words: &Written<'a>) -> Result<u8, Fault<'a>> {
    opened(rt, words, Lock::Seal)
}

/// Prints the key of a key file that is locked.
fn opened<'a>(rt: &HostRuntime, words: &Written<'a>, lock: Lock) -> Result<u8, Fault<'a>> {
    let format = format_of(words.format)?;
    free(rt, words.out)?;
    let openers = words.key.openers;
    once(&[words.key.file, openers.password, openers.key])?;
    let held = Held::of(rt, &words.key.openers)?;
    let text = key_text(rt, words.key.file)?;
    let name = key_name(words.key.file);
    let made = opened_in(rt.alloc(), &held, name, text.as_str(), lock, format)?;
    written(rt, words.out, made.as_str())
}

/// What a command opens.
#[derive(Clone, Copy)]
enum Lock {
    /// Whatever is under a password, wrapped or sealed.
    Any,
    /// What is sealed.
    Seal,
}

impl Lock {
    /// Refuses the text of a key file that does not begin like a key under such a lock.
    fn admit(self, text: &str) -> Result<(), ProgramError>
        ensures locked { OnOk result (IsLockedBy self text.now) }
        ensures refused { IfErr result (IsLockFault self text.now) }
    {
        match (self, lock_of(text)) {
            (Lock::Any, Ok(_)) | (Lock::Seal, Ok(WrappedType::Seal)) => Ok(()),
            (Lock::Seal, Ok(_)) => Err(ProgramError::File(FileError::NotSealed)),
            (_, Err(error)) => Err(error),
        }
    }
}

/// The type of the locked key that a text begins like. A bare key is refused by another name than what is no key.
fn lock_of(text: &str) -> Result<WrappedType, ProgramError>
    ensures found { IfOk result (λ kind. IsWrappedAs kind text.now) }
    ensures refused { IfErr result (IsUnwrappedFault text.now) }
{
    match wrapped_header_of(text) {
        Some((_, kind, _)) => Ok(kind),
        None => Err(unlocked(text)),
    }
}

/// The error for a text that does not begin like a locked key.
fn unlocked(text: &str) -> ProgramError
    ensures { IsBareFault text.now result }
{
    if is_key(text) {
        ProgramError::File(FileError::NotWrapped)
    } else {
        ProgramError::File(FileError::Key(PaserkError::NoKey))
    }
}

/// Whether a text is PEM, or begins like a bare key in PASERK.
fn is_key(text: &str) -> bool
    ensures { MatchBool result (IsBare text.now) (¬ IsBare text.now) }
{
    if holds_pem(text) {
        return true;
    }
    match header_of(text) {
        Some(_) => true,
        None => false,
    }
}

/// The text of the key in the text of a key file of this name, which is locked.
fn opened_in<'a>(
    alloc: Global,
    held: &Held<'a>,
    name: &'a str,
    text: &str,
    lock: Lock,
    format: Format,
) -> Result<String, Fault<'a>>
    ensures locked { OnOk result (IsLockedBy lock text.now) }
    ensures opened { IfOk result (λ made. OpensIn format held.now text.now (string_bytes made)) }
    ensures refused { IfErr result (λ fault. ((fault.about.now ≡ name.now)
        × IsLockFault lock text.now fault.error)
        ⊎ OpensNone format held.now name.now text.now fault) }
{
    match lock.admit(text) {
        Ok(()) => formed_in(alloc, held, name, text, format),
        Err(error) => Err(Fault::about(name, error)),
    }
}

/// The text of the key in the text of a key file of this name.
fn formed_in<'a>(
    alloc: Global,
    held: &Held<'a>,
    name: &'a str,
    text: &str,
    format: Format,
) -> Result<String, Fault<'a>>
    ensures opened { IfOk result (λ made. OpensIn format held.now text.now (string_bytes made)) }
    ensures refused { IfErr result (OpensNone format held.now name.now text.now) }
{
    match held.open(alloc, name, text) {
        Ok(key) => formed(alloc, name, &key, format),
        Err(fault) => Err(fault),
    }
}

/// Prints a key for local tokens, sealed to a public key.
pub fn sealed<'a>(rt: &HostRuntime, words: &Seal<'a>) -> Result<u8, Fault<'a>> {
    free(rt, words.out)?;
    let openers = words.key.openers;
    once(&[
        words.key.file,
        openers.password,
        openers.key,
        Some(words.to),
    ])?;
    let name = key_name(words.key.file);
    let key = key_of(rt, &words.key)?;
    let to = opener_line(rt, words.to)?;
    let made = sealed_to(
        rt.alloc(),
        name,
        words.to,
        &key,
        to.as_str(),
        &mut SysRng::new(rt),
    )?;
    written(rt, words.out, made.as_str())
}

/// The text of a key sealed to the public key of a line, with a line feed.
fn sealed_to<'a, G: TryRng>(
    alloc: Global,
    name: &'a str,
    other: &'a str,
    key: &AnyKey,
    public: &str,
    generator: &mut G,
) -> Result<String, Fault<'a>>
    ensures sealed { IfOk result (λ text. IsTextBy (ByLine (parts_of key.now) (SealsLine public.now
        (λ drawn. G.may_fill generator.old drawn generator.new))) (string_bytes text)) }
    ensures refused { IfErr result (IsOtherFault (λ error. seal_about_of error other.now name.now)
        (ByNoLine (parts_of key.now) (SealsNone public.now
        (λ drawn. G.may_fill generator.old drawn generator.new) G.Error))) }
{
    match key.seal(alloc, public, generator) {
        Ok(text) => Ok(with_line_feed(text)?),
        Err(error) => Err(seal_fault(other, name, error)),
    }
}

/// Why a key is not sealed. The error is about the recipient's key if no secret can be shared with it.
fn seal_fault<'a>(recipient: &'a str, name: &'a str, error: KeyFileError) -> Fault<'a>
    ensures about { result.about.now ≡ seal_about_of error recipient.now name.now }
    ensures error { result.error ≡ key_file_error_of error }
{
    match &error {
        KeyFileError::Wrap(WrapError::InvalidPoint | WrapError::SmallOrder) => {
            Fault::about(recipient, ProgramError::from(error))
        }
        _ => key_file_fault(recipient, name, error),
    }
}

/// Writes the text of a secret key to a new file that its owner alone can read, or to standard output,
/// and returns the status.
fn written<'a>(rt: &HostRuntime, out: Option<&'a str>, made: &str) -> Result<u8, Fault<'a>> {
    put_secret(rt, out, made.as_bytes())?;
    Ok(0)
}
