//! Why the program failed.

ghost use Rattle.std.specs.Prelude.{◌≡◌, ◌∷◌, [], ℕ, List, IfOk, alloc_error, codes, string_bytes};
ghost use Rattle.paseto_tasks.specs.Arguments.{texts};
ghost use Rattle.std.specs.Io.{StartsWith};
ghost use Rattle.std.specs.Io.KnownBytes.{Appends};
ghost use Rattle.std.specs.IoError.{error_kind};
ghost use Rattle.rusty_paseto_parts.specs.declared.error.PasetoError.TheVariants.{Utf8Error as NotUtf8};
ghost use Rattle.paseto_tasks.specs.declared.error.ProgramError.TheVariants.{System, Token};
ghost use Rattle.paseto_tasks.specs.declared.error.system.SystemError.TheVariants.{InputOrOutput, Memory};
ghost use Rattle.paseto_tasks.specs.declared.error.token.TokenError.TheVariants.{Refused};
ghost use Rattle.paseto_tasks.specs.Error.{colon_behind, file_error, joined, key_error_of, key_file_error_of, kinds_text, line_of, link_error, message_of, name_of, program_error_of, status_of, stream_error_of, subject_of, text_of, token_error_of, use_error_of, words_error};

mod file;
mod system;
mod token;
mod usage;

use crate::output::write_whole;
pub use file::FileError;
use paseto_key_files::KeyFileError;
use paseto_keys::KeyError;
use paseto_streams::StreamError;
use paseto_wrapping::WrapError;
use rusty_paseto_core::PasetoError;
use rusty_paseto_paserk::PaserkError;
use std::alloc::{AllocError, AllocFailed, Global};
use std::io::{self, Write};
use std::str::Utf8Error;
pub use system::SystemError;
pub use token::TokenError;
pub use usage::{TimeOption, UsageError};

/// Why the program exits with a status other than 0.
#[derive(Debug, Drop)]
pub enum ProgramError {
    /// The arguments do not say what to do. The status is 2.
    Usage(UsageError),
    /// A key, a password or another file cannot be used. The status is 3.
    File(FileError),
    /// A token, the content of a new one, or a wrapped key was refused. The status is 1.
    Token(TokenError),
    /// The system failed. The status is 4.
    System(SystemError),
}

/// What an error is about.
#[derive(Clone, Copy)]
enum About {
    /// The key file, or another file or argument that is refused before a key is read.
    Key,
    /// The input.
    Input,
    /// Neither.
    Nothing,
}

impl About {
    /// Its name in a line on standard error, which is empty for nothing.
    fn name<'n>(self, names: &Names<'n>) -> &'n str
        ensures { result.now ≡ name_of names.now self }
    {
        match self {
            About::Key => names.key,
            About::Input => names.input,
            About::Nothing => "",
        }
    }
}

/// The names of a command's files in its lines on standard error.
#[derive(Clone, Copy)]
pub struct Names<'a> {
    /// The key file, or another file or argument that is refused before a key is read.
    pub key: &'a str,
    /// The input.
    pub input: &'a str,
}

impl ProgramError {
    /// The message on standard error, which follows the name of what the error is about.
    fn text(&self) -> &str
        ensures { result.now ≡ text_of self.now }
    {
        match self {
            ProgramError::Usage(error) => error.text(),
            ProgramError::File(error) => error.text(),
            ProgramError::Token(error) => error.text(),
            ProgramError::System(error) => error.text(),
        }
    }

    /// The message on standard error, without the name of what the error is about.
    pub fn message(&self, alloc: Global) -> Result<String, AllocError>
        ensures { IfOk result (λ message. string_bytes message ≡ message_of self.now) }
    {
        match self {
            ProgramError::Token(TokenError::OtherKind(token, key)) => {
                kinds_text(alloc, token.text(), key.text())
            }
            _ => String::from_str(alloc, self.text()),
        }
    }

    /// The exit status of the program.
    pub fn status(&self) -> u8
        ensures { result ≡ status_of self.now }
    {
        match self {
            ProgramError::Token(_) => 1,
            ProgramError::Usage(_) => 2,
            ProgramError::File(error) => error.status(),
            ProgramError::System(_) => 4,
        }
    }

    /// What the error is about.
    fn subject(&self) -> About
        ensures { result ≡ subject_of self.now }
    {
        match self {
            ProgramError::Usage(UsageError::NoKind | UsageError::NoHalf)
            | ProgramError::File(_)
            | ProgramError::Token(TokenError::Wrapped) => About::Key,
            ProgramError::Usage(_)
            | ProgramError::Token(TokenError::OddClaim)
            | ProgramError::System(_) => About::Nothing,
            ProgramError::Token(_) => About::Input,
        }
    }

    /// Writes a line on the error: `paseto: `, the name of what it is about, and the message. If a
    /// write fails, only a prefix of the line is written, and nothing else changes. This does not
    /// allocate.
    pub fn say<E: Write>(&self, names: &Names<'_>, errors: &mut E)
        ensures { (said : List ℕ) × StartsWith (line_of names.now self.now) said × Appends
            (E.contents errors.old) (E.contents errors.new) said }
    {
        let about = self.subject().name(names);
        let colon = colon_behind(about);
        match self {
            ProgramError::Token(TokenError::OtherKind(token, key)) => {
                write_kinds(errors, about, colon, token.text(), key.text());
            }
            _ => write_line(errors, about, colon, self.text()),
        }
    }

    /// Why the arguments after the program's name could not be read: an allocation failed; an argument
    /// is not text; or the system failed.
    pub fn of_words(source: &io::Error) -> ProgramError
        ensures { result ≡ words_error (error_kind source.now) }
    {
        match source.kind() {
            io::ErrorKind::OutOfMemory => ProgramError::from(AllocError),
            io::ErrorKind::InvalidData => ProgramError::Usage(UsageError::NotText),
            _ => ProgramError::System(SystemError::InputOrOutput),
        }
    }

    /// Why a file could not be opened or created.
    pub fn of_file(source: &io::Error) -> ProgramError
        ensures { result ≡ file_error (error_kind source.now) }
    {
        match source.kind() {
            io::ErrorKind::OutOfMemory => ProgramError::from(AllocError),
            io::ErrorKind::NotFound => ProgramError::File(FileError::NoFile),
            io::ErrorKind::AlreadyExists => ProgramError::File(FileError::FileExists),
            io::ErrorKind::PermissionDenied => ProgramError::File(FileError::NoPermission),
            io::ErrorKind::IsADirectory => ProgramError::File(FileError::IsFolder),
            io::ErrorKind::NotADirectory => ProgramError::File(FileError::NotFolder),
            _ => ProgramError::File(FileError::NoAccess),
        }
    }

    /// Why a new file could not be given its name.
    pub fn of_link(source: &io::Error) -> ProgramError
        ensures { result ≡ link_error (error_kind source.now) }
    {
        match source.kind() {
            io::ErrorKind::OutOfMemory => ProgramError::from(AllocError),
            io::ErrorKind::AlreadyExists => ProgramError::File(FileError::FileExists),
            _ => ProgramError::File(FileError::NoLink),
        }
    }

    /// Why a text or a token was refused: a private key that is invalid is an error of its file.
    pub fn of_token(source: PasetoError) -> ProgramError
        ensures { result ≡ token_error_of source }
    {
        match source {
            PasetoError::Signature => ProgramError::File(FileError::OtherHalves),
            PasetoError::KeyRejected => ProgramError::File(FileError::NotPrivate),
            other => ProgramError::Token(TokenError::Refused(other)),
        }
    }
}

/// The separator between a name and a message, or nothing if the name is empty.
fn colon_behind(about: &str) -> &'static str
    ensures { result.now ≡ colon_behind about.now }
{
    if about.is_empty() { "" } else { ": " }
}

/// Writes a line, or a prefix of it if a write fails.
fn write_line<'p, E: Write>(errors: &mut E, about: &'p str, colon: &'p str, text: &'p str)
    ensures { (said : List ℕ) × StartsWith (joined (codes "paseto: " ∷ about.now ∷ colon.now
        ∷ text.now ∷ (10 ∷ []) ∷ [])) said × Appends (E.contents errors.old)
        (E.contents errors.new) said }
{
    write_pieces(errors, &["paseto: ", about, colon, text, "\n"]);
}

/// Writes a line about a token of one kind and a key for tokens of another, or a prefix of it if a
/// write fails.
fn write_kinds<'p, E: Write>(
    errors: &mut E,
    about: &'p str,
    colon: &'p str,
    token: &'p str,
    key: &'p str,
)
    ensures { (said : List ℕ) × StartsWith (joined (codes "paseto: " ∷ about.now ∷ colon.now
        ∷ codes "the token is " ∷ token.now ∷ codes ", and the key is for " ∷ key.now
        ∷ (10 ∷ []) ∷ [])) said × Appends (E.contents errors.old) (E.contents errors.new) said }
{
    write_pieces(
        errors,
        &[
            "paseto: ",
            about,
            colon,
            "the token is ",
            token,
            ", and the key is for ",
            key,
            "\n",
        ],
    );
}

/// The message about a token of one kind and a key for tokens of another.
fn kinds_text(alloc: Global, token: &str, key: &str) -> Result<String, AllocError>
    ensures { IfOk result (λ message. string_bytes message ≡ kinds_text token.now key.now) }
{
    format!(in alloc; "the token is {token}, and the key is for {key}")
}

/// Writes texts one after another, or a prefix of them if a write fails.
fn write_pieces<E: Write>(errors: &mut E, pieces: &[&str])
    ensures { (said : List ℕ) × StartsWith (joined (texts pieces.now)) said × Appends
        (E.contents errors.old) (E.contents errors.new) said }
{
    let [piece, rest @ ..] = pieces else {
        return;
    };
    if write_whole(errors, piece.as_bytes()).is_ok() {
        write_pieces(errors, rest);
    }
}

impl From<PasetoError> for ProgramError {
    ghost from_gives = { λ source error. error ≡ program_error_of source };

    fn from(source: PasetoError) -> ProgramError {
        match source {
            PasetoError::Memory(source) => ProgramError::from(source),
            PasetoError::Cipher => ProgramError::System(SystemError::Random),
            other => ProgramError::of_token(other),
        }
    }
}

impl From<KeyError> for ProgramError {
    ghost from_gives = { λ source error. error ≡ use_error_of source };

    fn from(source: KeyError) -> ProgramError {
        match source {
            KeyError::OtherType(kind) => ProgramError::File(FileError::Key(PaserkError::OtherType(
                kind,
            ))),
            KeyError::OtherVersion(version) => ProgramError::File(FileError::Key(
                PaserkError::OtherVersion(version),
            )),
            KeyError::NoAssertion => ProgramError::File(FileError::NoAssertion),
            KeyError::Refused(source) => ProgramError::of_token(source),
            KeyError::OtherLength(_) | KeyError::Random => {
                ProgramError::System(SystemError::Random)
            }
            KeyError::Memory(source) => ProgramError::from(source),
        }
    }
}

impl From<PaserkError> for ProgramError {
    ghost from_gives = { λ source error. error ≡ key_error_of source };

    fn from(source: PaserkError) -> ProgramError {
        match source {
            PaserkError::Memory(source) => ProgramError::from(source),
            other => ProgramError::File(FileError::Key(other)),
        }
    }
}

impl From<KeyFileError> for ProgramError {
    ghost from_gives = { λ source error. error ≡ key_file_error_of source };

    fn from(source: KeyFileError) -> ProgramError {
        match source {
            KeyFileError::Memory(source) => ProgramError::from(source),
            KeyFileError::Random => ProgramError::System(SystemError::Random),
            KeyFileError::Wrap(WrapError::WrongKey) => ProgramError::Token(TokenError::Wrapped),
            other => ProgramError::File(FileError::KeyFile(other)),
        }
    }
}

impl From<io::Error> for ProgramError {
    ghost from_gives = { λ _ error. error ≡ System InputOrOutput };

    fn from(_source: io::Error) -> ProgramError {
        ProgramError::System(SystemError::InputOrOutput)
    }
}

impl From<StreamError> for ProgramError {
    ghost from_gives = { λ source error. error ≡ stream_error_of source };

    fn from(source: StreamError) -> ProgramError {
        match source {
            StreamError::InputOrOutput => ProgramError::System(SystemError::InputOrOutput),
            StreamError::Memory(source) => ProgramError::from(source),
        }
    }
}

impl From<Utf8Error> for ProgramError {
    ghost from_gives = { λ source error. error ≡ Token (Refused (NotUtf8 source)) };

    fn from(source: Utf8Error) -> ProgramError {
        ProgramError::Token(TokenError::Refused(PasetoError::from(source)))
    }
}

impl From<AllocError> for ProgramError {
    ghost from_gives = { λ source error. error ≡ System (Memory source) };

    fn from(source: AllocError) -> ProgramError {
        ProgramError::System(SystemError::Memory(source))
    }
}

impl<T: Drop> From<AllocFailed<T>> for ProgramError {
    ghost from_gives = { λ _ error. error ≡ System (Memory alloc_error) };

    fn from(refused: AllocFailed<T>) -> ProgramError {
        ProgramError::from(AllocError::from(refused))
    }
}
