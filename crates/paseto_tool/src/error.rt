//! Why the program failed.

ghost use Rattle.std.specs.Prelude.{◌≡◌, ℕ, List};
ghost use Rattle.paseto_tool.specs.declared.error.ToolError.TheVariants.{Refused, InputOrOutput, Memory};
ghost use Rattle.rusty_paseto_parts.specs.declared.error.PasetoError.TheVariants.{Utf8Error as NotUtf8};
ghost use Rattle.std.specs.IoError.{error_kind};
ghost use Rattle.std.specs.Io.{StartsWith};
ghost use Rattle.std.specs.Io.KnownBytes.{Appends};
ghost use Rattle.paseto_tool.specs.Error.{IsOutside, line_of, status_of, text_of, tool_error_of, words_error};

use crate::output::write_whole;
use paseto_streams::StreamError;
use rusty_paseto::paseto_core::PasetoError;
use std::alloc::AllocError;
use std::io::{self, Write};
use std::str::Utf8Error;

const USAGE: &str =
    "usage: paseto_tool inspect TOKEN | seal VERSION KEY NONCE [FOOTER [ASSERTION]] | open VERSION KEY [FOOTER [ASSERTION]]";

/// Why the program exits with a status other than 0.
#[derive(Debug, Drop)]
pub enum ToolError {
    /// The arguments are not a command of the program.
    Usage,
    /// A key, a nonce, a text or a token was refused.
    Refused(PasetoError),
    /// A read or a write failed, or a write accepted no bytes.
    InputOrOutput,
    /// An allocation failed.
    Memory(AllocError),
}

impl ToolError {
    /// The message on standard error: one line, without its line feed.
    fn text(&self) -> &'static str
        ensures { result.now ≡ text_of self.now }
    {
        match self {
            ToolError::Usage => USAGE,
            ToolError::Refused(source) => source.text(),
            ToolError::InputOrOutput => "input or output failed",
            ToolError::Memory(_) => "No memory was found",
        }
    }

    /// Writes the text and a line feed. If a write fails, only a prefix of them is written, and nothing
    /// else changes. This does not allocate.
    pub fn say<E: Write>(&self, errors: &mut E)
        ensures { (said : List ℕ) × StartsWith (line_of self.now) said × Appends
            (E.contents errors.old) (E.contents errors.new) said }
    {
        if write_whole(errors, self.text().as_bytes()).is_ok() {
            let _ = write_whole(errors, b"\n");
        }
    }

    /// The exit status of the program.
    pub fn status(&self) -> u8
        ensures { result ≡ status_of self.now }
    {
        match self {
            ToolError::Usage => 2,
            ToolError::Refused(_) | ToolError::InputOrOutput | ToolError::Memory(_) => 1,
        }
    }

    /// Why the arguments after the program's name could not be read: an allocation failed; an argument
    /// is not text, and so not part of a command; or the system failed.
    pub fn of_words(source: &io::Error) -> ToolError
        ensures { result ≡ words_error (error_kind source.now) }
    {
        match source.kind() {
            io::ErrorKind::OutOfMemory => ToolError::Memory(AllocError),
            io::ErrorKind::InvalidData => ToolError::Usage,
            _ => ToolError::InputOrOutput,
        }
    }
}

impl From<PasetoError> for ToolError {
    ghost from_gives = { λ source error. error ≡ tool_error_of source };

    fn from(source: PasetoError) -> ToolError {
        match source {
            PasetoError::Memory(source) => ToolError::Memory(source),
            other => ToolError::Refused(other),
        }
    }
}

impl From<io::Error> for ToolError {
    ghost from_gives = { λ _ error. error ≡ InputOrOutput };

    fn from(_source: io::Error) -> ToolError {
        ToolError::InputOrOutput
    }
}

impl From<StreamError> for ToolError {
    ghost from_gives = { λ _ error. IsOutside error };

    fn from(source: StreamError) -> ToolError {
        match source {
            StreamError::InputOrOutput => ToolError::InputOrOutput,
            StreamError::Memory(source) => ToolError::Memory(source),
        }
    }
}

impl From<Utf8Error> for ToolError {
    ghost from_gives = { λ source error. error ≡ Refused (NotUtf8 source) };

    fn from(source: Utf8Error) -> ToolError {
        ToolError::Refused(PasetoError::from(source))
    }
}

impl From<AllocError> for ToolError {
    ghost from_gives = { λ source error. error ≡ Memory source };

    fn from(source: AllocError) -> ToolError {
        ToolError::Memory(source)
    }
}
