//! The files and streams that the arguments name.

ghost use Rattle.std.specs.Prelude.{◌≡◌, IfErr, OnOk, false, option_map, true};
ghost use Rattle.paseto.specs.Files.{all_texts, input_file, input_name, is_hyphen, is_standard, some_hyphen, twice};

use crate::fault::Fault;
use paseto_tasks::{FileError, ProgramError, SystemError, TokenKind, UsageError, read_input};
use std::fs::File;
use std::io;
use std::os::fd::AsRawFd;

/// The number of standard error, the last of the standard streams.
const LAST_STREAM: i32 = 2;

/// The name of standard input in lines on standard error.
const STANDARD_INPUT: &str = "standard input";

/// Whether an input is standard input: a hyphen, or no name.
pub fn is_standard(input: Option<&str>) -> bool
    ensures { result ≡ is_standard (option_map (λ path. path.now) input.entry) }
{
    input.is_none() || input == Some("-")
}

/// The name of an input in lines on standard error.
pub fn name_of(input: Option<&str>) -> &str
    ensures { result.now ≡ input_name (option_map (λ path. path.now) input.entry) }
{
    match input {
        None | Some("-") => STANDARD_INPUT,
        Some(path) => path,
    }
}

/// Opens the named file. A token in place of its name is not repeated, since it is a secret of its
/// bearer.
pub fn opened<'a>(rt: &HostRuntime, path: &'a str) -> Result<File, Fault<'a>> {
    match no_folder(on_disk(File::open(rt, path))) {
        Ok(file) => Ok(file),
        Err(ProgramError::File(FileError::NoFile)) if TokenKind::of(path) != TokenKind::Other => {
            Err(Fault::from(ProgramError::Usage(UsageError::TokenWord)))
        }
        Err(error) => Err(Fault::about(path, error)),
    }
}

/// The bytes of the named input, of which it has at most so many.
pub fn input_of<'a>(
    rt: &HostRuntime,
    input: Option<&'a str>,
    longest: usize,
) -> Result<Vec<u8>, Fault<'a>> {
    let read = match input {
        None | Some("-") => read_input(rt.alloc(), &mut rt.stdin(), longest),
        Some(path) => read_input(rt.alloc(), &mut opened(rt, path)?, longest),
    };
    match read {
        Ok(bytes) => Ok(bytes),
        Err(error) => Err(Fault::about(name_of(input), error)),
    }
}

/// Refuses standard input for two of these files.
pub fn once(files: &[Option<&str>]) -> Result<(), ProgramError>
    ensures once { OnOk result (twice (all_texts files.now) ≡ false) }
    ensures twice { IfErr result (λ error. (error ≡ ProgramError.Usage UsageError.OneInput)
        × (twice (all_texts files.now) ≡ true)) }
{
    let [file, rest @ ..] = files else {
        return Ok(());
    };
    if is_hyphen(*file) && has_hyphen(rest) {
        return Err(ProgramError::Usage(UsageError::OneInput));
    }
    once(rest)
}

/// Whether standard input is among these files.
fn has_hyphen(files: &[Option<&str>]) -> bool
    ensures { result ≡ some_hyphen (all_texts files.now) }
{
    let [file, rest @ ..] = files else {
        return false;
    };
    is_hyphen(*file) || has_hyphen(rest)
}

/// Whether a file is standard input.
fn is_hyphen(file: Option<&str>) -> bool
    ensures { result ≡ is_hyphen (option_map (λ path. path.now) file.entry) }
{
    file == Some("-")
}

/// The input as a file: a hyphen if it has no name.
pub fn input_file(input: Option<&str>) -> Option<&str>
    ensures { option_map (λ path. path.now) result
        ≡ input_file (option_map (λ path. path.now) input.entry) }
{
    match input {
        None => Some("-"),
        Some(path) => Some(path),
    }
}

/// The opened file, or the error. A file that was given the number of a closed standard stream is
/// refused, since it would be read or written as that stream.
pub fn on_disk(file: io::Result<File>) -> Result<File, ProgramError> {
    match file {
        Ok(file) if file.as_raw_fd() <= LAST_STREAM => Err(ProgramError::System(
            SystemError::InputOrOutput,
        )),
        Ok(file) => Ok(file),
        Err(source) => Err(ProgramError::of_file(&source)),
    }
}

/// A file that is no folder: the system opens folders, too.
fn no_folder(file: Result<File, ProgramError>) -> Result<File, ProgramError> {
    let file = file?;
    if file.metadata()?.is_dir() {
        return Err(ProgramError::File(FileError::IsFolder));
    }
    Ok(file)
}
