//! The text of the input, and that of a key file.

ghost use Rattle.std.specs.Prelude.{◌≡◌, ◌≢◌, ◌<◌, ◌≤◌, [], ◌⊎◌, false, length, IfOk, IfErr, IfSome, string_bytes, IsUtf8};
ghost use Rattle.std.specs.Io.BufRead.{drop_through};
ghost use Rattle.paseto_tasks.specs.Error.{Fails, IsNoUsage, IsOutside, IsPlainBut};
ghost use Rattle.paseto_tasks.specs.Input.{IsLong, IsNoKeyFile, IsNoPassword, IsNoText, OfInput, inspected_text, key_line_of, line_of_input, reading, token_of_input, uncommented};
ghost use Rattle.paseto_streams.specs.Input.{IsInput};

use crate::error::{FileError, ProgramError, TokenError};
use paseto_streams::read_whole;
use rusty_paseto_paserk::PaserkError;
use std::alloc::Global;
use std::io::Read;
use std::str;

/// The maximum number of bytes in a key file. The PEM of an RSA key has fewer than 2,000 bytes, and a wrapped key
/// has no more; comments may stand in front.
const LIMIT: usize = 16384;

/// A password has fewer bytes.
const PASSWORD_LIMIT: usize = 4096;

/// The number of bytes that a read of the input requests.
const SPACE: usize = 65536;

/// Reads the bytes of the input, and little more of it than so many. A longer input is refused as `TooLong`.
pub fn read_input<R: Read>(
    alloc: Global,
    input: &mut R,
    longest: usize,
) -> Result<Vec<u8>, ProgramError>
    ensures whole { IfOk result (λ bytes. IsInput (R.remaining input.old) bytes.items
        × (length bytes.items ≤ longest)) }
    ensures refused { IfErr result (λ error. OfInput (R.remaining input.old) (λ bytes.
        (error ≡ ProgramError.Token TokenError.TooLong) × (longest < length bytes))
        ⊎ Fails reading error) }
{
    let mut bytes = Vec::new(alloc);
    let mut space = [0u8; SPACE];
    'reads: loop {
        if bytes.len() > longest {
            return Err(ProgramError::Token(TokenError::TooLong));
        }
        let count = input.read(&mut space)?;
        if count == 0 {
            return Ok(bytes);
        }
        bytes.extend_from_slice(&space[..count])?;
    }
}

/// Reads the text of the input. Input that is not UTF-8 is refused.
pub fn read_text<R: Read>(alloc: Global, input: &mut R) -> Result<String, ProgramError>
    ensures text { IfOk result (λ text. OfInput (R.remaining input.old)
        (λ bytes. bytes ≡ string_bytes text)) }
    ensures refused { IfErr result (λ error. OfInput (R.remaining input.old)
        (λ bytes. IsNoText bytes error) ⊎ Fails reading error) }
    ensures plain { IfErr result (IsPlainBut reading) }
{
    let bytes = read_whole(alloc, input)?;
    match String::from_utf8(bytes) {
        Ok(text) => Ok(text),
        Err(error) => Err(ProgramError::from(error.utf8_error())),
    }
}

/// Reads the token that the input is: its text without the white space around it. Input that is not
/// UTF-8 is refused.
pub fn read_token<R: Read>(alloc: Global, input: &mut R) -> Result<String, ProgramError>
    ensures token { IfOk result (λ token. OfInput (R.remaining input.old)
        (λ bytes. token_of_input bytes ≡ string_bytes token)) }
    ensures refused { IfErr result (λ error. OfInput (R.remaining input.old)
        (λ bytes. IsNoText bytes error) ⊎ Fails reading error) }
    ensures plain { IfErr result (IsPlainBut reading) }
{
    let text = read_text(alloc, input)?;
    Ok(String::from_str(alloc, text.as_str().trim())?)
}

/// Reads the text to inspect: what is behind the comments that the input begins with, lines that begin with
/// `#`, without the white space around it. What is not UTF-8 there is refused.
pub fn read_inspected<R: Read>(alloc: Global, input: &mut R) -> Result<String, ProgramError>
    ensures text { IfOk result (λ text. OfInput (R.remaining input.old)
        (λ bytes. inspected_text bytes ≡ string_bytes text)) }
    ensures refused { IfErr result (λ error. OfInput (R.remaining input.old)
        (λ bytes. IsNoText (uncommented false bytes) error) ⊎ Fails reading error) }
    ensures plain { IfErr result (IsPlainBut reading) }
{
    let bytes = read_whole(alloc, input)?;
    match str::from_utf8(behind_comments(&bytes)) {
        Ok(text) => Ok(String::from_str(alloc, text.trim())?),
        Err(error) => Err(ProgramError::from(error)),
    }
}

/// Reads the line of a key file, behind the comments that it may begin with: lines that begin with `#`.
/// This reads little more than the longest line of a key. A longer file is refused as `TooLong`, an
/// empty line as `EmptyKey`, and bytes that are not text as `Key(NoKey)`.
pub fn read_key_line<K: Read>(alloc: Global, file: &mut K) -> Result<String, ProgramError>
    ensures line { IfOk result (λ line. IfSome (K.remaining file.old)
        (λ bytes. key_line_of bytes ≡ string_bytes line)) }
    ensures some { IfOk result (λ line. string_bytes line ≢ []) }
    ensures refused { IfErr result (λ error. IfSome (K.remaining file.old)
        (λ bytes. IsOutside error ⊎ IsNoKeyFile bytes error)) }
    ensures no_usage { IfErr result IsNoUsage }
    ensures plain { IfErr result (IsPlainBut (record reading
        { too_long = IfSome (K.remaining file.old) IsLong })) }
{
    let bytes = read_short(alloc, file)?;
    let line = without_line_feed(behind_comments(&bytes));
    if line.is_empty() {
        return Err(ProgramError::File(FileError::EmptyKey));
    }
    let Ok(line) = str::from_utf8(line) else {
        return Err(ProgramError::from(PaserkError::NoKey));
    };
    Ok(String::from_str(alloc, line)?)
}

/// Reads the password of a file: its bytes without the line feed at their end. An empty password is
/// refused, and so is one of 4096 bytes or more.
pub fn read_password<P: Read>(alloc: Global, file: &mut P) -> Result<Vec<u8>, ProgramError>
    ensures password { IfOk result (λ password. IfSome (P.remaining file.old)
        (λ bytes. line_of_input bytes ≡ password.items)) }
    ensures some { IfOk result (λ password. (password.items ≢ []) × (length password.items < 4096)) }
    ensures refused { IfErr result (λ error. IfSome (P.remaining file.old)
        (λ bytes. IsOutside error ⊎ IsNoPassword bytes)) }
    ensures plain { IfErr result (IsPlainBut reading) }
{
    let bytes = match read_short(alloc, file) {
        Err(ProgramError::File(FileError::TooLong)) => {
            return Err(ProgramError::File(FileError::OddPassword));
        }
        read => read?,
    };
    let password = without_line_feed(&bytes);
    if password.is_empty() || password.len() >= PASSWORD_LIMIT {
        return Err(ProgramError::File(FileError::OddPassword));
    }
    Ok(Vec::from_slice(alloc, password)?)
}

/// Reads the bytes of a file that is not longer than a key file.
fn read_short<K: Read>(alloc: Global, file: &mut K) -> Result<Vec<u8>, ProgramError>
    ensures whole { IfOk result (λ bytes. IsInput (K.remaining file.old) bytes.items) }
    ensures failed { IfErr result (λ error. IfSome (K.remaining file.old) (λ bytes.
        IsOutside error ⊎ (IsLong bytes × (error ≡ ProgramError.File FileError.TooLong)))) }
    ensures plain { IfErr result (IsPlainBut (record reading
        { too_long = IfSome (K.remaining file.old) IsLong })) }
{
    let mut bytes = Vec::new(alloc);
    let mut space = [0u8; LIMIT];
    'reads: loop {
        let count = file.read(&mut space)?;
        if count == 0 {
            return Ok(bytes);
        }
        bytes.extend_from_slice(&space[..count])?;
        if bytes.len() > LIMIT {
            return Err(ProgramError::File(FileError::TooLong));
        }
    }
}

/// The bytes of a key file behind the comments that it begins with.
fn behind_comments(file: &[u8]) -> &[u8]
    ensures { result.now ≡ uncommented false file.now }
{
    let mut rest = file;
    'comments: loop {
        let [first, behind @ ..] = rest else {
            return rest;
        };
        if *first != b'#' {
            return rest;
        }
        rest = behind_line(behind);
    }
}

/// The bytes behind the first line.
fn behind_line(bytes: &[u8]) -> &[u8]
    ensures { result.now ≡ drop_through 10 bytes.now }
{
    let mut rest = bytes;
    'bytes: loop {
        let [byte, behind @ ..] = rest else {
            return rest;
        };
        if *byte == b'\n' {
            return behind;
        }
        rest = behind;
    }
}

/// The bytes without the line feed at their end, if there is one.
fn without_line_feed(bytes: &[u8]) -> &[u8]
    ensures { result.now ≡ line_of_input bytes.now }
{
    bytes.strip_suffix(b"\n").unwrap_or(bytes)
}
