//! Texts of RFC 7468, around any contents.

ghost use Rattle.std.specs.Prelude.{◌≡◌, ◌≢◌, ◌↔◌, ◌++◌, ◌∷◌, [], ℕ, List, All, length, IfErr, IfOk, IfSome, IsTrue, MatchOption, OnOk, string_bytes};
ghost use Rattle.std.specs.List.{concat};
ghost use Rattle.std.specs.Str.Lines.{lines as lines_of};
ghost use Rattle.base64.specs.GeneralPurpose.{IsBytes};
ghost use Rattle.paseto_pem.specs.Error.{IsMemory};
ghost use Rattle.paseto_pem.specs.Key.{IsBlockRefusal, ReadsText};
ghost use Rattle.paseto_pem.specs.Text.{BeginsOldEncrypted, FirstBlock, HasSecond, HoldsPem, IsBase64Line, IsBegin, IsBody, IsPassed, base64, lines, pem, texts};

use crate::error::PemError;
use crate::label::{Label, label_of};
use paseto_base64::{Alphabet, decode, encode};
use std::alloc::{AllocError, Global};

// How many octets a written line tells.
const LINE_OCTETS: usize = 48;

// How many characters a line may have that is read.
const MOST_CHARACTERS: usize = 76;

// Appends the lines of contents.
fn push_lines(alloc: Global, contents: &[u8], text: &mut String) -> Result<(), AllocError>
    ensures { OnOk result (string_bytes text.new
        ≡ string_bytes text.old ++ lines (base64 contents.now)) }
{
    'pieces: for piece in contents.chunks(LINE_OCTETS) {
        let line = encode(alloc, Alphabet::Standard, piece)?;
        text.push_str(&line)?;
        text.push_str("\n")?;
    }
    Ok(())
}

/// The text of contents.
fn write(alloc: Global, label: Label, contents: &[u8]) -> Result<String, AllocError>
    ensures { IfOk result (λ text. string_bytes text ≡ pem label contents.now) }
{
    let mut text = String::from_str(alloc, label.begin_boundary())?;
    text.push_str("\n")?;
    push_lines(alloc, contents, &mut text)?;
    text.push_str(label.end_boundary())?;
    text.push_str("\n")?;
    Ok(text)
}

/// The text of contents, as `openssl` writes it.
pub(crate) fn write_text(alloc: Global, label: Label, contents: &[u8]) -> Result<String, PemError>
    ensures ok { IfOk result (λ text. string_bytes text ≡ pem label contents.now) }
    ensures err { IfErr result IsMemory }
    ensures bytes { IsBytes contents.now }
{
    Ok(write(alloc, label, contents)?)
}

// The lines of a text, without their ends.
fn lines_of(alloc: Global, text: &str) -> Result<Vec<&str>, AllocError>
    ensures { IfOk result (λ found. texts found.items ≡ lines_of text.now) }
{
    text.lines().collect(alloc)
}

// Whether a line begins a block.
fn begins_block(line: &str) -> bool
    ensures { IsTrue result ↔ IsBegin line.now }
{
    line.as_bytes().starts_with(b"-----BEGIN ")
}

/// Whether a line of the text begins a block of PEM, `-----BEGIN `, whatever its label. Any text may stand before it.
///
/// Does not allocate.
///
/// Source: RFC 7468, sections 2 and 3.
pub fn holds_pem(text: &str) -> bool
    ensures { IsTrue result ↔ HoldsPem text.now }
{
    text.lines().any(|line| begins_block(line))
}

// Whether a line may stand before the block of a key.
fn is_passed(line: &str) -> bool
    ensures { IsTrue result ↔ IsPassed line.now }
{
    if begins_block(line) {
        line == "-----BEGIN EC PARAMETERS-----"
    } else {
        true
    }
}

// The first line that begins the block of a key, and those behind it.
fn first_block<'a>(lines: &'a [&'a str]) -> Option<(&'a str, &'a [&'a str])>
    ensures { MatchOption result (All IsPassed (texts lines.now))
        (λ found. FirstBlock (texts lines.now) found.0.now (texts found.1.now)) }
{
    let mut rest = lines;
    'each: while let [line, behind @ ..] = rest {
        if !is_passed(line) {
            return Some((*line, behind));
        }
        rest = behind;
    }
    None
}

// Whether a line has as many characters as a line of base64.
fn is_base64_line(line: &str) -> bool
    ensures { IsTrue result ↔ IsBase64Line line.now }
{
    1 <= line.len() && line.len() <= MOST_CHARACTERS
}

// The characters of lines of base64, one behind the other.
fn characters_of(alloc: Global, body: &[&str]) -> Result<Option<String>, AllocError>
    ensures { IfOk result (λ found. MatchOption found (¬ All IsBase64Line (texts body.now))
        (λ characters. All IsBase64Line (texts body.now)
        × (string_bytes characters ≡ concat (texts body.now)))) }
{
    let mut characters = String::new(alloc);
    'each: for index in 0..body.len() {
        if !is_base64_line(body[index]) {
            return Ok(None);
        }
        characters.push_str(body[index])?;
    }
    Ok(Some(characters))
}

// The contents of a block, from the lines behind its first one.
fn contents_of(alloc: Global, label: Label, behind: &[&str]) -> Result<Option<Vec<u8>>, AllocError>
    ensures { IfOk result (λ found. MatchOption found
        ((contents : List ℕ) → IsBytes contents → ¬ IsBody label contents (texts behind.now))
        (λ contents. IsBody label contents.items (texts behind.now))) }
{
    let [body @ .., last] = behind else {
        return Ok(None);
    };
    if *last != label.end_boundary() {
        return Ok(None);
    }
    let Some(characters) = characters_of(alloc, body)? else {
        return Ok(None);
    };
    decode(alloc, Alphabet::Standard, &characters)
}

// A label, and contents: each octet of these is below 256.
fn labelled(label: Label, contents: Vec<u8>) -> (Label, Vec<u8>)
    ensures same { result ≡ (label, contents) }
    ensures bytes { IsBytes contents.items }
{
    (label, contents)
}

// Whether a block begins with the header of a key that is encrypted as before PKCS #8, by the lines behind its first one.
fn is_old_encrypted(behind: &[&str]) -> bool
    ensures { IsTrue result ↔ BeginsOldEncrypted (texts behind.now) }
{
    match behind {
        [first, ..] => *first == "Proc-Type: 4,ENCRYPTED",
        [] => false,
    }
}

// Why the first block of a text is not that of a key, by the lines behind its first one.
fn refusal(behind: &[&str]) -> PemError
    ensures { IsBlockRefusal (texts behind.now) result }
{
    match first_block(behind) {
        Some(_) => PemError::TwoKeys,
        None if is_old_encrypted(behind) => PemError::Encrypted,
        None => PemError::NotPem,
    }
}

/// The label and the contents of a text.
pub(crate) fn read_text(alloc: Global, text: &str) -> Result<(Label, Vec<u8>), PemError>
    ensures { ReadsText text.now result }
{
    let lines = lines_of(alloc, text)?;
    let Some((first, behind)) = first_block(&lines) else {
        return Err(PemError::NotPem);
    };
    let Some(label) = label_of(first) else {
        return Err(refusal(behind));
    };
    match contents_of(alloc, label, behind)? {
        Some(contents) => Ok(labelled(label, contents)),
        None => Err(refusal(behind)),
    }
}
