//! The program's messages for the errors of builders, parsers and key rings.

ghost use Rattle.std.specs.Prelude.{◌≡◌, ◌⊎◌, ◌++◌, ◌∷◌, [], Ok, IfErr, IfOk, IsErrAnd, IsOk, IsOkAnd, OnOk, codes, encode_utf8_all, map, string_bytes};
ghost use Rattle.serde_json.specs.View.{view};
ghost use Rattle.rusty_paseto_generic.specs.Error.{IsMemory as IsMemoryOfBuilder};
ghost use Rattle.rusty_paseto_generic.specs.Error.Parser.{IsMemory};
ghost use Rattle.paseto_tasks.specs.Error.{BlamesNone, Fails, IsNoUsage, IsOutside, IsPlain, Says, nothing};
ghost use Rattle.paseto.specs.Answers.{IsNoMemoryOfRing, IsToldLine, SaysOfBuilder, SaysOfRing, admitted, one_line, parser_error_of, repeated_text, shown_letter, text_error_of, unknown_text};
ghost use Rattle.paseto.specs.ClaimLine.{SaysOfCheck};
ghost use Rattle.paseto.specs.Claims.{all_named};
ghost use Rattle.paseto.specs.Times.{claim_error_of};

use crate::commands::claim_line::by_claim;
use crate::commands::claims::NamedClaim;
use jiff::Timestamp;
use paseto_keys::{AdmitError, RingError};
use paseto_tasks::{FileError, ProgramError, TimeOption, TokenError, UsageError};
use rusty_paseto::prelude::{
    GenericBuilderError, GenericParserError, KeyRingError, PasetoClaimError, PasetoError,
};
use serde_json::Value;
use std::alloc::{AllocError, Global};

/// Converts the result of a builder.
pub fn built<T: Drop>(
    alloc: Global,
    answer: Result<T, GenericBuilderError>,
) -> Result<T, ProgramError>
    ensures value { IfOk result (λ value. answer ≡ Ok value) }
    ensures refused { IfErr result (λ error. IsErrAnd answer
        (λ source. IsOutside error ⊎ (¬ IsMemoryOfBuilder source))) }
    ensures no_usage { IfErr result IsNoUsage }
    ensures blames { IfErr result BlamesNone }
    ensures said { IfErr result (λ error. IsErrAnd answer (λ source. SaysOfBuilder source error)) }
{
    match answer {
        Ok(value) => Ok(value),
        Err(GenericBuilderError::Memory(source)) => Err(ProgramError::from(source)),
        Err(GenericBuilderError::DuplicateTopLevelPayloadClaim(key)) => Err(repeated(
            alloc,
            key.as_str(),
        )),
        Err(_) => Err(ProgramError::Token(TokenError::OddClaim)),
    }
}

/// The error for a claim that is set twice.
fn repeated(alloc: Global, key: &str) -> ProgramError
    ensures no_usage { IsNoUsage result }
    ensures blames { BlamesNone result }
    ensures tells { IsToldLine result }
    ensures said { Says (λ line. line ≡ one_line (repeated_text key.now)) result }
{
    told(one_line_of(
        alloc,
        format!(in alloc; "The claim '{key}' appears more than once in the top level payload json"),
    ))
}

/// Converts the error for the moment of an option that does not make a claim.
pub fn dated(option: TimeOption, source: PasetoClaimError) -> ProgramError
    ensures { result ≡ claim_error_of option source }
{
    match source {
        PasetoClaimError::Memory(source) => ProgramError::from(source),
        _ => ProgramError::Usage(UsageError::Time(option)),
    }
}

/// Converts the result of a parser's setter, which refuses only claims of the arguments.
pub fn demanded<T: Drop>(answer: Result<T, GenericParserError>) -> Result<T, ProgramError>
    ensures value { IfOk result (λ value. answer ≡ Ok value) }
    ensures refused { IfErr result (λ error. IsErrAnd answer
        (λ source. IsOutside error ⊎ (¬ IsMemory source))) }
    ensures plain { IfErr result IsPlain }
{
    match answer {
        Ok(value) => Ok(value),
        Err(GenericParserError::Memory(source)) => Err(ProgramError::from(source)),
        Err(_) => Err(ProgramError::Token(TokenError::OddClaim)),
    }
}

/// Converts the result of a key that reads a token, whose claims are not checked.
pub fn admitted(answer: Result<Value, AdmitError>) -> Result<Value, ProgramError>
    ensures { result ≡ admitted answer }
{
    match answer {
        Ok(value) => Ok(value),
        Err(AdmitError::Key(source)) => Err(ProgramError::from(source)),
        Err(AdmitError::Parser(source)) => Err(by_parser(source)),
        Err(AdmitError::Memory(source)) => Err(ProgramError::from(source)),
    }
}

/// Converts the result of checking these claims, which a token has, at a moment, of which some values
/// are required.
pub fn checked(
    alloc: Global,
    demands: &[NamedClaim],
    claims: &Value,
    at: Timestamp,
    answer: Result<(), GenericParserError>,
) -> Result<(), ProgramError>
    ensures passed { OnOk result (IsOk answer) }
    ensures refused { IfErr result (λ error. IsErrAnd answer
        (λ source. IsOutside error ⊎ (¬ IsMemory source))) }
    ensures no_usage { IfErr result IsNoUsage }
    ensures blames { IfErr result BlamesNone }
    ensures said { IfErr result (λ error. IsErrAnd answer
        (λ source. SaysOfCheck (all_named demands.now) (view claims.now) at source error)) }
{
    match answer {
        Ok(()) => Ok(()),
        Err(GenericParserError::ClaimError { source }) => Err(by_claim(
            alloc, demands, claims, at, source,
        )),
        Err(source) => Err(by_text(source)),
    }
}

/// Converts the result of a key ring that reads a token, whose claims are not checked, without the id
/// of the key.
pub fn found(
    alloc: Global,
    answer: Result<(String, Value), RingError>,
) -> Result<Value, ProgramError>
    ensures value { IfOk result (λ value. IsOkAnd answer (λ found. found.1 ≡ value)) }
    ensures refused { IfErr result (λ error. IsErrAnd answer
        (λ source. IsOutside error ⊎ IsNoMemoryOfRing source)) }
    ensures no_usage { IfErr result IsNoUsage }
    ensures blames { IfErr result BlamesNone }
    ensures said { IfErr result (λ error. IsErrAnd answer (λ source. SaysOfRing source error)) }
{
    match answer {
        Ok((_id, value)) => Ok(value),
        Err(RingError::NoAssertion) => Err(ProgramError::File(FileError::NoAssertion)),
        Err(RingError::Memory(source)) => Err(ProgramError::from(source)),
        Err(RingError::Parser(source)) => Err(by_text(source)),
        Err(RingError::Ring(source)) => Err(ring_error(alloc, source)),
    }
}

/// The error for a token that a key does not read as claims.
fn by_parser(source: GenericParserError) -> ProgramError
    ensures { result ≡ parser_error_of source }
{
    match source {
        GenericParserError::CipherError {
            source: PasetoError::FooterInvalid,
        } => ProgramError::Token(TokenError::OtherFooter),
        source => by_text(source),
    }
}

/// The error for the text of a token, or for its claims.
fn by_text(source: GenericParserError) -> ProgramError
    ensures { result ≡ text_error_of source }
{
    match source {
        GenericParserError::Memory(source) => ProgramError::from(source),
        GenericParserError::CipherError { source } => ProgramError::of_token(source),
        GenericParserError::ClaimError { .. } => ProgramError::Token(TokenError::OddNumber),
        GenericParserError::PayloadJsonError { .. } => ProgramError::Token(TokenError::NotJson),
    }
}

/// The error for a key that is not found in a ring, or that does not read a token.
pub fn ring_error(alloc: Global, source: KeyRingError) -> ProgramError
    ensures memory { IsOutside result ⊎ IsNoMemoryOfRing (RingError.Ring source) }
    ensures no_usage { IsNoUsage result }
    ensures blames { BlamesNone result }
    ensures said { SaysOfRing (RingError.Ring source) result }
{
    match source {
        KeyRingError::Memory(source) => ProgramError::from(source),
        KeyRingError::Untrusted(source) | KeyRingError::Token(source) => {
            ProgramError::of_token(source)
        }
        KeyRingError::NoFooter => ProgramError::Token(TokenError::NoFooter),
        KeyRingError::NotAnObject => ProgramError::Token(TokenError::NotAnObject),
        KeyRingError::NoKeyId => ProgramError::Token(TokenError::NoKeyId),
        KeyRingError::UnknownKey(id) => unknown(alloc, id.as_str()),
    }
}

/// The error for a key ring that has no key with the id in the footer.
fn unknown(alloc: Global, id: &str) -> ProgramError
    ensures no_usage { IsNoUsage result }
    ensures blames { BlamesNone result }
    ensures tells { IsToldLine result }
    ensures said { Says (λ line. line ≡ one_line (unknown_text id.now)) result }
{
    told(one_line_of(
        alloc,
        format!(in alloc; "The key '{id}' is not in the ring"),
    ))
}

/// A refusal with a message of this program.
pub fn told(line: Result<String, AllocError>) -> ProgramError
    ensures no_usage { IsNoUsage result }
    ensures blames { BlamesNone result }
    ensures tells { IsToldLine result }
    ensures said { Says (λ text. IsOkAnd line (λ line. text ≡ string_bytes line)) result }
{
    match line {
        Ok(line) => ProgramError::Token(TokenError::Unfit(line)),
        Err(source) => ProgramError::from(source),
    }
}

/// A text with each control character replaced by a question mark, since it may come from a token
/// that anyone wrote.
pub fn one_line_of(alloc: Global, text: Result<String, AllocError>) -> Result<String, AllocError>
    ensures { IfOk result (λ line. IsOkAnd text
        (λ text. string_bytes line ≡ one_line (string_bytes text))) }
{
    match text {
        Ok(text) => one_line(alloc, text.as_str()),
        Err(source) => Err(source),
    }
}

fn one_line(alloc: Global, text: &str) -> Result<String, AllocError>
    ensures { IfOk result (λ line. string_bytes line ≡ one_line text.now) }
{
    let mut line = String::new(alloc);
    for letter in text.chars() {
        push_shown(&mut line, letter)?;
    }
    Ok(line)
}

/// Appends a character as it is shown in a line.
fn push_shown(line: &mut String, letter: char) -> Result<(), AllocError>
    ensures { OnOk result (string_bytes line.new ≡ string_bytes line.old
        ++ encode_utf8_all (map shown_letter (letter ∷ []))) }
{
    line.push(if letter.is_control() { '?' } else { letter })
}
