//! The command `inspect`.

ghost use Rattle.std.specs.Prelude.{◌≡◌, ◌⊎◌, ◌++◌, ℕ, List, IfErr, IfOk, OnOk, Some, codes, nat_eq, option_map, string_bytes};
ghost use Rattle.std.specs.List.{slice_get};
ghost use Rattle.std.specs.Cmp.Lexicographic.{pointwise};
ghost use Rattle.rusty_paseto_parts.specs.Section.{HasCount, sections};
ghost use Rattle.paseto_tasks.specs.Error.{IsOutside, IsPlain};
ghost use Rattle.paseto_tasks.specs.Inspect.{Inspects, InspectsNoToken, InspectsNothing, InspectsToken, IsTextLine, SaysText, footer_line, line, signature_length};

mod key;

use crate::error::{ProgramError, TokenError};
use crate::front::after;
use crate::token_kind::TokenKind;
use key::key_line;
use rusty_paseto_core::{PasetoError, UntrustedToken, from_section, split_token};
use std::alloc::{AllocError, Global};
use std::str;

/// Returns the lines that describe a token, whose content is not verified and must not be trusted, or the
/// line of a key, which tells no more than what the key begins with.
pub fn inspect(alloc: Global, text: &str) -> Result<String, ProgramError>
    ensures printed { IfOk result (λ lines. Inspects text.now (string_bytes lines)) }
    ensures refused { IfErr result (λ error. IsOutside error ⊎ InspectsNothing text.now) }
    ensures plain { IfErr result IsPlain }
{
    if let Some(line) = key_line(alloc, text)? {
        return Ok(line);
    }
    if TokenKind::of(text) == TokenKind::Other {
        return Err(ProgramError::Token(no_token(text)));
    }
    token_lines(alloc, text)
}

/// Why a text is neither a token nor a key. What begins like a JSON object in base64url is a JWT.
fn no_token(text: &str) -> TokenError
    ensures { IsPlain (ProgramError.Token result) }
{
    match after(text, "eyJ") {
        Some(_) => TokenError::Jwt,
        None => TokenError::NoToken,
    }
}

/// The lines that describe a token.
fn token_lines(alloc: Global, token: &str) -> Result<String, ProgramError>
    ensures printed { IfOk result (λ lines. InspectsToken token.now (string_bytes lines)) }
    ensures refused { IfErr result (λ error. IsOutside error ⊎ InspectsNoToken token.now) }
    ensures plain { IfErr result IsPlain }
{
    let untrusted = UntrustedToken::try_parse(token)?;
    let (version, purpose) = (untrusted.version(), untrusted.purpose());
    let payload = payload_of(token)?;
    let footer = untrusted.footer_str(alloc)?;
    let mut lines = String::new(alloc);
    push_line(&mut lines, "version: ", version)?;
    push_line(&mut lines, "purpose: ", purpose)?;
    push_footer(&mut lines, &footer)?;
    push_text_line(alloc, &mut lines, version, purpose, payload)?;
    Ok(lines)
}

/// The third section of a token.
fn payload_of(token: &str) -> Result<&str, PasetoError>
    ensures third { IfOk result (λ payload. slice_get (sections token.now) 2 ≡ Some payload.now) }
    ensures count { IfErr result (λ error. ¬ HasCount (sections token.now)) }
{
    let Some(parts) = split_token(token) else {
        return Err(PasetoError::IncorrectSize);
    };
    let required = parts.0;
    Ok(required[2])
}

/// Appends a line of a name and its value.
fn push_line(lines: &mut String, name: &str, value: &str) -> Result<(), AllocError>
    ensures { OnOk result (string_bytes lines.new ≡ string_bytes lines.old
        ++ line name.now value.now) }
{
    lines.push_str(name)?;
    lines.push_str(value)?;
    lines.push('\n')
}

/// Appends the line of a footer.
fn push_footer(lines: &mut String, footer: &Option<String>) -> Result<(), AllocError>
    ensures { OnOk result (string_bytes lines.new ≡ string_bytes lines.old
        ++ footer_line (option_map string_bytes footer.now)) }
{
    match footer {
        Some(text) => push_line(lines, "footer: ", text.as_str()),
        None => lines.push_str("no footer\n"),
    }
}

/// Appends the line of the text of a token.
fn push_text_line(
    alloc: Global,
    lines: &mut String,
    version: &str,
    purpose: &str,
    section: &str,
) -> Result<(), ProgramError>
    ensures appended { OnOk result ((added : List ℕ)
        × IsTextLine (pointwise nat_eq purpose.now (codes "public")) version.now section.now added
        × (string_bytes lines.new ≡ string_bytes lines.old ++ added)) }
    ensures refused { IfErr result (λ error. IsOutside error ⊎ ((added : List ℕ)
        → ¬ IsTextLine (pointwise nat_eq purpose.now (codes "public")) version.now section.now
        added)) }
    ensures plain { IfErr result IsPlain }
{
    if purpose == "public" {
        push_text(alloc, lines, version, section)
    } else {
        lines.push_str("text: encrypted\n")?;
        Ok(())
    }
}

/// Appends the line of the text of a public token, which is in front of the signature.
fn push_text(
    alloc: Global,
    lines: &mut String,
    version: &str,
    section: &str,
) -> Result<(), ProgramError>
    ensures appended { OnOk result ((added : List ℕ) × SaysText version.now section.now added
        × (string_bytes lines.new ≡ string_bytes lines.old ++ added)) }
    ensures refused { IfErr result (λ error. IsOutside error
        ⊎ ((added : List ℕ) → ¬ SaysText version.now section.now added)) }
    ensures plain { IfErr result IsPlain }
{
    let payload = from_section(alloc, section)?;
    let length = signature_length(version);
    if payload.len() < length {
        return Err(ProgramError::from(PasetoError::IncorrectSize));
    }
    let text = str::from_utf8(&payload[..payload.len() - length])?;
    push_line(lines, "text, not verified: ", text)?;
    Ok(())
}

/// The number of bytes in the signature of a public token of a version.
fn signature_length(version: &str) -> usize
    ensures { result ≡ signature_length version.now }
{
    if version == "v1" {
        256
    } else if version == "v3" {
        96
    } else {
        64
    }
}
