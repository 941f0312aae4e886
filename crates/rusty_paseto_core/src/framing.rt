//! The framing of a token, the same for all versions and purposes: a header, the payload's section,
//! and the footer's where it is written.

ghost use Rattle.std.specs.Prelude.{◌≡◌, ◌+◌, ◌/◌, ◌^◌, ◌≤◌, IfOk, IfErr, IsErr, is_some, length};
ghost use Rattle.std.specs.String.{string_bytes};
ghost use Rattle.rusty_paseto_parts.specs.Error.{IsMemory};
ghost use Rattle.rusty_paseto_core.specs.Context.{footer_of};
ghost use Rattle.rusty_paseto_core.specs.Framing.{framing};

use rusty_paseto_parts::{Footer, PasetoError, add_lengths, push_section};
use std::alloc::{AllocError, Global};

/// The token of a payload, with the footer's section where a footer is given.
pub(crate) fn frame(
    alloc: Global,
    header: &str,
    payload: &[u8],
    footer: Option<Footer<'_>>,
) -> Result<String, PasetoError>
    ensures ok { IfOk result (λ token. string_bytes token
        ≡ framing header.now payload.now (is_some footer.entry) (footer_of footer.entry)) }
    ensures err { IfErr result IsMemory }
{
    let len = framed_len(header, payload, footer)?;
    let mut token = String::with_capacity(alloc, len)?;
    token.push_str(header)?;
    push_section(payload, &mut token)?;
    let Some(footer) = footer else {
        return Ok(token);
    };
    token.push('.')?;
    push_section(footer.as_bytes(), &mut token)?;
    Ok(token)
}

// Room for a token. It fails exactly where no `usize` holds the number. A section of n bytes has a third
// more, rounded up.
fn framed_len(header: &str, payload: &[u8], footer: Option<Footer<'_>>) -> Result<usize, AllocError>
    ensures ok { let footer_length = length (footer_of footer.entry) in
        IfOk result (λ room. room ≡ length header.now
        + (length payload.now + length payload.now / 3)
        + (footer_length + footer_length / 3) + 3) }
    ensures err { let footer_length = length (footer_of footer.entry) in
        IsErr result → 2 ^ 64 ≤ length header.now + (length payload.now + length payload.now / 3)
        + (footer_length + footer_length / 3) + 3 }
{
    let footer = footer.unwrap_or_default().as_bytes();
    let sections = add_lengths(section_len(payload)?, section_len(footer)?)?;
    add_lengths(add_lengths(header.len(), sections)?, 3)
}

// A third more than the bytes, rounded down. It fails exactly where no `usize` holds the number.
fn section_len(bytes: &[u8]) -> Result<usize, AllocError>
    ensures ok { IfOk result (λ len. len ≡ length bytes.now + length bytes.now / 3) }
    ensures err { IsErr result → 2 ^ 64 ≤ length bytes.now + length bytes.now / 3 }
{
    add_lengths(bytes.len(), bytes.len() / 3)
}
