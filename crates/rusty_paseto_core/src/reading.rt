//! The sections of a token that is read, the same for all versions and purposes.

ghost use Rattle.std.specs.Prelude.{◌≡◌, ◌↔◌, ◌≤◌, ◌⊎◌, IsTrue, IfOk, IfErr, length, take, option_map};
ghost use Rattle.rusty_paseto_parts.specs.Error.{IsMemory};
ghost use Rattle.rusty_paseto_parts.specs.Section.{HasCount, sections};
ghost use Rattle.rusty_paseto_core.specs.Reading.{IsExpected, IsFramed, IsFramingFault};

use rusty_paseto_parts::{
    PasetoError, PurposeTrait, VersionTrait, from_section, is_section_of, split_token,
};
use std::alloc::Global;

/// The payload of a token. Refused are, in this order: a number of sections other than three or
/// four, a footer that is not the expected one, another header, and a third section that is not valid base64url.
pub(crate) fn unframe<V: VersionTrait, P: PurposeTrait>(
    alloc: Global,
    token: &str,
    footer: &[u8],
) -> Result<Vec<u8>, PasetoError>
    ensures framed { IfOk result (λ payload.
        IsFramed V.text P.text footer.now token.now payload.items) }
    ensures fault { IfErr result (λ error. IsMemory error
        ⊎ IsFramingFault V.text P.text footer.now token.now error) }
    ensures count { ¬ HasCount (sections token.now) → result ≡ Err PasetoError.IncorrectSize }
{
    let Some(parts) = split_token(token) else {
        return Err(PasetoError::IncorrectSize);
    };
    let required = parts.0;
    if !is_expected(parts.1, footer) {
        return Err(PasetoError::FooterInvalid);
    }
    if !is_header::<V, P>(required[0], required[1]) {
        return Err(PasetoError::WrongHeader);
    }
    from_section(alloc, required[2])
}

// Whether these are the version's and the purpose's texts.
fn is_header<V: VersionTrait, P: PurposeTrait>(version: &str, purpose: &str) -> bool
    ensures { IsTrue result ↔ ((version.now ≡ V.text) × (purpose.now ≡ P.text)) }
{
    version == V::default().as_str() && purpose == P::default().as_str()
}

// Whether the section that was found is the expected footer's. It may be lacking where that is empty.
fn is_expected(found: Option<&str>, footer: &[u8]) -> bool
    ensures { IsTrue result ↔ IsExpected footer.now
        (option_map (λ section. section.now) found.entry) }
{
    match found {
        Some(section) => is_section_of(section, footer),
        None => footer.is_empty(),
    }
}

/// The nonce at the beginning of a payload.
pub(crate) fn nonce_of<const N: usize>(payload: &[u8]) -> [u8; N]
    requires { N ≤ length payload.now }
    ensures { result ≡ take N payload.now }
{
    let mut nonce = [0u8; N];
    nonce.copy_from_slice(&payload[..N]);
    nonce
}
