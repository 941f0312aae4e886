//! The sections of a token's text, and the base64url encoding of bytes in them.

ghost use Rattle.std.specs.Prelude.{◌≡◌, ◌≢◌, ◌↔◌, ◌++◌, ◌∷◌, ◌+◌, ◌≤◌, [], ℕ, List, length, map, take, IsTrue, IsSome, IsErr, IfOk, IfErr, IfSome, OnOk, OnErr, MatchOption, MatchResult};
ghost use Rattle.std.specs.Option.{option_map_or, option_to_list};
ghost use Rattle.std.specs.String.{string_bytes};
ghost use Rattle.base64.specs.Decode.{decoded_estimate};
ghost use Rattle.base64.specs.GeneralPurpose.{IsBytes};
ghost use Rattle.rusty_paseto_parts.specs.Error.{IsMemory};
ghost use Rattle.rusty_paseto_parts.specs.Section.{HasCount, IsNoBase64url, IsSectionFault, sections, base64url};

use crate::error::PasetoError;
use crate::sixteen::{self, read_sixteens};
use base64::engine::general_purpose::URL_SAFE_NO_PAD;
use base64::{DecodeAllocError, decoded_len_estimate};
use std::alloc::{AllocError, Global};

/// By how many bytes the room for a decoded section is longer than its bytes: a block of twelve is written as sixteen.
const ROOM: usize = 4;

/// How many bytes are encoded at once where a text is compared with an encoding, and how many characters they give.
const PIECE: usize = 48;

const ENCODED_PIECE: usize = 64;

/// The sections of a token, its parts between dots: version, purpose, payload and, if there is a fourth, the footer.
/// `None` unless there are three or four sections.
///
/// Sections may be empty, and are not checked otherwise. Does not allocate.
///
/// Source: PASETO specification, "PASETO Message Format".
pub fn split_token(token: &str) -> Option<([&str; 3], Option<&str>)>
    ensures found { IsSome result ↔ HasCount (sections token.now) }
    ensures parts { IfSome result (λ found. sections token.now
        ≡ map (λ part. part.now) found.0 ++ map (λ part. part.now) (option_to_list found.1)) }
    ensures three { IfSome result (λ found. length found.0 ≡ 3) }
{
    let (version, rest) = first_section(token);
    let (purpose, rest) = first_section(rest?);
    let (payload, rest) = first_section(rest?);
    let parts = [version, purpose, payload];
    let Some(rest) = rest else {
        return Some((parts, None));
    };
    let (footer, rest) = first_section(rest);
    match rest {
        None => Some((parts, Some(footer))),
        Some(_) => None,
    }
}

// What stands before the first dot, and what stands after it where there is one.
fn first_section(text: &str) -> (&str, Option<&str>)
    ensures { sections text.now ≡ result.0.now ∷ option_map_or
        (λ rest. sections rest.now) result.1 [] }
{
    match text.split_once('.') {
        Some((section, rest)) => (section, Some(rest)),
        None => (text, None),
    }
}

/// The base64url encoding of bytes without padding, as in a section. It fails only with `Memory`.
///
/// Source: RFC 4648, section 5.
pub fn to_section(alloc: Global, bytes: &[u8]) -> Result<String, PasetoError>
    ensures ok { IfOk result (λ text. string_bytes text ≡ base64url bytes.now) }
    ensures err { IfErr result IsMemory }
{
    Ok(URL_SAFE_NO_PAD.encode(alloc, bytes)?)
}

/// Appends the base64url encoding of bytes without padding to a text. It fails only with `Memory`, and then the text is
/// unchanged.
///
/// Source: RFC 4648, section 5.
pub fn push_section(bytes: &[u8], out: &mut String) -> Result<(), PasetoError>
    ensures ok { OnOk result (string_bytes out.new ≡ string_bytes out.old ++ base64url bytes.now) }
    ensures same { OnErr result (string_bytes out.new ≡ string_bytes out.old) }
    ensures err { IfErr result IsMemory }
{
    URL_SAFE_NO_PAD.encode_string(bytes, out)?;
    Ok(())
}

/// Whether a section's text is the base64url encoding of the bytes without padding. Does not allocate.
///
/// Source: RFC 4648, section 5.
pub fn is_section_of(text: &str, bytes: &[u8]) -> bool
    ensures { IsTrue result ↔ (text.now ≡ base64url bytes.now) }
{
    let mut rest = text.as_bytes();
    'pieces: for piece in bytes.chunks(PIECE) {
        let Some(after) = strip_base64url(rest, piece) else {
            return false;
        };
        rest = after;
    }
    rest.is_empty()
}

// What stands after the base64url of a piece, where the text begins with it.
fn strip_base64url<'a>(text: &'a [u8], piece: &[u8]) -> Option<&'a [u8]>
    requires { length piece.now ≤ 48 }
    ensures { MatchOption result ((rest : List ℕ) → text.now ≢ base64url piece.now ++ rest)
        (λ rest. text.now ≡ base64url piece.now ++ rest.now) }
{
    let mut encoded = [0u8; ENCODED_PIECE];
    let Ok(len) = URL_SAFE_NO_PAD.encode_slice(piece, &mut encoded) else {
        unreachable!();
    };
    text.strip_prefix(&encoded[..len])
}

/// The bytes that a section's text encodes in base64url.
///
/// Decoding is strict: padding, nonzero left-over bits and a length of 1 modulo 4 are refused. `PayloadBase64Decode` is
/// returned if the text is not valid base64url, and `Memory` if an allocation fails. The empty text is valid, and
/// encodes no bytes.
///
/// Source: RFC 4648, section 5.
pub fn from_section(alloc: Global, text: &str) -> Result<Vec<u8>, PasetoError>
    ensures ok { IfOk result (λ bytes. text.now ≡ base64url bytes.items) }
    ensures bytes { IfOk result (λ bytes. IsBytes bytes.items) }
    ensures read { (bytes : List ℕ) → IsBytes bytes → text.now ≡ base64url bytes
        → MatchResult result (λ found. found.items ≡ bytes) IsMemory }
    ensures none { IsNoBase64url text.now → IsErr result }
    ensures err { IfErr result (IsSectionFault text.now) }
{
    if let Some(bytes) = read_base64url(alloc, text)? {
        return Ok(bytes);
    }
    // Why it is no base64url.
    match URL_SAFE_NO_PAD.decode(alloc, text.as_bytes()) {
        Ok(bytes) => Ok(bytes),
        Err(DecodeAllocError::DecodeError(source)) => {
            Err(PasetoError::PayloadBase64Decode { source })
        }
        Err(DecodeAllocError::OutOfMemory) => Err(PasetoError::Memory(AllocError)),
    }
}

// The bytes of which a text is the base64url, or `None` where it is none.
fn read_base64url(alloc: Global, text: &str) -> Result<Option<Vec<u8>>, AllocError>
    ensures { IfOk result (λ read. IfSome read
        (λ bytes. (text.now ≡ base64url bytes.items) × IsBytes bytes.items)) }
{
    let mut bytes = vec![in alloc; 0u8; decoded_len_estimate(text.len()) + ROOM]?;
    let Some(len) = read_into(text.as_bytes(), &mut bytes) else {
        return Ok(None);
    };
    bytes.truncate(len);
    Ok(Some(bytes))
}

// Writes the bytes of which a text is the base64url, and tells how many they are: those of the front of
// the text sixteen characters at once, and the rest by the engine.
fn read_into(text: &[u8], bytes: &mut [u8]) -> Option<usize>
    requires { decoded_estimate (length text.now) + 4 ≤ length bytes.old }
    ensures spelled { IfSome result (λ len. text.now ≡ base64url (take len bytes.new)) }
    ensures bytes { IsBytes bytes.new }
{
    let count = read_sixteens(text, bytes);
    let end = sixteen::BYTES * count;
    let rest = &text[sixteen::CHARACTERS * count..];
    match URL_SAFE_NO_PAD.decode_slice_unchecked(rest, &mut bytes[end..]) {
        Ok(len) => Some(end + len),
        Err(_) => None,
    }
}
