//! The text of a key, of any version and type: the header, and the base64url encoding of the key's bytes.

ghost use Rattle.std.specs.Prelude.{◌≡◌, ◌++◌, ⊤, IfOk, IfErr, IsErr, OnOk, string_bytes};
ghost use Rattle.rusty_paseto_parts.specs.Section.{base64url};
ghost use Rattle.rusty_paseto_paserk.specs.Error.{IsMemory};
ghost use Rattle.rusty_paseto_paserk.specs.Header.{HasHeader, header};
ghost use Rattle.rusty_paseto_paserk.specs.Text.{IsKeyFault, ReadsBytes, writing};

use crate::error::PaserkError;
use crate::header::{PaserkType, PaserkVersion, header_of};
use paseto_base64::{Alphabet, decode, encode_string};
use std::alloc::Global;

/// The text of a key of these bytes. It fails only with `Memory`.
pub(crate) fn write_key(
    alloc: Global,
    version: PaserkVersion,
    kind: PaserkType,
    bytes: &[u8],
) -> Result<String, PaserkError>
    ensures ok { IfOk result (λ text. string_bytes text ≡ writing version kind bytes.now) }
    ensures err { IfErr result IsMemory }
{
    let mut text = String::from_str(alloc, version.mark())?;
    text.push_str(kind.word())?;
    push_encoded(bytes, &mut text)?;
    Ok(text)
}

/// The bytes after the header of a key of this version and type.
pub(crate) fn read_bytes(
    alloc: Global,
    version: PaserkVersion,
    kind: PaserkType,
    text: &str,
) -> Result<Vec<u8>, PaserkError>
    ensures { ReadsBytes version kind text.now result }
{
    let payload = payload_of(version, kind, text)?;
    match decode(alloc, Alphabet::UrlSafe, payload)? {
        Some(bytes) => Ok(bytes),
        None => Err(PaserkError::InvalidKey),
    }
}

/// What follows the header of a key of this version and type.
fn payload_of(version: PaserkVersion, kind: PaserkType, text: &str) -> Result<&str, PaserkError>
    ensures found { IfOk result (λ payload. text.now ≡ header version kind ++ payload.now) }
    ensures none { IsErr result → ¬ HasHeader version kind text.now }
    ensures refused { IfErr result (IsKeyFault version kind (λ _. ⊤) text.now) }
{
    let Some((found, found_kind, payload)) = header_of(text) else {
        return Err(PaserkError::NoKey);
    };
    if found != version {
        return Err(PaserkError::OtherVersion(found));
    }
    if found_kind != kind {
        return Err(PaserkError::OtherType(found_kind));
    }
    Ok(payload)
}

/// Appends the base64url encoding of bytes to a text. It fails only with `Memory`.
pub(crate) fn push_encoded(bytes: &[u8], text: &mut String) -> Result<(), PaserkError>
    ensures ok { OnOk result (string_bytes text.new ≡ string_bytes text.old
        ++ base64url bytes.now) }
    ensures err { IfErr result IsMemory }
{
    encode_string(Alphabet::UrlSafe, bytes, text)?;
    Ok(())
}
