//! The text of a wrapped key, of any version and type: the header, and the base64url encoding of a payload.

ghost use Rattle.std.specs.Prelude.{◌≡◌, ◌++◌, IfOk, IfErr, IsErr, OnOk, string_bytes};
ghost use Rattle.rusty_paseto_parts.specs.Section.{base64url};
ghost use Rattle.paseto_wrapping.specs.Error.{IsMemory};
ghost use Rattle.paseto_wrapping.specs.Header.{HasHeader, header};
ghost use Rattle.paseto_wrapping.specs.Text.{IsHeaderFault, ReadsPayload, writing};

use crate::error::WrapError;
use crate::header::{WrappedType, wrapped_header_of};
use base64::engine::general_purpose::URL_SAFE_NO_PAD;
use rusty_paseto_parts::{PasetoError, from_section};
use rusty_paseto_paserk::PaserkVersion;
use std::alloc::Global;

/// The text of a wrapped key of this payload. It fails only with `Memory`.
pub(crate) fn write_text(
    alloc: Global,
    version: PaserkVersion,
    kind: WrappedType,
    payload: &[u8],
) -> Result<String, WrapError>
    ensures ok { IfOk result (λ text. string_bytes text ≡ writing version kind payload.now) }
    ensures err { IfErr result IsMemory }
{
    let mut text = String::from_str(alloc, version.mark())?;
    text.push_str(kind.word())?;
    push_encoded(payload, &mut text)?;
    Ok(text)
}

// Appends the base64url encoding of bytes to a text. It fails only by `Memory`.
fn push_encoded(bytes: &[u8], text: &mut String) -> Result<(), WrapError>
    ensures ok { OnOk result (string_bytes text.new ≡ string_bytes text.old ++ base64url bytes.now) }
    ensures err { IfErr result IsMemory }
{
    URL_SAFE_NO_PAD.encode_string(bytes, text)?;
    Ok(())
}

/// The payload after the header of a wrapped key of this version and type.
pub(crate) fn read_payload(
    alloc: Global,
    version: PaserkVersion,
    kind: WrappedType,
    text: &str,
) -> Result<Vec<u8>, WrapError>
    ensures { ReadsPayload version kind text.now result }
{
    let encoded = behind_header(version, kind, text)?;
    match from_section(alloc, encoded) {
        Ok(payload) => Ok(payload),
        Err(PasetoError::Memory(source)) => Err(WrapError::Memory(source)),
        Err(_) => Err(WrapError::InvalidText),
    }
}

// What stands behind the header of a wrapped key of this version and type.
fn behind_header(version: PaserkVersion, kind: WrappedType, text: &str) -> Result<&str, WrapError>
    ensures found { IfOk result (λ encoded. text.now ≡ header version kind ++ encoded.now) }
    ensures none { IsErr result → ¬ HasHeader version kind text.now }
    ensures refused { IfErr result (IsHeaderFault version kind text.now) }
{
    let Some((found, found_kind, encoded)) = wrapped_header_of(text) else {
        return Err(WrapError::NoWrappedKey);
    };
    if found != version {
        return Err(WrapError::OtherVersion(found));
    }
    if found_kind != kind {
        return Err(WrapError::OtherType(found_kind));
    }
    Ok(encoded)
}
