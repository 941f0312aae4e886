//! Opening key files.

ghost use Rattle.paseto_key_files.specs.Held.{GivesLine};
ghost use Rattle.paseto_key_files.specs.Opening.{OpensAs, OpensAsNone, OpensLine, OpensNoLine, Unlocks, UnlocksNone};

use crate::error::KeyFileError;
use crate::line::{same_line, without_line_end};
use crate::openers::Openers;
use crate::password::{local_by_password, private_by_password};
use crate::pem::line_of_pem;
use crate::sealing::unsealed;
use crate::wrapping::{local_by_key, private_by_key};
use paseto_pem::holds_pem;
use paseto_wrapping::{WrappedType, wrapped_header_of};
use rusty_paseto_paserk::PaserkVersion;
use std::alloc::Global;

/// The line of the key in a key file, whatever its form.
///
/// A text with a line that begins like PEM is read as such: an Ed25519 key as version 4, a P-384 key as version 3, and
/// an RSA key as version 1. A text that begins like a wrapped PASERK key is opened with the password, within the bound
/// `PasswordCost::most()`, or with the key of `openers`. Any other text is returned as the line without being checked;
/// a line end at its end, LF or CR and LF, is removed.
///
/// `NeedsPassword` and `NeedsKey` are returned if the password or key is missing; `OtherOpener` if the key does not
/// have the version and the type that is needed; `NoSealing` for a sealed key of version 1; `Wrap` if the key cannot be
/// unwrapped; and `Pem` if a PEM text is none of these keys, with the error of `key_from_pem` of `paseto_pem`.
///
/// Source: RFC 7468; PASERK specification, types `local-pw`, `secret-pw`, `local-wrap`, `secret-wrap` and `seal`.
pub fn unlock(alloc: Global, openers: &Openers<'_>, text: &str) -> Result<String, KeyFileError>
    ensures { GivesLine (Unlocks openers.now text.now) (UnlocksNone openers.now text.now) result }
{
    if holds_pem(text) {
        line_of_pem(alloc, text)
    } else {
        opened(alloc, openers, without_line_end(text))
    }
}

// The line of the key that a line holds, or is.
fn opened(alloc: Global, openers: &Openers<'_>, text: &str) -> Result<String, KeyFileError>
    ensures { GivesLine (OpensLine openers.now text.now) (OpensNoLine openers.now text.now) result }
{
    match wrapped_header_of(text) {
        Some((version, kind, _)) => opened_as(alloc, openers, version, kind, text),
        None => same_line(alloc, text),
    }
}

// The line of the key that a line of a version and a type holds.
fn opened_as(
    alloc: Global,
    openers: &Openers<'_>,
    version: PaserkVersion,
    kind: WrappedType,
    text: &str,
) -> Result<String, KeyFileError>
    ensures { GivesLine (OpensAs version kind openers.now text.now)
        (OpensAsNone version kind openers.now text.now) result }
{
    match kind {
        WrappedType::LocalPassword => local_by_password(alloc, openers, version, text),
        WrappedType::SecretPassword => private_by_password(alloc, openers, version, text),
        WrappedType::LocalWrap => local_by_key(alloc, openers, version, text),
        WrappedType::SecretWrap => private_by_key(alloc, openers, version, text),
        WrappedType::Seal => unsealed(alloc, openers, version, text),
    }
}
