//! What `inspect` prints of a key: what it begins with, and nothing behind that.

ghost use Rattle.std.specs.Prelude.{◌≡◌, IfOk, IfSome, IsNone, string_bytes};
ghost use Rattle.rusty_paseto_paserk.specs.Header.{mark};
ghost use Rattle.paseto_tasks.specs.Inspect.Key.{BeginsAsNone, InspectsKey, type_text, wrapped_type_text};

use crate::front::after;
use paseto_wrapping::{WrappedType, wrapped_header_of};
use rusty_paseto_paserk::{PaserkType, PaserkVersion, header_of};
use std::alloc::{AllocError, Global};

/// The line of a key, if a text begins like one: `key: k4.secret`.
pub fn key_line(alloc: Global, text: &str) -> Result<Option<String>, AllocError>
    ensures found { IfOk result (λ line. IfSome line (λ line. InspectsKey text.now (string_bytes line))) }
    ensures none { IfOk result (λ line. IsNone line → BeginsAsNone text.now) }
{
    if let Some((version, kind, _)) = header_of(text) {
        return Ok(Some(format!(in alloc; "key: {}{}\n", mark(version), type_text(kind))?));
    }
    if let Some((version, kind, _)) = wrapped_header_of(text) {
        return Ok(Some(format!(in alloc; "key: {}{}\n", mark(version), wrapped_text(kind))?));
    }
    match after(text, "-----BEGIN ") {
        Some(_) => Ok(Some(String::from_str(alloc, "key: PEM\n")?)),
        None => Ok(None),
    }
}

/// What the keys of a version begin with.
fn mark(version: PaserkVersion) -> &'static str
    ensures { result.now ≡ mark version }
{
    match version {
        PaserkVersion::V1 => "k1.",
        PaserkVersion::V2 => "k2.",
        PaserkVersion::V3 => "k3.",
        PaserkVersion::V4 => "k4.",
    }
}

/// The type in the header of a key.
fn type_text(kind: PaserkType) -> &'static str
    ensures { result.now ≡ type_text kind }
{
    match kind {
        PaserkType::Local => "local",
        PaserkType::Secret => "secret",
        PaserkType::Public => "public",
    }
}

/// The type in the header of a wrapped key.
fn wrapped_text(kind: WrappedType) -> &'static str
    ensures { result.now ≡ wrapped_type_text kind }
{
    match kind {
        WrappedType::LocalWrap => "local-wrap.pie",
        WrappedType::SecretWrap => "secret-wrap.pie",
        WrappedType::LocalPassword => "local-pw",
        WrappedType::SecretPassword => "secret-pw",
        WrappedType::Seal => "seal",
    }
}
