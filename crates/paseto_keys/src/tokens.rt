//! Encrypting and decrypting, signing and verifying with a key of any version.

ghost use Rattle.std.specs.Prelude.{is_some};
ghost use Rattle.rusty_paseto_core.specs.Context.{footer_of};
ghost use Rattle.rusty_paseto_paserk.specs.declared.header.PaserkType.TheVariants.{Local, Public, Secret};
ghost use Rattle.paseto_keys.specs.Tokens.{IsWrittenAs, IsReadAs};
ghost use Rattle.paseto_keys.specs.AnyKey.{parts_of};

use crate::any_key::AnyKey;
use crate::error::KeyError;
use crate::token_reader::TokenReader;
use crate::token_writer::TokenWriter;
use rusty_paseto_core::{Footer, ImplicitAssertion};
use rusty_paseto_paserk::PaserkType;
use std::alloc::Global;

/// Decrypts a local token with a key for local tokens.
///
/// The errors, of which the first is returned: `OtherType` for a key of another type; `NoAssertion` if an implicit
/// assertion is given and the key's version has none; and, as `Refused` or `Memory`, the errors of `try_decrypt` of
/// `Paseto`, in the same order.
pub fn decrypt(
    alloc: Global,
    key: &AnyKey,
    token: &str,
    footer: Option<Footer<'_>>,
    assertion: Option<ImplicitAssertion<'_>>,
) -> Result<String, KeyError>
    ensures { IsReadAs Local (parts_of key.now) (footer_of footer.entry) assertion.entry token.now result }
{
    match key.kind() {
        PaserkType::Local => key.read(alloc, token, footer, assertion),
        other => Err(KeyError::OtherType(other)),
    }
}

/// Verifies a public token with a public key.
///
/// The errors, of which the first is returned: `OtherType` for a key of another type; `NoAssertion` if an implicit
/// assertion is given and the key's version has none; and, as `Refused` or `Memory`, the errors of `try_verify` of
/// `Paseto`, in the same order.
pub fn verify(
    alloc: Global,
    key: &AnyKey,
    token: &str,
    footer: Option<Footer<'_>>,
    assertion: Option<ImplicitAssertion<'_>>,
) -> Result<String, KeyError>
    ensures { IsReadAs Public (parts_of key.now) (footer_of footer.entry) assertion.entry token.now result }
{
    match key.kind() {
        PaserkType::Public => key.read(alloc, token, footer, assertion),
        other => Err(KeyError::OtherType(other)),
    }
}

/// Encrypts a text with a key for local tokens, and with random bytes that were drawn for this token: 24 in version 2,
/// and 32 in the others.
///
/// The errors, of which the first is returned: `OtherType` for a key of another type; `NoAssertion` if an implicit
/// assertion is given and the key's version has none; `OtherLength` if another number of bytes was drawn; and, as
/// `Refused` or `Memory`, the errors of `try_encrypt` of `Paseto`.
pub fn encrypt(
    alloc: Global,
    key: &AnyKey,
    drawn: &[u8],
    text: &str,
    footer: Option<Footer<'_>>,
    assertion: Option<ImplicitAssertion<'_>>,
) -> Result<String, KeyError>
    ensures { IsWrittenAs Local (parts_of key.now) drawn.now (footer_of footer.entry)
        (is_some footer.entry) assertion.entry text.now result }
{
    match key.kind() {
        PaserkType::Local => key.write(alloc, drawn, text, footer, assertion),
        other => Err(KeyError::OtherType(other)),
    }
}

/// Signs a text with a private key, and with random bytes that were drawn for this token: 48 in version 1, and none in
/// the others.
///
/// The errors, of which the first is returned: `OtherType` for a key of another type; `NoAssertion` if an implicit
/// assertion is given and the key's version has none; `OtherLength` if another number of bytes was drawn; and, as
/// `Refused` or `Memory`, the errors of `try_sign` of `Paseto`.
pub fn sign(
    alloc: Global,
    key: &AnyKey,
    drawn: &[u8],
    text: &str,
    footer: Option<Footer<'_>>,
    assertion: Option<ImplicitAssertion<'_>>,
) -> Result<String, KeyError>
    ensures { IsWrittenAs Secret (parts_of key.now) drawn.now (footer_of footer.entry)
        (is_some footer.entry) assertion.entry text.now result }
{
    match key.kind() {
        PaserkType::Secret => key.write(alloc, drawn, text, footer, assertion),
        other => Err(KeyError::OtherType(other)),
    }
}
