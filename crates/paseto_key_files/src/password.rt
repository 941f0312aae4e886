//! Keys under a password.

ghost use Rattle.std.specs.Prelude.{◌≡◌, ◌+◌, IfErr, IfOk, length, string_bytes};
ghost use Rattle.paseto_wrapping.specs.Family.{family_of, nonce_length};
ghost use Rattle.paseto_wrapping.specs.Password.{salt_length};
ghost use Rattle.paseto_wrapping.specs.declared.header.WrappedType.TheVariants.{LocalPassword as UnderLocal, SecretPassword as UnderSecret};
ghost use Rattle.rusty_paseto_paserk.specs.Text.{writing};
ghost use Rattle.rusty_paseto_paserk.specs.declared.header.PaserkType.TheVariants.{Local as LocalKey, Secret as SecretKey};
ghost use Rattle.paseto_key_files.specs.Held.{GivesLine, HoldsKey, HoldsNoKey};
ghost use Rattle.paseto_key_files.specs.Line.{IsLocalKey, IsPrivateKey, private_line};
ghost use Rattle.paseto_key_files.specs.Password.{Protects, ProtectsAs, ProtectsNone, ProtectsNoneAs};
ghost use Rattle.paseto_key_files.specs.Opening.{InForm, IsInForm, OpensAs, OpensAsNone, PasswordFaults, UnderPassword, most};

use crate::drawing::drawn;
use crate::error::KeyFileError;
use crate::line::{LineVersion, begins_as, local_line, local_of};
use crate::openers::Openers;
use paseto_wrapping::{
    PasswordCost, protect_local, protect_secret, unprotect_local, unprotect_secret,
};
use rand_core::TryRng;
use rusty_paseto_parts::{V1, V2, V3, V4};
use rusty_paseto_paserk::{KeyVersion, PaserkType, PaserkVersion};
use std::alloc::Global;

/// The text of a line's key under a password: `local-pw` for a key for local tokens, and `secret-pw` for a private key,
/// of the line's version. Salt and nonce are drawn after the line was read.
///
/// `PublicKey` is returned if the line begins like that of a public key, `Paserk` if it is not that of a key,
/// `Wrap(LongPassword)` if the password has 4 GiB or more, `Wrap(InvalidCost)` if PBKDF2 or Argon2id does not allow the
/// cost, and `Random` if the generator fails. Otherwise it fails only with `Memory`.
///
/// Source: PASERK specification, types `local-pw` and `secret-pw`.
pub fn protect<G: TryRng>(
    alloc: Global,
    password: &[u8],
    cost: PasswordCost,
    generator: &mut G,
    line: &str,
) -> Result<String, KeyFileError>
    ensures ok { IfOk result (λ text. Protects password.now cost
        (λ drawn. G.may_fill generator.old drawn generator.new) line.now (string_bytes text)) }
    ensures err { IfErr result (ProtectsNone password.now cost G.Error line.now) }
{
    let (version, kind) = begins_as(line)?;
    protect_in(alloc, version, kind, password, cost, generator, line)
}

fn protect_in<G: TryRng>(
    alloc: Global,
    version: PaserkVersion,
    kind: PaserkType,
    password: &[u8],
    cost: PasswordCost,
    generator: &mut G,
    line: &str,
) -> Result<String, KeyFileError>
    ensures ok { IfOk result (λ text. ProtectsAs version kind password.now cost
        (λ drawn. G.may_fill generator.old drawn generator.new) line.now (string_bytes text)) }
    ensures err { IfErr result (ProtectsNoneAs version kind password.now cost G.Error line.now) }
{
    match version {
        PaserkVersion::V1 => protect_as::<V1, G>(alloc, kind, password, cost, generator, line),
        PaserkVersion::V2 => protect_as::<V2, G>(alloc, kind, password, cost, generator, line),
        PaserkVersion::V3 => protect_as::<V3, G>(alloc, kind, password, cost, generator, line),
        PaserkVersion::V4 => protect_as::<V4, G>(alloc, kind, password, cost, generator, line),
    }
}

fn protect_as<V: LineVersion, G: TryRng>(
    alloc: Global,
    kind: PaserkType,
    password: &[u8],
    cost: PasswordCost,
    generator: &mut G,
    line: &str,
) -> Result<String, KeyFileError>
    ensures ok { IfOk result (λ text. ProtectsAs V.paserk kind password.now cost
        (λ drawn. G.may_fill generator.old drawn generator.new) line.now (string_bytes text)) }
    ensures err { IfErr result (ProtectsNoneAs V.paserk kind password.now cost G.Error line.now) }
{
    match kind {
        PaserkType::Local => protect_local_line::<V, G>(alloc, password, cost, generator, line),
        PaserkType::Secret => protect_private_line::<V, G>(alloc, password, cost, generator, line),
        PaserkType::Public => Err(KeyFileError::PublicKey),
    }
}

// The text of a key for local tokens under a password.
fn protect_local_line<V: LineVersion, G: TryRng>(
    alloc: Global,
    password: &[u8],
    cost: PasswordCost,
    generator: &mut G,
    line: &str,
) -> Result<String, KeyFileError>
    ensures ok { IfOk result (λ text. ProtectsAs V.paserk LocalKey password.now cost
        (λ drawn. G.may_fill generator.old drawn generator.new) line.now (string_bytes text)) }
    ensures err { IfErr result (ProtectsNoneAs V.paserk LocalKey password.now cost G.Error line.now) }
{
    let key = local_of::<V>(alloc, line)?;
    let version = V::paserk_version();
    let drawn = drawn(
        alloc,
        generator,
        salt_length(version) + nonce_length(version),
    )?;
    let (salt, nonce) = drawn.split_at(salt_length(version));
    Ok(protect_local(alloc, password, cost, salt, nonce, &key)?)
}

// The text of a private key under a password.
fn protect_private_line<V: LineVersion, G: TryRng>(
    alloc: Global,
    password: &[u8],
    cost: PasswordCost,
    generator: &mut G,
    line: &str,
) -> Result<String, KeyFileError>
    ensures ok { IfOk result (λ text. ProtectsAs V.paserk SecretKey password.now cost
        (λ drawn. G.may_fill generator.old drawn generator.new) line.now (string_bytes text)) }
    ensures err { IfErr result (ProtectsNoneAs V.paserk SecretKey password.now cost G.Error line.now) }
{
    let key = V::private_of(alloc, line)?;
    let version = V::paserk_version();
    let drawn = drawn(
        alloc,
        generator,
        salt_length(version) + nonce_length(version),
    )?;
    let (salt, nonce) = drawn.split_at(salt_length(version));
    Ok(protect_secret(alloc, password, cost, salt, nonce, &key.lend())?)
}

// How many bytes the salt of a version has.
fn salt_length(version: PaserkVersion) -> usize
    ensures { result ≡ salt_length (family_of version) }
{
    match version {
        PaserkVersion::V1 | PaserkVersion::V3 => 32,
        PaserkVersion::V2 | PaserkVersion::V4 => 16,
    }
}

// How many bytes the nonce of a version has.
fn nonce_length(version: PaserkVersion) -> usize
    ensures { result ≡ nonce_length (family_of version) }
{
    match version {
        PaserkVersion::V1 | PaserkVersion::V3 => 16,
        PaserkVersion::V2 | PaserkVersion::V4 => 24,
    }
}

/// The line of the key for local tokens that a text holds under the password.
pub(crate) fn local_by_password(
    alloc: Global,
    openers: &Openers<'_>,
    version: PaserkVersion,
    text: &str,
) -> Result<String, KeyFileError>
    ensures { GivesLine (OpensAs version UnderLocal openers.now text.now)
        (OpensAsNone version UnderLocal openers.now text.now) result }
{
    let Some(password) = openers.password else {
        return Err(KeyFileError::NeedsPassword);
    };
    match version {
        PaserkVersion::V1 => local_under::<V1>(alloc, password, text),
        PaserkVersion::V2 => local_under::<V2>(alloc, password, text),
        PaserkVersion::V3 => local_under::<V3>(alloc, password, text),
        PaserkVersion::V4 => local_under::<V4>(alloc, password, text),
    }
}

/// The line of the private key that a text holds under the password.
pub(crate) fn private_by_password(
    alloc: Global,
    openers: &Openers<'_>,
    version: PaserkVersion,
    text: &str,
) -> Result<String, KeyFileError>
    ensures { GivesLine (OpensAs version UnderSecret openers.now text.now)
        (OpensAsNone version UnderSecret openers.now text.now) result }
{
    let Some(password) = openers.password else {
        return Err(KeyFileError::NeedsPassword);
    };
    match version {
        PaserkVersion::V1 => private_under::<V1>(alloc, password, text),
        PaserkVersion::V2 => private_under::<V2>(alloc, password, text),
        PaserkVersion::V3 => private_under::<V3>(alloc, password, text),
        PaserkVersion::V4 => private_under::<V4>(alloc, password, text),
    }
}

// The line of the key for local tokens that a text holds under a password, in one version.
fn local_under<V: LineVersion>(
    alloc: Global,
    password: &[u8],
    text: &str,
) -> Result<String, KeyFileError>
    ensures { GivesLine (HoldsKey IsLocalKey (writing V.paserk LocalKey)
        (UnderPassword V.paserk UnderLocal password.now) text.now)
        (HoldsNoKey IsLocalKey (UnderPassword V.paserk UnderLocal password.now)
        (PasswordFaults V.paserk UnderLocal password.now) text.now) result }
{
    match unprotect_local::<V>(alloc, password, bound(), text) {
        Ok(key) => local_line(alloc, &key),
        Err(error) => Err(KeyFileError::from(error)),
    }
}

// The line of the private key that a text holds under a password, in one version.
fn private_under<V: LineVersion>(
    alloc: Global,
    password: &[u8],
    text: &str,
) -> Result<String, KeyFileError>
    ensures { GivesLine (HoldsKey (IsPrivateKey V.paserk) (private_line V.paserk)
        (InForm V.paserk (UnderPassword V.paserk UnderSecret password.now)) text.now)
        (HoldsNoKey (IsInForm V.paserk) (UnderPassword V.paserk UnderSecret password.now)
        (PasswordFaults V.paserk UnderSecret password.now) text.now) result }
{
    match unprotect_secret::<V>(alloc, password, bound(), text) {
        Ok(key) => V::private_line(alloc, &key),
        Err(error) => Err(KeyFileError::from(error)),
    }
}

// The bound of what a text may ask for.
fn bound() -> PasswordCost
    ensures { result ≡ most }
{
    PasswordCost::most()
}
