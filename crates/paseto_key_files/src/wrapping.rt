//! Keys under a wrapping key.

ghost use Rattle.std.specs.Prelude.{◌≡◌, IfErr, IfOk, string_bytes};
ghost use Rattle.paseto_wrapping.specs.declared.header.WrappedType.TheVariants.{LocalWrap as UnderLocal, SecretWrap as UnderSecret};
ghost use Rattle.rusty_paseto_paserk.specs.Text.{writing};
ghost use Rattle.rusty_paseto_paserk.specs.declared.header.PaserkType.TheVariants.{Local as LocalKey, Secret as SecretKey};
ghost use Rattle.paseto_key_files.specs.Held.{GivesLine, HoldsKey, HoldsNoKey};
ghost use Rattle.paseto_key_files.specs.Line.{IsLocalKey, IsLocalLine, IsPrivateKey, private_line};
ghost use Rattle.paseto_key_files.specs.Opening.{ByKey, ByNoKey, InForm, IsInForm, OpensAs, OpensAsNone, PieFaults, Pies};
ghost use Rattle.paseto_key_files.specs.Wrapping.{IsOpenerFault, WrapsAs, WrapsLine, WrapsNone, WrapsNoneAs};

use crate::drawing::drawn_key;
use crate::error::KeyFileError;
use crate::line::{LineVersion, begins_as, local_line, local_of};
use crate::openers::Openers;
use paseto_wrapping::{WrappingKey, unwrap_local, unwrap_secret, wrap_local, wrap_secret};
use rand_core::TryRng;
use rusty_paseto_parts::{Key, Local, PasetoSymmetricKey, V1, V2, V3, V4};
use rusty_paseto_paserk::{PaserkType, PaserkVersion, local_from_paserk};
use std::alloc::Global;

/// The text of a line's key under a wrapping key, which is the key of another line, for local tokens of the same
/// version: `local-wrap.pie` for a key for local tokens, and `secret-wrap.pie` for a private key. The nonce is drawn
/// after the lines were read.
///
/// `PublicKey` is returned if the line begins like that of a public key, `Paserk` if it is not that of a key,
/// `OtherOpener` if the wrapping line is not that of such a key, and `Random` if the generator fails. Otherwise it
/// fails only with `Memory`.
///
/// Source: PASERK specification, types `local-wrap` and `secret-wrap`.
pub fn wrap<G: TryRng>(
    alloc: Global,
    wrapping: &str,
    generator: &mut G,
    line: &str,
) -> Result<String, KeyFileError>
    ensures ok { IfOk result (λ text. WrapsLine wrapping.now
        (λ drawn. G.may_fill generator.old drawn generator.new) line.now (string_bytes text)) }
    ensures err { IfErr result (WrapsNone wrapping.now G.Error line.now) }
{
    let (version, kind) = begins_as(line)?;
    wrap_in(alloc, version, kind, wrapping, generator, line)
}

fn wrap_in<G: TryRng>(
    alloc: Global,
    version: PaserkVersion,
    kind: PaserkType,
    wrapping: &str,
    generator: &mut G,
    line: &str,
) -> Result<String, KeyFileError>
    ensures ok { IfOk result (λ text. WrapsAs version kind wrapping.now
        (λ drawn. G.may_fill generator.old drawn generator.new) line.now (string_bytes text)) }
    ensures err { IfErr result (WrapsNoneAs version kind wrapping.now G.Error line.now) }
{
    match version {
        PaserkVersion::V1 => wrap_as::<V1, G>(alloc, kind, wrapping, generator, line),
        PaserkVersion::V2 => wrap_as::<V2, G>(alloc, kind, wrapping, generator, line),
        PaserkVersion::V3 => wrap_as::<V3, G>(alloc, kind, wrapping, generator, line),
        PaserkVersion::V4 => wrap_as::<V4, G>(alloc, kind, wrapping, generator, line),
    }
}

fn wrap_as<V: LineVersion, G: TryRng>(
    alloc: Global,
    kind: PaserkType,
    wrapping: &str,
    generator: &mut G,
    line: &str,
) -> Result<String, KeyFileError>
    ensures ok { IfOk result (λ text. WrapsAs V.paserk kind wrapping.now
        (λ drawn. G.may_fill generator.old drawn generator.new) line.now (string_bytes text)) }
    ensures err { IfErr result (WrapsNoneAs V.paserk kind wrapping.now G.Error line.now) }
{
    match kind {
        PaserkType::Local => wrap_local_line::<V, G>(alloc, wrapping, generator, line),
        PaserkType::Secret => wrap_private_line::<V, G>(alloc, wrapping, generator, line),
        PaserkType::Public => Err(KeyFileError::PublicKey),
    }
}

// The text of a key for local tokens under a wrapping key.
fn wrap_local_line<V: LineVersion, G: TryRng>(
    alloc: Global,
    wrapping: &str,
    generator: &mut G,
    line: &str,
) -> Result<String, KeyFileError>
    ensures ok { IfOk result (λ text. WrapsAs V.paserk LocalKey wrapping.now
        (λ drawn. G.may_fill generator.old drawn generator.new) line.now (string_bytes text)) }
    ensures err { IfErr result (WrapsNoneAs V.paserk LocalKey wrapping.now G.Error line.now) }
{
    let key = local_of::<V>(alloc, line)?;
    let wrapping = wrapping_of::<V>(alloc, wrapping)?;
    let nonce = drawn_key::<32, G>(generator)?;
    Ok(wrap_local(alloc, &wrapping, &nonce, &key)?)
}

// The text of a private key under a wrapping key.
fn wrap_private_line<V: LineVersion, G: TryRng>(
    alloc: Global,
    wrapping: &str,
    generator: &mut G,
    line: &str,
) -> Result<String, KeyFileError>
    ensures ok { IfOk result (λ text. WrapsAs V.paserk SecretKey wrapping.now
        (λ drawn. G.may_fill generator.old drawn generator.new) line.now (string_bytes text)) }
    ensures err { IfErr result (WrapsNoneAs V.paserk SecretKey wrapping.now G.Error line.now) }
{
    let key = V::private_of(alloc, line)?;
    let wrapping = wrapping_of::<V>(alloc, wrapping)?;
    let nonce = drawn_key::<32, G>(generator)?;
    Ok(wrap_secret(alloc, &wrapping, &nonce, &key.lend())?)
}

// The wrapping key of a line.
fn wrapping_of<V: LineVersion>(alloc: Global, line: &str) -> Result<WrappingKey<V>, KeyFileError>
    ensures found { IfOk result (λ key. IsLocalLine V.paserk key line.now) }
    ensures refused { IfErr result (IsOpenerFault V.paserk LocalKey IsLocalKey line.now) }
{
    match local_from_paserk::<V>(alloc, line) {
        Ok(key) => Ok(wrapping_key(&key)),
        Err(error) => Err(KeyFileError::of_opener(error)),
    }
}

/// The line of the key for local tokens that a text holds under a wrapping key.
pub(crate) fn local_by_key(
    alloc: Global,
    openers: &Openers<'_>,
    version: PaserkVersion,
    text: &str,
) -> Result<String, KeyFileError>
    ensures { GivesLine (OpensAs version UnderLocal openers.now text.now)
        (OpensAsNone version UnderLocal openers.now text.now) result }
{
    let Some(opener) = openers.key else {
        return Err(KeyFileError::NeedsKey);
    };
    match version {
        PaserkVersion::V1 => local_with::<V1>(alloc, opener, text),
        PaserkVersion::V2 => local_with::<V2>(alloc, opener, text),
        PaserkVersion::V3 => local_with::<V3>(alloc, opener, text),
        PaserkVersion::V4 => local_with::<V4>(alloc, opener, text),
    }
}

/// The line of the private key that a text holds under a wrapping key.
pub(crate) fn private_by_key(
    alloc: Global,
    openers: &Openers<'_>,
    version: PaserkVersion,
    text: &str,
) -> Result<String, KeyFileError>
    ensures { GivesLine (OpensAs version UnderSecret openers.now text.now)
        (OpensAsNone version UnderSecret openers.now text.now) result }
{
    let Some(opener) = openers.key else {
        return Err(KeyFileError::NeedsKey);
    };
    match version {
        PaserkVersion::V1 => private_with::<V1>(alloc, opener, text),
        PaserkVersion::V2 => private_with::<V2>(alloc, opener, text),
        PaserkVersion::V3 => private_with::<V3>(alloc, opener, text),
        PaserkVersion::V4 => private_with::<V4>(alloc, opener, text),
    }
}

// The line of the key for local tokens that a text holds under the key of the opener's line, in one version.
fn local_with<V: LineVersion>(
    alloc: Global,
    opener: &str,
    text: &str,
) -> Result<String, KeyFileError>
    ensures { GivesLine (HoldsKey IsLocalKey (writing V.paserk LocalKey)
        (ByKey V.paserk LocalKey IsLocalKey (Pies V.paserk UnderLocal) opener.now) text.now)
        (ByNoKey V.paserk LocalKey IsLocalKey IsLocalKey (Pies V.paserk UnderLocal)
        (PieFaults V.paserk UnderLocal) opener.now text.now) result }
{
    match local_from_paserk::<V>(alloc, opener) {
        Ok(own) => local_under(alloc, &wrapping_key(&own), text),
        Err(error) => Err(KeyFileError::of_opener(error)),
    }
}

// The line of the private key that a text holds under the key of the opener's line, in one version.
fn private_with<V: LineVersion>(
    alloc: Global,
    opener: &str,
    text: &str,
) -> Result<String, KeyFileError>
    ensures { GivesLine (HoldsKey (IsPrivateKey V.paserk) (private_line V.paserk)
        (ByKey V.paserk LocalKey IsLocalKey (λ wk. InForm V.paserk (Pies V.paserk UnderSecret wk)) opener.now)
        text.now)
        (ByNoKey V.paserk LocalKey IsLocalKey (IsInForm V.paserk) (Pies V.paserk UnderSecret)
        (PieFaults V.paserk UnderSecret) opener.now text.now) result }
{
    match local_from_paserk::<V>(alloc, opener) {
        Ok(own) => private_under(alloc, &wrapping_key(&own), text),
        Err(error) => Err(KeyFileError::of_opener(error)),
    }
}

// The line of the key for local tokens that a text holds under a wrapping key, in one version.
fn local_under<V: LineVersion>(
    alloc: Global,
    wrapping: &WrappingKey<V>,
    text: &str,
) -> Result<String, KeyFileError>
    ensures { GivesLine (HoldsKey IsLocalKey (writing V.paserk LocalKey)
        (Pies V.paserk UnderLocal wrapping.now) text.now)
        (HoldsNoKey IsLocalKey (Pies V.paserk UnderLocal wrapping.now)
        (PieFaults V.paserk UnderLocal wrapping.now) text.now) result }
{
    match unwrap_local(alloc, wrapping, text) {
        Ok(key) => local_line(alloc, &key),
        Err(error) => Err(KeyFileError::from(error)),
    }
}

// The line of the private key that a text holds under a wrapping key, in one version.
fn private_under<V: LineVersion>(
    alloc: Global,
    wrapping: &WrappingKey<V>,
    text: &str,
) -> Result<String, KeyFileError>
    ensures { GivesLine (HoldsKey (IsPrivateKey V.paserk) (private_line V.paserk)
        (InForm V.paserk (Pies V.paserk UnderSecret wrapping.now)) text.now)
        (HoldsNoKey (IsInForm V.paserk) (Pies V.paserk UnderSecret wrapping.now)
        (PieFaults V.paserk UnderSecret wrapping.now) text.now) result }
{
    match unwrap_secret(alloc, wrapping, text) {
        Ok(key) => V::private_line(alloc, &key),
        Err(error) => Err(KeyFileError::from(error)),
    }
}

// The wrapping key of the bytes of a key for local tokens.
fn wrapping_key<V>(key: &PasetoSymmetricKey<V, Local>) -> WrappingKey<V>
    ensures { result ≡ key.now }
{
    WrappingKey::from(Key::from(key.as_bytes()))
}
