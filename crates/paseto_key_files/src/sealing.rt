//! Sealed keys.

ghost use Rattle.std.specs.Prelude.{◌≡◌, IfErr, IfOk, IsTrue, length, string_bytes};
ghost use Rattle.rusty_paseto_paserk.specs.Text.{writing};
ghost use Rattle.rusty_paseto_paserk.specs.declared.header.PaserkType.TheVariants.{Local as LocalKey, Public as PublicKeys, Secret as SecretKey};
ghost use Rattle.paseto_key_files.specs.Held.{GivesLine, HoldsKey, HoldsNoKey};
ghost use Rattle.paseto_key_files.specs.Line.{IsLocalKey, IsWritingOf};
ghost use Rattle.paseto_key_files.specs.Opening.{ByKey, ByNoKey, SealFaults, Seals, Unseals, UnsealsNone};
ghost use Rattle.paseto_key_files.specs.Sealing.{IsSealedTo, SealsAs, SealsLine, SealsNone, SealsNoneAs, SealsNoneBy};
ghost use Rattle.paseto_key_files.specs.Wrapping.{IsOpenerFault};
ghost use Rattle.paseto_wrapping.specs.Family.{family_of};
ghost use Rattle.paseto_wrapping.specs.Sealing.{secret_length};

use crate::drawing::drawn_key;
use crate::error::KeyFileError;
use crate::line::{local_line, local_of};
use crate::openers::Openers;
use paseto_wrapping::{seal as seal_key, unseal};
use rand_core::TryRng;
use rusty_paseto_parts::{PrivateKey, PublicKey, V2, V3, V4};
use rusty_paseto_paserk::{
    KeyPairVersion, PaserkError, PaserkType, PaserkVersion, header_of, private_key_from_paserk,
    public_key_from_paserk,
};
use std::alloc::Global;

/// The text (`seal`) of the key of a line for local tokens, sealed to the public key of another line of the same
/// version: 2, 3 or 4. The ephemeral key is drawn after the lines were read.
///
/// `Paserk` is returned if the line is not that of a key for local tokens, `OtherOpener` if the public line is not that
/// of a public key, `NoSealing` if they are of version 1, `Wrap(InvalidPoint)` and `Wrap(SmallOrder)` if no secret can
/// be shared with the public key, `Wrap(InvalidPrivateKey)` if the random bytes in version 3 are not a private key of
/// P-384, which happens less than once in 2^189 times with a good generator, and `Random` if the generator fails.
/// Otherwise it fails only with `Memory`.
///
/// Source: PASERK specification, type `seal`.
pub fn seal<G: TryRng>(
    alloc: Global,
    public: &str,
    generator: &mut G,
    line: &str,
) -> Result<String, KeyFileError>
    ensures ok { IfOk result (λ text. SealsLine public.now
        (λ drawn. G.may_fill generator.old drawn generator.new) line.now (string_bytes text)) }
    ensures err { IfErr result (SealsNone public.now
        (λ drawn. G.may_fill generator.old drawn generator.new) G.Error line.now) }
{
    match header_of(line) {
        Some((version, PaserkType::Local, _)) => seal_in(alloc, version, public, generator, line),
        Some((_, kind, _)) => Err(KeyFileError::Paserk(PaserkError::OtherType(kind))),
        None => Err(KeyFileError::Paserk(PaserkError::NoKey)),
    }
}

fn seal_in<G: TryRng>(
    alloc: Global,
    version: PaserkVersion,
    public: &str,
    generator: &mut G,
    line: &str,
) -> Result<String, KeyFileError>
    ensures ok { IfOk result (λ text. SealsAs version public.now
        (λ drawn. G.may_fill generator.old drawn generator.new) line.now (string_bytes text)) }
    ensures err { IfErr result (SealsNoneAs version public.now
        (λ drawn. G.may_fill generator.old drawn generator.new) G.Error line.now) }
{
    match version {
        PaserkVersion::V1 => Err(KeyFileError::NoSealing),
        PaserkVersion::V2 => seal_as::<V2, 32, G>(alloc, public, generator, line),
        PaserkVersion::V3 => seal_as::<V3, 48, G>(alloc, public, generator, line),
        PaserkVersion::V4 => seal_as::<V4, 32, G>(alloc, public, generator, line),
    }
}

// The text of a sealed key, in one version, whose ephemeral keys have N bytes.
fn seal_as<V: KeyPairVersion, const N: usize, G: TryRng>(
    alloc: Global,
    public: &str,
    generator: &mut G,
    line: &str,
) -> Result<String, KeyFileError>
    requires { N ≡ secret_length (family_of V.paserk) }
    ensures ok { IfOk result (λ text. IsSealedTo V.paserk (λ key. IsTrue (V.is_public_key key)) public.now
        (λ drawn. G.may_fill generator.old drawn generator.new) line.now (string_bytes text)) }
    ensures err { IfErr result (SealsNoneBy V.paserk (λ key. IsTrue (V.is_public_key key)) public.now
        (λ drawn. G.may_fill generator.old drawn generator.new) G.Error line.now) }
{
    let key = local_of::<V>(alloc, line)?;
    let public = public_of::<V>(alloc, public)?;
    let ephemeral = drawn_key::<N, G>(generator)?;
    Ok(seal_key(alloc, &public.lend(), &ephemeral, &key)?)
}

// The public key of a line.
fn public_of<V: KeyPairVersion>(alloc: Global, line: &str) -> Result<PublicKey<V>, KeyFileError>
    ensures found { IfOk result (λ key. IsWritingOf V.paserk PublicKeys
        (λ key. IsTrue (V.is_public_key key)) key line.now) }
    ensures refused { IfErr result (IsOpenerFault V.paserk PublicKeys
        (λ key. IsTrue (V.is_public_key key)) line.now) }
{
    match public_key_from_paserk(alloc, line) {
        Ok(key) => Ok(key),
        Err(error) => Err(KeyFileError::of_opener(error)),
    }
}

/// The line of the key for local tokens that is sealed in a text.
pub(crate) fn unsealed(
    alloc: Global,
    openers: &Openers<'_>,
    version: PaserkVersion,
    text: &str,
) -> Result<String, KeyFileError>
    ensures { GivesLine (Unseals version openers.now text.now)
        (UnsealsNone version openers.now text.now) result }
{
    match (version, openers.key) {
        (PaserkVersion::V1, _) => Err(KeyFileError::NoSealing),
        (_, None) => Err(KeyFileError::NeedsKey),
        (PaserkVersion::V2, Some(opener)) => unsealed_with::<V2>(alloc, opener, text),
        (PaserkVersion::V3, Some(opener)) => unsealed_with::<V3>(alloc, opener, text),
        (PaserkVersion::V4, Some(opener)) => unsealed_with::<V4>(alloc, opener, text),
    }
}

// The line of the key that is sealed in a text to the public half of the opener's key, in one version.
fn unsealed_with<V: KeyPairVersion>(
    alloc: Global,
    opener: &str,
    text: &str,
) -> Result<String, KeyFileError>
    ensures { GivesLine (HoldsKey IsLocalKey (writing V.paserk LocalKey)
        (ByKey V.paserk SecretKey (λ key. length key ≡ V.secret_length) (Seals V.paserk) opener.now) text.now)
        (ByNoKey V.paserk SecretKey (λ key. length key ≡ V.secret_length) IsLocalKey (Seals V.paserk)
        (SealFaults V.paserk) opener.now text.now) result }
{
    match private_key_from_paserk::<V>(alloc, opener) {
        Ok(own) => unsealed_by(alloc, &own, text),
        Err(error) => Err(KeyFileError::of_opener(error)),
    }
}

// The line of the key that is sealed in a text for whoever has a private key.
fn unsealed_by<V: KeyPairVersion>(
    alloc: Global,
    private: &PrivateKey<V>,
    text: &str,
) -> Result<String, KeyFileError>
    ensures { GivesLine (HoldsKey IsLocalKey (writing V.paserk LocalKey)
        (Seals V.paserk private.now) text.now)
        (HoldsNoKey IsLocalKey (Seals V.paserk private.now) (SealFaults V.paserk private.now) text.now)
        result }
{
    match unseal(alloc, &private.lend(), text) {
        Ok(key) => local_line(alloc, &key),
        Err(error) => Err(KeyFileError::from(error)),
    }
}
