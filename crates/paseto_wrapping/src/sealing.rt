//! Keys for local tokens that are sealed to a public key, in versions 2, 3 and 4: anyone who has the public key can
//! seal, and the private key unseals. Version 1, which uses RSA, is not supported: `V1` is not a `KeyPairVersion`.

ghost use Rattle.std.specs.Prelude.{◌≡◌, length, IfOk, IfErr, string_bytes};
ghost use Rattle.paseto_wrapping.specs.declared.header.WrappedType.TheVariants.{Seal};
ghost use Rattle.paseto_wrapping.specs.Family.{family_of};
ghost use Rattle.paseto_wrapping.specs.Reading.{InText, TextFaults, Unwraps, UnwrapsKey};
ghost use Rattle.paseto_wrapping.specs.Sealing.{IsOpenFault, IsSealFault, IsSealed, IsSealing, SealsFor, secret_length};

mod derivation;
mod p384;
mod payload;
mod x25519;

use crate::error::WrapError;
use crate::family::{Family, array_of};
use crate::header::WrappedType;
use crate::keys::local_key;
use crate::text::{read_payload, write_text};
use rusty_paseto_parts::{
    Key, Local, PasetoAsymmetricPrivateKey, PasetoAsymmetricPublicKey, PasetoSymmetricKey, Public,
};
use rusty_paseto_paserk::{KeyPairVersion, PaserkVersion};
use std::alloc::Global;

/// The text of a key for local tokens, sealed to a public key, for example `k4.seal.` and 128 characters.
///
/// `ephemeral` is a secret key for a single use: draw fresh random bytes for each call, 32 in versions 2 and 4 and 48
/// in version 3. It is not wiped.
///
/// `InvalidPrivateKey` is returned if and only if the ephemeral key is not valid, which in version 3 means 0 or a
/// number not below n, and never happens in the others; `InvalidPoint` if the public key is not a point; and
/// `SmallOrder` if no secret can be shared with it, which never happens in version 3. Otherwise it fails only with
/// `Memory`.
///
/// Source: PASERK specification, type `seal`.
pub fn seal<V: KeyPairVersion, const N: usize>(
    alloc: Global,
    public: &PasetoAsymmetricPublicKey<'_, V, Public>,
    ephemeral: &Key<N>,
    key: &PasetoSymmetricKey<V, Local>,
) -> Result<String, WrapError>
    requires { N ≡ secret_length (family_of V.paserk) }
    ensures ok { IfOk result (λ text. IsSealed V.paserk public.now ephemeral.now key.now (string_bytes text)) }
    ensures err { IfErr result (IsSealFault (family_of V.paserk) public.now ephemeral.now) }
{
    let version = V::paserk_version();
    let sealed = sealed_payload(
        alloc,
        version,
        public.as_bytes(),
        ephemeral.as_bytes(),
        key.as_bytes(),
    )?;
    write_text(alloc, version, WrappedType::Seal, &sealed)
}

// The payload that seals a key to a public key.
fn sealed_payload(
    alloc: Global,
    version: PaserkVersion,
    public: &[u8],
    ephemeral: &[u8],
    key: &[u8],
) -> Result<Vec<u8>, WrapError>
    requires { length ephemeral.now ≡ secret_length (family_of version) }
    ensures ok { IfOk result (λ made. IsSealing (family_of version) version public.now ephemeral.now key.now made.items) }
    ensures err { IfErr result (IsSealFault (family_of version) public.now ephemeral.now) }
{
    match Family::of(version) {
        Family::Nist => p384::seal(alloc, version, public, ephemeral, key),
        Family::Sodium => x25519::seal(alloc, version, public, &array_of(ephemeral), key),
    }
}

/// The key for local tokens that is sealed to the public key of this private key.
///
/// Reading is strict: `NoWrappedKey`, `OtherVersion` and `OtherType` are returned if the text does not begin like a
/// sealed key of the version, `InvalidText` if what follows is not the base64url encoding of 96 bytes, or of 129 in
/// version 3, `InvalidPrivateKey` if the private key is not valid, `InvalidPoint` in version 3 and `SmallOrder` in the
/// others if no secret can be shared with the ephemeral public key, and `WrongKey` if the text was sealed to another
/// public key or was modified. The tag is compared in one step, before anything is decrypted.
///
/// Source: PASERK specification, type `seal`.
pub fn unseal<V: KeyPairVersion>(
    alloc: Global,
    private: &PasetoAsymmetricPrivateKey<'_, V, Public>,
    text: &str,
) -> Result<PasetoSymmetricKey<V, Local>, WrapError>
    ensures { let family = family_of V.paserk in
        UnwrapsKey (λ key. length key ≡ 32)
        (InText V.paserk Seal (SealsFor family V.paserk private.now))
        (TextFaults V.paserk Seal (IsOpenFault family V.paserk private.now)) text.now result }
{
    let bytes = unsealed_text(alloc, V::paserk_version(), private.as_bytes(), text)?;
    local_key(bytes)
}

// The bytes of the key that a text seals.
fn unsealed_text(
    alloc: Global,
    version: PaserkVersion,
    private: &[u8],
    text: &str,
) -> Result<Vec<u8>, WrapError>
    ensures { Unwraps (InText version Seal (SealsFor (family_of version) version private.now))
        (TextFaults version Seal (IsOpenFault (family_of version) version private.now)) text.now result }
{
    match read_payload(alloc, version, WrappedType::Seal, text) {
        Ok(payload) => opened_payload(alloc, version, private, &payload),
        Err(error) => Err(error),
    }
}

// The bytes of the key that a payload seals.
fn opened_payload(
    alloc: Global,
    version: PaserkVersion,
    private: &[u8],
    payload: &[u8],
) -> Result<Vec<u8>, WrapError>
    ensures { Unwraps (SealsFor (family_of version) version private.now)
        (IsOpenFault (family_of version) version private.now) payload.now result }
{
    match Family::of(version) {
        Family::Nist => p384::open(alloc, version, private, payload),
        Family::Sodium => x25519::open(alloc, version, private, payload),
    }
}
