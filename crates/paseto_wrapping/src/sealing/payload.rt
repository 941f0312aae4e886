//! The payload of a sealed key, of what two parties agreed on: the tag, the ephemeral public key and the ciphertext.

ghost use Rattle.std.specs.Prelude.{◌≡◌, ◌≢◌, ◌⊎◌, ◌++◌, IfOk, IfErr};
ghost use Rattle.paseto_wrapping.specs.declared.error.WrapError.TheVariants.{WrongKey};
ghost use Rattle.paseto_wrapping.specs.Error.{IsMemory};
ghost use Rattle.paseto_wrapping.specs.Family.{digest_bytes};
ghost use Rattle.paseto_wrapping.specs.Sealing.{crypted, payload, tag_of};

use super::derivation::{authentication_key, encryption_key};
use crate::error::WrapError;
use crate::family::{self, Digest, Family, array_of, encrypted};
use crate::header::WrappedType;
use rusty_paseto_paserk::PaserkVersion;
use rusty_paseto_primitives::same_bytes;
use std::alloc::Global;

// How many bytes an encryption key has.
const KEY_LENGTH: usize = 32;

// The ciphertext of a key, or the key of a ciphertext. It fails only by `Memory`.
#[tactic(auto, unfolding(crate::specs::Sealing::crypted))]
fn crypted(
    alloc: Global,
    version: PaserkVersion,
    xk: &[u8],
    epk: &[u8],
    public: &[u8],
    bytes: &[u8],
) -> Result<Vec<u8>, WrapError>
    ensures ok { IfOk result (λ made. made.items
        ≡ crypted version xk.now epk.now public.now bytes.now) }
    ensures err { IfErr result IsMemory }
{
    let keys = encryption_key(version, xk, epk, public);
    let (key, nonce) = keys.as_bytes().split_at(KEY_LENGTH);
    encrypted(alloc, Family::of(version), &array_of(key), nonce, bytes)
}

// The tag of a ciphertext.
#[tactic(auto, unfolding(crate::specs::Sealing::tag_of))]
fn tag_of(version: PaserkVersion, xk: &[u8], epk: &[u8], public: &[u8], ciphertext: &[u8]) -> Digest
    ensures { digest_bytes result ≡ tag_of version xk.now epk.now public.now ciphertext.now }
{
    let key = authentication_key(version, xk, epk, public);
    family::tag_of(key.as_bytes(), version, WrappedType::Seal, epk, ciphertext)
}

/// The payload that seals a key. It fails only with `Memory`.
pub(crate) fn sealed(
    alloc: Global,
    version: PaserkVersion,
    xk: &[u8],
    epk: &[u8],
    public: &[u8],
    key: &[u8],
) -> Result<Vec<u8>, WrapError>
    ensures ok { IfOk result (λ made. made.items
        ≡ payload version xk.now epk.now public.now key.now) }
    ensures err { IfErr result IsMemory }
{
    let ciphertext = crypted(alloc, version, xk, epk, public, key)?;
    let tag = tag_of(version, xk, epk, public, &ciphertext);
    let mut payload = Vec::from_slice(alloc, tag.as_bytes())?;
    payload.extend_from_slice(epk)?;
    payload.extend_from_slice(&ciphertext)?;
    Ok(payload)
}

/// The key that a payload seals, whose tag is compared in one step before anything is decrypted. `WrongKey` is returned
/// if and only if the tag is another one.
pub(crate) fn opened(
    alloc: Global,
    version: PaserkVersion,
    xk: &[u8],
    epk: &[u8],
    public: &[u8],
    tag: &[u8],
    ciphertext: &[u8],
) -> Result<Vec<u8>, WrapError>
    ensures ok { IfOk result (λ key.
        (tag.now ≡ tag_of version xk.now epk.now public.now ciphertext.now)
        × (key.items ≡ crypted version xk.now epk.now public.now ciphertext.now)) }
    ensures err { IfErr result (λ error. IsMemory error ⊎ ((error ≡ WrongKey)
        × (tag.now ≢ tag_of version xk.now epk.now public.now ciphertext.now))) }
{
    let own = tag_of(version, xk, epk, public, ciphertext);
    if !same_bytes(own.as_bytes(), tag) {
        return Err(WrapError::WrongKey);
    }
    crypted(alloc, version, xk, epk, public, ciphertext)
}
