//! Sealing and opening in versions 2 and 4: the parties agree by X25519, for which keys of Ed25519 are converted.

ghost use Rattle.std.specs.Prelude.{◌≡◌, length, IfOk, IfErr};
ghost use Rattle.paseto_wrapping.specs.declared.family.Family.TheVariants.{Sodium};
ghost use Rattle.paseto_wrapping.specs.Family.{family_of};
ghost use Rattle.paseto_wrapping.specs.Reading.{Unwraps};
ghost use Rattle.paseto_wrapping.specs.Sealing.{IsOpenFault, IsSealFault, IsSealing, SealsFor};

use super::payload::{opened, sealed};
use crate::error::WrapError;
use crate::family::array_of;
use paseto_x25519::{
    ConversionError, public_from_ed25519, public_key, secret_from_ed25519, shared_secret,
};
use rusty_paseto_paserk::PaserkVersion;
use std::alloc::Global;

// How many bytes a key of X25519, each half of a private key of Ed25519 and a tag have.
const LENGTH: usize = 32;

const PRIVATE_LENGTH: usize = 64;

const SEALED_LENGTH: usize = 96;

/// The payload that seals a key to a public key.
pub(crate) fn seal(
    alloc: Global,
    version: PaserkVersion,
    public: &[u8],
    ephemeral: &[u8; 32],
    key: &[u8],
) -> Result<Vec<u8>, WrapError>
    ensures ok { IfOk result (λ made. IsSealing Sodium version public.now ephemeral.now key.now made.items) }
    ensures err { IfErr result (IsSealFault Sodium public.now ephemeral.now) }
{
    if public.len() != LENGTH {
        return Err(WrapError::InvalidPoint);
    }
    let point = match public_from_ed25519(&array_of(public)) {
        Ok(point) => point,
        Err(ConversionError::InvalidPoint) => return Err(WrapError::InvalidPoint),
        Err(ConversionError::SmallOrder) => return Err(WrapError::SmallOrder),
    };
    let Ok(xk) = shared_secret(ephemeral, &point) else {
        return Err(WrapError::SmallOrder);
    };
    sealed(alloc, version, &xk, &public_key(ephemeral), &point, key)
}

/// The bytes of the key that a payload seals.
pub(crate) fn open(
    alloc: Global,
    version: PaserkVersion,
    private: &[u8],
    payload: &[u8],
) -> Result<Vec<u8>, WrapError>
    requires { family_of version ≡ Sodium }
    ensures { Unwraps (SealsFor Sodium version private.now) (IsOpenFault Sodium version private.now)
        payload.now result }
{
    if payload.len() != SEALED_LENGTH {
        return Err(WrapError::InvalidText);
    }
    let (tag, rest) = payload.split_at(LENGTH);
    let (epk, ciphertext) = rest.split_at(LENGTH);
    if private.len() != PRIVATE_LENGTH {
        return Err(WrapError::InvalidPrivateKey);
    }
    let (seed, half) = private.split_at(LENGTH);
    let Ok(public) = public_from_ed25519(&array_of(half)) else {
        return Err(WrapError::InvalidPrivateKey);
    };
    let secret = secret_from_ed25519(&array_of(seed));
    let Ok(xk) = shared_secret(&secret, &array_of(epk)) else {
        return Err(WrapError::SmallOrder);
    };
    opened(alloc, version, &xk, epk, &public, tag, ciphertext)
}
