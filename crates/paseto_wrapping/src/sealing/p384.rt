//! Sealing and opening in version 3: the parties agree by ECDH over P-384.

ghost use Rattle.std.specs.Prelude.{◌≡◌, IfOk, IfErr};
ghost use Rattle.paseto_wrapping.specs.declared.family.Family.TheVariants.{Nist};
ghost use Rattle.paseto_wrapping.specs.Family.{family_of};
ghost use Rattle.paseto_wrapping.specs.Reading.{Unwraps};
ghost use Rattle.paseto_wrapping.specs.Sealing.{IsOpenFault, IsSealFault, IsSealing, SealsFor};

use super::payload::{opened, sealed};
use crate::error::WrapError;
use crate::family::array_of;
use paseto_p384::{AgreementError, P384};
use rusty_paseto_core::CompressedKey;
use rusty_paseto_paserk::PaserkVersion;
use std::alloc::Global;

// How many bytes a tag, a public key and a sealed key have.
const TAG_LENGTH: usize = 48;

const PUBLIC_LENGTH: usize = 49;

const SEALED_LENGTH: usize = 129;

/// The payload that seals a key to a public key.
pub(crate) fn seal(
    alloc: Global,
    version: PaserkVersion,
    public: &[u8],
    ephemeral: &[u8],
    key: &[u8],
) -> Result<Vec<u8>, WrapError>
    ensures ok { IfOk result (λ made. IsSealing Nist version public.now ephemeral.now key.now made.items) }
    ensures err { IfErr result (IsSealFault Nist public.now ephemeral.now) }
{
    let Ok(epk) = P384.public_key(alloc, ephemeral) else {
        return Err(WrapError::InvalidPrivateKey);
    };
    if public.len() != PUBLIC_LENGTH {
        return Err(WrapError::InvalidPoint);
    }
    match P384::shared_secret(ephemeral, &array_of(public)) {
        Ok(xk) => sealed(alloc, version, &xk, &epk, public, key),
        Err(AgreementError::InvalidPrivateKey) => Err(WrapError::InvalidPrivateKey),
        Err(AgreementError::InvalidPoint) => Err(WrapError::InvalidPoint),
    }
}

/// The bytes of the key that a payload seals.
pub(crate) fn open(
    alloc: Global,
    version: PaserkVersion,
    private: &[u8],
    payload: &[u8],
) -> Result<Vec<u8>, WrapError>
    requires { family_of version ≡ Nist }
    ensures { Unwraps (SealsFor Nist version private.now) (IsOpenFault Nist version private.now)
        payload.now result }
{
    if payload.len() != SEALED_LENGTH {
        return Err(WrapError::InvalidText);
    }
    let (tag, rest) = payload.split_at(TAG_LENGTH);
    let (epk, ciphertext) = rest.split_at(PUBLIC_LENGTH);
    let Ok(public) = P384.public_key(alloc, private) else {
        return Err(WrapError::InvalidPrivateKey);
    };
    match P384::shared_secret(private, &array_of(epk)) {
        Ok(xk) => opened(alloc, version, &xk, epk, &public, tag, ciphertext),
        Err(AgreementError::InvalidPrivateKey) => Err(WrapError::InvalidPrivateKey),
        Err(AgreementError::InvalidPoint) => Err(WrapError::InvalidPoint),
    }
}
