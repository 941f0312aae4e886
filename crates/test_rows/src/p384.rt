//! Rows of signatures of version 3.

ghost use Rattle.std.specs.Prelude.{IfOk};
ghost use Rattle.test_rows.specs.P384.{IsRefusedRow, IsSignedRow, IsVerifiedRow};

use crate::error::RowError;
use crate::fields::{bytes_of, compare};
use paseto_p384::P384;
use rusty_paseto_core::{CompressedKey, PasetoError, SignatureScheme};
use std::alloc::Global;

/// Checks the row of the kind with this name.
pub fn check(alloc: Global, name: &str, fields: &[&str]) -> Result<(), RowError> {
    match name {
        "p384_verified" => check_verified(alloc, fields),
        "p384_refused" => check_refused(alloc, fields),
        "p384_signed" => check_signed(alloc, fields),
        _ => Err(RowError::Form),
    }
}

/// `PUBLIC MESSAGE SIGNATURE`
fn check_verified(alloc: Global, fields: &[&str]) -> Result<(), RowError> {
    let [public, message, signature] = *fields else {
        return Err(RowError::Form);
    };
    check_valid(alloc, public, message, signature)
}

/// Checks that a signature is valid.
fn check_valid(alloc: Global, public: &str, message: &str, signature: &str) -> Result<(), RowError>
    ensures { IfOk result (λ _. IsVerifiedRow public.now message.now signature.now) }
{
    let (public, message) = (bytes_of(alloc, public)?, bytes_of(alloc, message)?);
    let signature = bytes_of(alloc, signature)?;
    let Some(signature) = signature.as_array::<96>() else {
        return Err(RowError::Length);
    };
    P384.verify(alloc, &public, &message, signature)?;
    Ok(())
}

/// `PUBLIC MESSAGE SIGNATURE`
fn check_refused(alloc: Global, fields: &[&str]) -> Result<(), RowError> {
    let [public, message, signature] = *fields else {
        return Err(RowError::Form);
    };
    check_invalid(alloc, public, message, signature)
}

/// Checks that a signature is not valid.
fn check_invalid(
    alloc: Global,
    public: &str,
    message: &str,
    signature: &str,
) -> Result<(), RowError>
    ensures { IfOk result (λ _. IsRefusedRow public.now message.now signature.now) }
{
    let (public, message) = (bytes_of(alloc, public)?, bytes_of(alloc, message)?);
    let signature = bytes_of(alloc, signature)?;
    let Some(signature) = signature.as_array::<96>() else {
        return Err(RowError::Length);
    };
    match P384.verify(alloc, &public, &message, signature) {
        Err(PasetoError::InvalidSignature) => Ok(()),
        Err(error) => Err(RowError::Refused(error)),
        Ok(()) => Err(RowError::Differs),
    }
}

/// `PRIVATE PUBLIC MESSAGE SIGNATURE`
fn check_signed(alloc: Global, fields: &[&str]) -> Result<(), RowError> {
    let [private, public, message, signature] = *fields else {
        return Err(RowError::Form);
    };
    check_made(alloc, private, public, message, signature)
}

/// Checks that the private key has this public key, and makes this signature.
fn check_made(
    alloc: Global,
    private: &str,
    public: &str,
    message: &str,
    signature: &str,
) -> Result<(), RowError>
    ensures { IfOk result (λ _. IsSignedRow private.now public.now message.now signature.now) }
{
    let (private, message) = (bytes_of(alloc, private)?, bytes_of(alloc, message)?);
    let made_public = P384.public_key(alloc, &private)?;
    compare(&made_public, &bytes_of(alloc, public)?)?;
    let made = P384.sign(alloc, &private, &message)?;
    compare(&made, &bytes_of(alloc, signature)?)
}
