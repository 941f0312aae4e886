//! Rows of keys and signatures of version 1.

ghost use Rattle.std.specs.Prelude.{◌≡◌, IfOk};
ghost use Rattle.test_rows.specs.Rsa.{IsNoPrivateRow, IsNoPublicRow, IsPublicRow, IsRefusedRow, IsSignedRow, IsVerifiedRow};

use crate::error::RowError;
use crate::fields::{array_of, bytes_of, compare};
use paseto_rsa::{PublicKey, RsaPss};
use rand_core::TryRng;
use rusty_paseto_core::{PasetoError, SignatureScheme};
use std::alloc::Global;
use std::fmt;

/// A generator that gives one salt.
#[derive(Drop)]
struct Given {
    salt: [u8; 48],
}

impl TryRng for Given {
    type Error = fmt::Error;

    ghost may_fill = { λ before bytes after. bytes ≡ before.salt };

    fn try_next_u32(&mut self) -> Result<u32, fmt::Error> {
        Err(fmt::Error)
    }

    fn try_next_u64(&mut self) -> Result<u64, fmt::Error> {
        Err(fmt::Error)
    }

    fn try_fill_bytes(&mut self, bytes: &mut [u8]) -> Result<(), fmt::Error> {
        if bytes.len() != self.salt.len() {
            return Err(fmt::Error);
        }
        bytes.copy_from_slice(&self.salt);
        Ok(())
    }
}

/// The scheme with a salt.
fn scheme(salt: [u8; 48]) -> RsaPss<Given>
    ensures { result.rng.salt ≡ salt }
{
    RsaPss::new(Given { salt })
}

/// Checks the row of the kind with this name.
pub fn check(alloc: Global, name: &str, fields: &[&str]) -> Result<(), RowError> {
    match (name, fields) {
        ("rsa_verified", [public, message, signature]) => {
            check_valid(alloc, public, message, signature)
        }
        ("rsa_refused", [public, message, signature]) => {
            check_public(alloc, public)?;
            check_invalid(alloc, public, message, signature)
        }
        ("rsa_signed", [private, public, message, salt, signature]) => {
            check_made(alloc, private, message, salt, signature)?;
            check_valid(alloc, public, message, signature)
        }
        ("rsa_not_signed", [private, message]) => check_not_made(alloc, private, message),
        ("rsa_public", [key]) => check_public(alloc, key),
        ("rsa_no_public", [key]) => check_no_public(alloc, key),
        ("rsa_no_private", [key]) => check_no_private(alloc, key),
        _ => Err(RowError::Form),
    }
}

/// Checks that a signature is valid.
fn check_valid(alloc: Global, public: &str, message: &str, signature: &str) -> Result<(), RowError>
    ensures { IfOk result (λ _. IsVerifiedRow public.now message.now signature.now) }
{
    let (public, message) = (bytes_of(alloc, public)?, bytes_of(alloc, message)?);
    let signature = bytes_of(alloc, signature)?;
    let Some(signature) = signature.as_array::<256>() else {
        return Err(RowError::Length);
    };
    scheme([0; 48]).verify(alloc, &public, &message, signature)?;
    Ok(())
}

/// Checks that a signature is not valid.
fn check_invalid(
    alloc: Global,
    public: &str,
    message: &str,
    signature: &str,
) -> Result<(), RowError>
    ensures { IfOk result (λ _. IsRefusedRow public.now message.now signature.now) }
{
    let (public, message) = (bytes_of(alloc, public)?, bytes_of(alloc, message)?);
    let signature = bytes_of(alloc, signature)?;
    let Some(signature) = signature.as_array::<256>() else {
        return Err(RowError::Length);
    };
    match scheme([0; 48]).verify(alloc, &public, &message, signature) {
        Err(PasetoError::InvalidSignature) => Ok(()),
        Err(error) => Err(RowError::Refused(error)),
        Ok(()) => Err(RowError::Differs),
    }
}

/// Checks that the private key makes this signature with this salt.
fn check_made(
    alloc: Global,
    private: &str,
    message: &str,
    salt: &str,
    signature: &str,
) -> Result<(), RowError>
    ensures { IfOk result (λ _. IsSignedRow private.now message.now salt.now signature.now) }
{
    let (private, message) = (bytes_of(alloc, private)?, bytes_of(alloc, message)?);
    let (salt, signature) = (array_of::<48>(salt)?, array_of::<256>(signature)?);
    let made = scheme(salt).sign(alloc, &private, &message)?;
    compare(&made, &signature)?;
    Ok(())
}

/// Checks that a private key, which is one, makes no valid signature.
fn check_not_made(alloc: Global, private: &str, message: &str) -> Result<(), RowError> {
    let (private, message) = (bytes_of(alloc, private)?, bytes_of(alloc, message)?);
    match scheme([0; 48]).sign(alloc, &private, &message) {
        Err(PasetoError::RsaCipher) => Ok(()),
        Err(error) => Err(RowError::Refused(error)),
        Ok(_) => Err(RowError::Differs),
    }
}

/// Checks that this is a public key.
fn check_public(alloc: Global, key: &str) -> Result<(), RowError>
    ensures { IfOk result (λ _. IsPublicRow key.now) }
{
    let key = bytes_of(alloc, key)?;
    match PublicKey::from_der(&key) {
        Some(_) => Ok(()),
        None => Err(RowError::Differs),
    }
}

/// Checks that this is no public key.
fn check_no_public(alloc: Global, key: &str) -> Result<(), RowError>
    ensures { IfOk result (λ _. IsNoPublicRow key.now) }
{
    let key = bytes_of(alloc, key)?;
    match PublicKey::from_der(&key) {
        Some(_) => Err(RowError::Differs),
        None => Ok(()),
    }
}

/// Checks that this is no private key.
fn check_no_private(alloc: Global, key: &str) -> Result<(), RowError>
    ensures { IfOk result (λ _. IsNoPrivateRow key.now) }
{
    let key = bytes_of(alloc, key)?;
    match scheme([0; 48]).sign(alloc, &key, &[]) {
        Err(PasetoError::KeyRejected) => Ok(()),
        Err(error) => Err(RowError::Refused(error)),
        Ok(_) => Err(RowError::Differs),
    }
}
