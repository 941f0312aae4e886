//! Rows of the box of version 2 and of Ed25519: `NAME FIELD..`, in hexadecimal.

ghost use Rattle.std.specs.Prelude.{◌≡◌, ◌↔◌, ◌++◌, IfOk, IsTrue};
ghost use Rattle.test_rows.specs.Schemes.{IsBoxRow, IsRefusedBoxRow, IsSignedRow, IsSigningRow, IsVerdictRow};

use crate::error::RowError;
use crate::fields::{array_of, bytes_of, compare};
use paseto_ed25519::Ed25519;
use paseto_xchacha20poly1305::XChaCha20Poly1305;
use rusty_paseto_core::{Key, PasetoError, SealedBox, SignatureScheme};
use std::alloc::Global;

/// Checks the row with this name.
pub fn check(alloc: Global, name: &str, fields: &[&str]) -> Result<(), RowError> {
    match name {
        "ed25519" => check_ed25519(alloc, fields),
        "ed25519_signed" => check_ed25519_signed(alloc, fields),
        "ed25519_valid" => check_verdict(alloc, fields, true),
        "ed25519_refused" => check_verdict(alloc, fields, false),
        "xchacha20poly1305" => check_xchacha20poly1305(alloc, fields),
        "xchacha20poly1305_refused" => check_refused(alloc, fields),
        _ => Err(RowError::Form),
    }
}

/// `SEED PUBLIC MESSAGE SIGNATURE`
fn check_ed25519(alloc: Global, fields: &[&str]) -> Result<(), RowError> {
    let [seed, public, message, signature] = *fields else {
        return Err(RowError::Form);
    };
    check_signing(alloc, seed, public, message, signature)
}

/// Checks the public key of a seed, and a signature.
fn check_signing(
    alloc: Global,
    seed: &str,
    public: &str,
    message: &str,
    signature: &str,
) -> Result<(), RowError>
    ensures { IfOk result (λ _. IsSigningRow seed.now public.now message.now signature.now) }
{
    let (seed, public) = (array_of::<32>(seed)?, array_of::<32>(public)?);
    compare(&Ed25519::public_key(&seed), &public)?;
    let message = bytes_of(alloc, message)?;
    let made = Ed25519.sign(alloc, &private_key(&seed, &public), &message)?;
    compare(&made, &bytes_of(alloc, signature)?)
}

/// A private key: a seed, and its public key.
fn private_key(seed: &[u8; 32], public: &[u8; 32]) -> [u8; 64]
    ensures { result ≡ seed.now ++ public.now }
{
    let mut bytes = [0u8; 64];
    let (front, back) = bytes.split_at_mut(32);
    front.copy_from_slice(seed);
    back.copy_from_slice(public);
    bytes
}

/// `PRIVATE PUBLIC MESSAGE SIGNED`
fn check_ed25519_signed(alloc: Global, fields: &[&str]) -> Result<(), RowError> {
    let [private, public, message, signed] = *fields else {
        return Err(RowError::Form);
    };
    check_signed(alloc, private, public, message, signed)
}

/// Checks what is signed under a private key, whose own half the public key is: the signature and the message. The key is
/// asked once.
fn check_signed(
    alloc: Global,
    private: &str,
    public: &str,
    message: &str,
    signed: &str,
) -> Result<(), RowError>
    ensures { IfOk result (λ _. IsSignedRow private.now public.now message.now signed.now) }
{
    let (private, public) = (array_of::<64>(private)?, bytes_of(alloc, public)?);
    let (message, signed) = (bytes_of(alloc, message)?, bytes_of(alloc, signed)?);
    let Some((signature, rest)) = signed.split_first_chunk::<64>() else {
        return Err(RowError::Form);
    };
    let mut signer = Ed25519::with_key(&Key::from(private))?;
    let (_seed, half) = private.split_at(32);
    compare(half, &public)?;
    compare(&signer.sign(alloc, &private, &message)?, signature)?;
    compare(&message, rest)?;
    Ok(signer.verify(alloc, &public, &message, signature)?)
}

/// `PUBLIC MESSAGE SIGNATURE`, of which the signature is to be valid or not.
fn check_verdict(alloc: Global, fields: &[&str], wanted: bool) -> Result<(), RowError> {
    let [public, message, signature] = *fields else {
        return Err(RowError::Form);
    };
    if is_valid(alloc, public, message, signature)? != wanted {
        return Err(RowError::Differs);
    }
    Ok(())
}

/// Whether the row's signature is valid.
fn is_valid(alloc: Global, public: &str, message: &str, signature: &str) -> Result<bool, RowError>
    ensures { IfOk result (λ valid. IsVerdictRow public.now message.now signature.now valid) }
{
    let (public, message) = (bytes_of(alloc, public)?, bytes_of(alloc, message)?);
    match Ed25519.verify(alloc, &public, &message, &array_of(signature)?) {
        Ok(()) => Ok(true),
        Err(PasetoError::InvalidSignature) => Ok(false),
        Err(error) => Err(RowError::Refused(error)),
    }
}

/// `KEY NONCE DATA MESSAGE SEALING`
fn check_xchacha20poly1305(alloc: Global, fields: &[&str]) -> Result<(), RowError> {
    let [key, nonce, data, message, boxed] = *fields else {
        return Err(RowError::Form);
    };
    check_box(alloc, key, nonce, data, message, boxed)
}

/// Checks that the message is sealed to the box, and that the box opens to the message.
fn check_box(
    alloc: Global,
    key: &str,
    nonce: &str,
    data: &str,
    message: &str,
    boxed: &str,
) -> Result<(), RowError>
    ensures { IfOk result (λ _. IsBoxRow key.now nonce.now «data».now message.now boxed.now) }
{
    let (key, nonce) = (array_of::<32>(key)?, array_of::<24>(nonce)?);
    let (data, message) = (bytes_of(alloc, data)?, bytes_of(alloc, message)?);
    let Some(made) = XChaCha20Poly1305.seal(alloc, &key, &nonce, &data, &message)? else {
        return Err(RowError::Sealed);
    };
    compare(&made, &bytes_of(alloc, boxed)?)?;
    let Some(opened) = XChaCha20Poly1305.open(alloc, &key, &nonce, &data, &made)? else {
        return Err(RowError::Opened);
    };
    compare(&opened, &message)
}

/// `KEY NONCE DATA SEALING`
fn check_refused(alloc: Global, fields: &[&str]) -> Result<(), RowError> {
    let [key, nonce, data, boxed] = *fields else {
        return Err(RowError::Form);
    };
    check_unopened(alloc, key, nonce, data, boxed)
}

/// Checks that the box does not open.
fn check_unopened(
    alloc: Global,
    key: &str,
    nonce: &str,
    data: &str,
    boxed: &str,
) -> Result<(), RowError>
    ensures { IfOk result (λ _. IsRefusedBoxRow key.now nonce.now «data».now boxed.now) }
{
    let (key, nonce) = (array_of::<32>(key)?, array_of::<24>(nonce)?);
    let (data, boxed) = (bytes_of(alloc, data)?, bytes_of(alloc, boxed)?);
    match XChaCha20Poly1305.open(alloc, &key, &nonce, &data, &boxed)? {
        Some(_) => Err(RowError::Differs),
        None => Ok(()),
    }
}
