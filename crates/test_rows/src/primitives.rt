//! Rows of the primitives, a function for each call.

ghost use Rattle.std.specs.Prelude.{◌≡◌, ◌≤◌, IfOk};
ghost use Rattle.rusty_paseto_primitives.specs.Hkdf.{hkdf};
ghost use Rattle.rusty_paseto_primitives.specs.Keystream.{xored};
ghost use Rattle.rusty_paseto_primitives.specs.Aes.Counter.{aes256_ctr_stream};
ghost use Rattle.rusty_paseto_primitives.specs.ChaCha.Stream.{xchacha20_stream};
ghost use Rattle.test_rows.specs.Primitives.{IsCodeRow, IsDerivationRow, IsDigestRow, IsMaskingRow};

use crate::error::RowError;
use crate::fields::{array_of, bytes_of, compare};
use rusty_paseto_primitives::{
    aes256_ctr_apply, blake2b_keyed, hkdf_sha384_expand, hkdf_sha384_extract, hmac_sha384,
    xchacha20_apply,
};
use std::alloc::{AllocError, Global};

/// The length of the longest key of BLAKE2b.
const MAX_KEY_LEN: usize = 64;

/// The length of the longest output of HKDF-SHA384.
const MAX_DERIVED_LEN: usize = 12240;

/// Checks the row of the call with this name.
pub fn check(alloc: Global, name: &str, fields: &[&str]) -> Result<(), RowError> {
    match name {
        "blake2b_keyed" => check_blake2b_keyed(alloc, fields),
        "xchacha20_apply" => check_xchacha20_apply(alloc, fields),
        "aes256_ctr_apply" => check_aes256_ctr_apply(alloc, fields),
        "hmac_sha384" => check_hmac_sha384(alloc, fields),
        "hkdf_sha384" => check_hkdf_sha384(alloc, fields),
        _ => Err(RowError::Form),
    }
}

/// `OUTPUT_LENGTH KEY MESSAGE OUTPUT`
fn check_blake2b_keyed(alloc: Global, fields: &[&str]) -> Result<(), RowError> {
    let [length, key, message, output] = *fields else {
        return Err(RowError::Form);
    };
    match length {
        "1" => check_digest::<1>(alloc, key, message, output),
        "16" => check_digest::<16>(alloc, key, message, output),
        "24" => check_digest::<24>(alloc, key, message, output),
        "32" => check_digest::<32>(alloc, key, message, output),
        "56" => check_digest::<56>(alloc, key, message, output),
        "64" => check_digest::<64>(alloc, key, message, output),
        _ => Err(RowError::Length),
    }
}

/// Checks a hash of `N` bytes.
fn check_digest<const N: usize>(
    alloc: Global,
    key: &str,
    message: &str,
    output: &str,
) -> Result<(), RowError>
    requires low { 1 ≤ N }
    requires high { N ≤ 64 }
    ensures { IfOk result (λ _. IsDigestRow N key.now message.now output.now) }
{
    let (key, message) = (bytes_of(alloc, key)?, bytes_of(alloc, message)?);
    if key.len() > MAX_KEY_LEN {
        return Err(RowError::Length);
    }
    let digest: [u8; N] = blake2b_keyed(&key, &message);
    compare(&digest, &bytes_of(alloc, output)?)
}

/// `KEY NONCE DATA OUTPUT`
fn check_xchacha20_apply(alloc: Global, fields: &[&str]) -> Result<(), RowError> {
    let [key, nonce, data, output] = *fields else {
        return Err(RowError::Form);
    };
    check_xchacha20(alloc, key, nonce, data, output)
}

/// Checks data encrypted by XChaCha20.
fn check_xchacha20(
    alloc: Global,
    key: &str,
    nonce: &str,
    data: &str,
    output: &str,
) -> Result<(), RowError>
    ensures { IfOk result (λ _. IsMaskingRow xchacha20_stream key.now nonce.now «data».now
        output.now) }
{
    let (key, nonce) = (array_of(key)?, array_of(nonce)?);
    let xored = xored(&key, &nonce, bytes_of(alloc, data)?);
    compare(&xored, &bytes_of(alloc, output)?)
}

/// The input, encrypted by XChaCha20.
fn xored(key: &[u8; 32], nonce: &[u8; 24], input: Vec<u8>) -> Vec<u8>
    ensures { result.items ≡ xored (xchacha20_stream key.now nonce.now) input.items }
{
    let mut output = input;
    xchacha20_apply(key, nonce, &mut output);
    output
}

/// `KEY COUNTER DATA OUTPUT`
fn check_aes256_ctr_apply(alloc: Global, fields: &[&str]) -> Result<(), RowError> {
    let [key, counter, data, output] = *fields else {
        return Err(RowError::Form);
    };
    check_aes256_ctr(alloc, key, counter, data, output)
}

/// Checks data encrypted by AES-256 in counter mode.
fn check_aes256_ctr(
    alloc: Global,
    key: &str,
    counter: &str,
    data: &str,
    output: &str,
) -> Result<(), RowError>
    ensures { IfOk result (λ _. IsMaskingRow aes256_ctr_stream key.now counter.now «data».now
        output.now) }
{
    let (key, counter) = (array_of(key)?, array_of(counter)?);
    let encrypted = encrypted(&key, &counter, bytes_of(alloc, data)?);
    compare(&encrypted, &bytes_of(alloc, output)?)
}

/// The input, encrypted by AES-256 in counter mode.
fn encrypted(key: &[u8; 32], counter: &[u8; 16], input: Vec<u8>) -> Vec<u8>
    ensures { result.items ≡ xored (aes256_ctr_stream key.now counter.now) input.items }
{
    let mut output = input;
    aes256_ctr_apply(key, counter, &mut output);
    output
}

/// `KEY MESSAGE OUTPUT`
fn check_hmac_sha384(alloc: Global, fields: &[&str]) -> Result<(), RowError> {
    let [key, message, output] = *fields else {
        return Err(RowError::Form);
    };
    check_code(alloc, key, message, output)
}

/// Checks a code of HMAC-SHA384.
fn check_code(alloc: Global, key: &str, message: &str, output: &str) -> Result<(), RowError>
    ensures { IfOk result (λ _. IsCodeRow key.now message.now output.now) }
{
    let code = hmac_sha384(&bytes_of(alloc, key)?, &bytes_of(alloc, message)?);
    compare(&code, &bytes_of(alloc, output)?)
}

/// `SALT MATERIAL INFO OUTPUT`
fn check_hkdf_sha384(alloc: Global, fields: &[&str]) -> Result<(), RowError> {
    let [salt, material, info, output] = *fields else {
        return Err(RowError::Form);
    };
    check_derivation(alloc, salt, material, info, output)
}

/// Checks what HKDF-SHA384 derives, in as many bytes as the output has.
fn check_derivation(
    alloc: Global,
    salt: &str,
    material: &str,
    info: &str,
    output: &str,
) -> Result<(), RowError>
    ensures { IfOk result (λ _. IsDerivationRow salt.now material.now info.now output.now) }
{
    let (salt, material) = (bytes_of(alloc, salt)?, bytes_of(alloc, material)?);
    let (info, output) = (bytes_of(alloc, info)?, bytes_of(alloc, output)?);
    if output.len() > MAX_DERIVED_LEN {
        return Err(RowError::Length);
    }
    let derived = derived(alloc, &salt, &material, &info, output.len())?;
    compare(&derived, &output)
}

/// So many bytes derived by HKDF-SHA384.
fn derived(
    alloc: Global,
    salt: &[u8],
    material: &[u8],
    info: &[u8],
    len: usize,
) -> Result<Vec<u8>, AllocError>
    requires { len ≤ 12240 }
    ensures { IfOk result (λ bytes. bytes.items ≡ hkdf salt.now material.now info.now len) }
{
    let mut derived = vec![in alloc; 0u8; len]?;
    hkdf_sha384_expand(&hkdf_sha384_extract(salt, material), info, &mut derived);
    Ok(derived)
}
