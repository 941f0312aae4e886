//! Private keys in PEM, once each: `tests/secrets.sh` follows what the machine code does with them.
//!
//! Each call answers 0, or 2^64 - 1 where there is no such version, a key or a text is refused, a room has another length
//! or memory was refused.

ghost use Rattle.std.specs.Prelude.{◌≡◌, ◌≢◌, ◌^◌, ◌-◌, IsSome};
ghost use Rattle.paseto_pem.specs.declared.label.Label.TheVariants.{PrivateKey as PrivateLabel};
ghost use Rattle.paseto_pem.specs.Key.{IsText, IsWritten};
ghost use Rattle.bench_calls.specs.Pem.{AreContentsOf, IsInPem, IsPemOf};
ghost use Rattle.bench_calls.specs.Versions.{OfVersion};

use crate::copying::copy_bytes;
use crate::versions::version_of;
use paseto_pem::{Label, PemVersion, private_key_from_pem, private_key_to_pem};
use rusty_paseto_parts::{PrivateKey, V1, V2, V3, V4};
use rusty_paseto_paserk::PaserkVersion;
use std::alloc::Global;
use std::str;

/// What is answered where something is refused.
const FAILED: u64 = u64::MAX;

/// Writes a private key of a version, which is named by its number. `text` has just the room for the text.
pub fn bench_pem_write(alloc: Global, version: u32, key: &[u8], text: &mut [u8]) -> u64
    ensures { result ≢ 2 ^ 64 - 1 → OfVersion version (IsPemOf key.now text.new) }
{
    match write_in(alloc, version, key, text) {
        Some(()) => 0,
        None => FAILED,
    }
}

/// Reads what `bench_pem_write` writes. `key` has just the room for the key.
pub fn bench_pem_read(alloc: Global, version: u32, text: &[u8], key: &mut [u8]) -> u64
    ensures { result ≢ 2 ^ 64 - 1 → OfVersion version (IsInPem text.now key.new) }
{
    match read_in(alloc, version, text, key) {
        Some(()) => 0,
        None => FAILED,
    }
}

/// Reads the contents of such a text, which are in DER.
pub fn bench_pem_read_contents(alloc: Global, version: u32, contents: &[u8], key: &mut [u8]) -> u64
    ensures { result ≢ 2 ^ 64 - 1 → OfVersion version (AreContentsOf contents.now key.new) }
{
    match read_contents_in(alloc, version, contents, key) {
        Some(()) => 0,
        None => FAILED,
    }
}

// Writes the key in the version of a number.
fn write_in(alloc: Global, version: u32, key: &[u8], text: &mut [u8]) -> Option<()>
    ensures { IsSome result → OfVersion version (IsPemOf key.now text.new) }
{
    match version_of(version)? {
        PaserkVersion::V1 => write::<V1>(alloc, key, text),
        PaserkVersion::V2 => write::<V2>(alloc, key, text),
        PaserkVersion::V3 => write::<V3>(alloc, key, text),
        PaserkVersion::V4 => write::<V4>(alloc, key, text),
    }
}

// Writes the key.
fn write<V: PemVersion>(alloc: Global, key: &[u8], text: &mut [u8]) -> Option<()>
    ensures { IsSome result → IsWritten V.is_private_written PrivateLabel key.now text.new }
{
    let key = PrivateKey::<V>::try_from(Vec::from_slice(alloc, key).ok()?).ok()?;
    let made = private_key_to_pem(alloc, &key.lend()).ok()?;
    copy_bytes(made.as_bytes(), text)
}

// Reads the key in the version of a number.
fn read_in(alloc: Global, version: u32, text: &[u8], key: &mut [u8]) -> Option<()>
    ensures { IsSome result → OfVersion version (IsInPem text.now key.new) }
{
    match version_of(version)? {
        PaserkVersion::V1 => read::<V1>(alloc, text, key),
        PaserkVersion::V2 => read::<V2>(alloc, text, key),
        PaserkVersion::V3 => read::<V3>(alloc, text, key),
        PaserkVersion::V4 => read::<V4>(alloc, text, key),
    }
}

// Reads the key.
fn read<V: PemVersion>(alloc: Global, text: &[u8], key: &mut [u8]) -> Option<()>
    ensures { IsSome result → IsText V.is_private_of key.new text.now }
{
    let text = str::from_utf8(text).ok()?;
    let read = private_key_from_pem::<V>(alloc, text).ok()?;
    copy_bytes(read.lend().as_bytes(), key)
}

// Reads the contents in the version of a number.
fn read_contents_in(alloc: Global, version: u32, contents: &[u8], key: &mut [u8]) -> Option<()>
    ensures { IsSome result → OfVersion version (AreContentsOf contents.now key.new) }
{
    match version_of(version)? {
        PaserkVersion::V1 => read_contents::<V1>(alloc, contents, key),
        PaserkVersion::V2 => read_contents::<V2>(alloc, contents, key),
        PaserkVersion::V3 => read_contents::<V3>(alloc, contents, key),
        PaserkVersion::V4 => read_contents::<V4>(alloc, contents, key),
    }
}

// Reads the contents.
fn read_contents<V: PemVersion>(alloc: Global, contents: &[u8], key: &mut [u8]) -> Option<()>
    ensures { IsSome result → V.is_private_of PrivateLabel contents.now key.new }
{
    let read = V::read_private(alloc, Label::PrivateKey, contents).ok()?;
    copy_bytes(&read, key)
}
