//! The keys that are made of what two parties agreed on.

ghost use Rattle.std.specs.Prelude.{◌≡◌, ◌≤◌, ◌++◌, ◌+◌, [], length};
ghost use Rattle.sha2.specs.Sha512.{sha384};
ghost use Rattle.rusty_paseto_primitives.specs.Blake2.Keyed.{blake2b};
ghost use Rattle.paseto_wrapping.specs.Family.{digest_bytes, family_of, nonce_length};
ghost use Rattle.paseto_wrapping.specs.Sealing.{authentication_of, encryption_of, hashed};

use crate::family::{Digest, Family};
use crate::header::WrappedType;
use rusty_paseto_paserk::PaserkVersion;
use rusty_paseto_primitives::Blake2b;
use sha2::{Digest as _, Sha384};

// The domain of the encryption key, and that of the authentication key.
const ENCRYPTION: u8 = 1;

const AUTHENTICATION: u8 = 2;

// How many bytes an encryption key has.
const KEY_LENGTH: usize = 32;

/// The encryption key, followed by the nonce of the cipher.
#[tactic(auto, unfolding(crate::specs::Sealing::encryption_of))]
pub(crate) fn encryption_key(version: PaserkVersion, xk: &[u8], epk: &[u8], public: &[u8]) -> Digest
    ensures value { digest_bytes result ≡ encryption_of (family_of version)
        (hashed 1 version xk.now epk.now public.now) (epk.now ++ public.now) }
    ensures length { length (digest_bytes result) ≡ 32 + nonce_length (family_of version) }
{
    match Family::of(version) {
        Family::Nist => Digest::Of48(sha384_of(ENCRYPTION, version, xk, epk, public)),
        Family::Sodium => Digest::Of56(key_and_nonce(version, xk, epk, public)),
    }
}

/// The authentication key.
#[tactic(auto, unfolding(crate::specs::Sealing::authentication_of))]
pub(crate) fn authentication_key(
    version: PaserkVersion,
    xk: &[u8],
    epk: &[u8],
    public: &[u8],
) -> Digest
    ensures value { digest_bytes result ≡ authentication_of (family_of version)
        (hashed 2 version xk.now epk.now public.now) }
    ensures length { length (digest_bytes result) ≤ 64 }
{
    match Family::of(version) {
        Family::Nist => Digest::Of48(sha384_of(AUTHENTICATION, version, xk, epk, public)),
        Family::Sodium => Digest::Of32(blake2b_of(AUTHENTICATION, version, xk, epk, public)),
    }
}

// The SHA-384 digest of a domain, the header and what was agreed on.
fn sha384_of(domain: u8, version: PaserkVersion, xk: &[u8], epk: &[u8], public: &[u8]) -> [u8; 48]
    ensures { result ≡ sha384 (hashed domain version xk.now epk.now public.now) }
{
    let mut hasher = Sha384::new();
    hasher.update([domain]);
    hasher.update(version.mark().as_bytes());
    hasher.update(WrappedType::Seal.word().as_bytes());
    hasher.update(xk);
    hasher.update(epk);
    hasher.update(public);
    hasher.finalize()
}

// The BLAKE2b hash of a domain, the header and what was agreed on.
fn blake2b_of(domain: u8, version: PaserkVersion, xk: &[u8], epk: &[u8], public: &[u8]) -> [u8; 32]
    ensures { result ≡ blake2b [] 32 (hashed domain version xk.now epk.now public.now) }
{
    let mut hasher = Blake2b::new(&[], KEY_LENGTH);
    hasher.update(&[domain]);
    hasher.update(version.mark().as_bytes());
    hasher.update(WrappedType::Seal.word().as_bytes());
    hasher.update(xk);
    hasher.update(epk);
    hasher.update(public);
    let mut hash = [0u8; 32];
    hasher.finalize_into(&mut hash);
    hash
}

// The nonce of XChaCha20: a BLAKE2b hash of both public keys.
fn nonce_of(epk: &[u8], public: &[u8]) -> [u8; 24]
    ensures { result ≡ blake2b [] 24 (epk.now ++ public.now) }
{
    let mut hasher = Blake2b::new(&[], 24);
    hasher.update(epk);
    hasher.update(public);
    let mut nonce = [0u8; 24];
    hasher.finalize_into(&mut nonce);
    nonce
}

// The key and the nonce of XChaCha20.
fn key_and_nonce(version: PaserkVersion, xk: &[u8], epk: &[u8], public: &[u8]) -> [u8; 56]
    ensures { result ≡ blake2b [] 32 (hashed 1 version xk.now epk.now public.now)
        ++ blake2b [] 24 (epk.now ++ public.now) }
{
    let mut keys = [0u8; 56];
    let (key, nonce) = keys.split_at_mut(KEY_LENGTH);
    key.copy_from_slice(&blake2b_of(ENCRYPTION, version, xk, epk, public));
    nonce.copy_from_slice(&nonce_of(epk, public));
    keys
}
