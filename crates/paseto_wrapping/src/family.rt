//! What the versions of the NIST family, 1 and 3, and those of the Sodium family, 2 and 4, differ in: the cipher and the
//! tag.

ghost use Rattle.std.specs.Prelude.{◌≡◌, ◌≤◌, ◌++◌, IfOk, IfErr, length};
ghost use Rattle.rusty_paseto_primitives.specs.Blake2.Keyed.{blake2b};
ghost use Rattle.rusty_paseto_primitives.specs.Hmac.{hmac};
ghost use Rattle.paseto_wrapping.specs.Error.{IsMemory};
ghost use Rattle.paseto_wrapping.specs.Family.{digest_bytes, encrypted, family_of, nonce_length, tag, tag_length};
ghost use Rattle.paseto_wrapping.specs.Header.{header};

use crate::error::WrapError;
use crate::header::WrappedType;
use rusty_paseto_paserk::PaserkVersion;
use rusty_paseto_primitives::{Blake2b, HmacSha384, aes256_ctr_apply, xchacha20_apply};
use std::alloc::Global;

/// The family of a version.
#[derive(Clone, Copy, Debug, PartialEq, Eq)]
pub(crate) enum Family {
    /// Versions 1 and 3: AES-256 in counter mode, SHA-384 and HMAC-SHA384.
    Nist,
    /// Versions 2 and 4: XChaCha20 and BLAKE2b.
    Sodium,
}

impl Family {
    /// The family of a version.
    pub(crate) fn of(version: PaserkVersion) -> Family
        ensures { result ≡ family_of version }
    {
        match version {
            PaserkVersion::V1 | PaserkVersion::V3 => Family::Nist,
            PaserkVersion::V2 | PaserkVersion::V4 => Family::Sodium,
        }
    }

    /// How many bytes a tag has.
    pub(crate) fn tag_length(self) -> usize
        ensures { result ≡ tag_length self }
    {
        match self {
            Family::Nist => 48,
            Family::Sodium => 32,
        }
    }

    /// How many bytes the nonce of the cipher has.
    pub(crate) fn nonce_length(self) -> usize
        ensures { result ≡ nonce_length self }
    {
        match self {
            Family::Nist => 16,
            Family::Sodium => 24,
        }
    }
}

/// A digest of 32, 48 or 56 bytes.
#[derive(Clone, Copy)]
pub(crate) enum Digest {
    Of32([u8; 32]),
    Of48([u8; 48]),
    Of56([u8; 56]),
}

impl Digest {
    /// The bytes of the digest.
    pub(crate) fn as_bytes(&self) -> &[u8]
        ensures { result.now ≡ digest_bytes self.now }
    {
        match self {
            Digest::Of32(bytes) => bytes,
            Digest::Of48(bytes) => bytes,
            Digest::Of56(bytes) => bytes,
        }
    }
}

/// A copy of bytes, encrypted or decrypted. It fails only with `Memory`.
pub(crate) fn encrypted(
    alloc: Global,
    family: Family,
    key: &[u8; 32],
    nonce: &[u8],
    bytes: &[u8],
) -> Result<Vec<u8>, WrapError>
    requires { length nonce.now ≡ nonce_length family }
    ensures ok { IfOk result (λ copy. copy.items ≡ encrypted family key.now nonce.now bytes.now) }
    ensures err { IfErr result IsMemory }
{
    let mut copy = Vec::from_slice(alloc, bytes)?;
    apply_keystream(family, key, nonce, &mut copy);
    Ok(copy)
}

// Encrypts bytes, or decrypts them, in place.
#[tactic(auto, unfolding(crate::specs::Family::encrypted))]
fn apply_keystream(family: Family, key: &[u8; 32], nonce: &[u8], bytes: &mut [u8])
    requires { length nonce.now ≡ nonce_length family }
    ensures { bytes.new ≡ encrypted family key.now nonce.now bytes.old }
{
    match family {
        Family::Nist => aes256_ctr_apply(key, &array_of(nonce), bytes),
        Family::Sodium => xchacha20_apply(key, &array_of(nonce), bytes),
    }
}

/// The tag of a message in three pieces: the header of a version and a type, a front and a back.
#[tactic(auto, unfolding(crate::specs::Family::tag))]
pub(crate) fn tag_of(
    key: &[u8],
    version: PaserkVersion,
    kind: WrappedType,
    front: &[u8],
    back: &[u8],
) -> Digest
    requires { length key.now ≤ 64 }
    ensures { digest_bytes result
        ≡ tag (family_of version) key.now (header version kind ++ front.now ++ back.now) }
{
    match Family::of(version) {
        Family::Nist => Digest::Of48(hmac_of(key, version, kind, front, back)),
        Family::Sodium => Digest::Of32(blake2b_of(key, version, kind, front, back)),
    }
}

// The HMAC-SHA384 code of a header, a front and a back.
fn hmac_of(
    key: &[u8],
    version: PaserkVersion,
    kind: WrappedType,
    front: &[u8],
    back: &[u8],
) -> [u8; 48]
    ensures { result ≡ hmac key.now (header version kind ++ front.now ++ back.now) }
{
    let mut hasher = HmacSha384::new(key);
    hasher.update(version.mark().as_bytes());
    hasher.update(kind.word().as_bytes());
    hasher.update(front);
    hasher.update(back);
    hasher.finalize()
}

// The BLAKE2b hash, of 32 bytes with a key, of a header, a front and a back.
fn blake2b_of(
    key: &[u8],
    version: PaserkVersion,
    kind: WrappedType,
    front: &[u8],
    back: &[u8],
) -> [u8; 32]
    requires { length key.now ≤ 64 }
    ensures { result ≡ blake2b key.now 32 (header version kind ++ front.now ++ back.now) }
{
    let mut hasher = Blake2b::new(key, 32);
    hasher.update(version.mark().as_bytes());
    hasher.update(kind.word().as_bytes());
    hasher.update(front);
    hasher.update(back);
    let mut hash = [0u8; 32];
    hasher.finalize_into(&mut hash);
    hash
}

/// The N bytes as an array.
pub(crate) fn array_of<const N: usize>(bytes: &[u8]) -> [u8; N]
    requires { length bytes.now ≡ N }
    ensures { result ≡ bytes.now }
{
    let mut array = [0u8; N];
    array.copy_from_slice(bytes);
    array
}
