//! The ids of keys, which identify them without revealing them.

ghost use Rattle.std.specs.Prelude.{◌≡◌, ◌≤◌, ◌++◌, length, take, IfOk, IfErr, string_bytes};
ghost use Rattle.rusty_paseto_paserk.specs.declared.header.PaserkType.TheVariants.{Local as LocalKey, Public as PublicKey};
ghost use Rattle.rusty_paseto_paserk.specs.declared.header.PaserkVersion.TheVariants.{V3 as K3, V4 as K4};
ghost use Rattle.rusty_paseto_paserk.specs.Error.{IsMemory};
ghost use Rattle.rusty_paseto_paserk.specs.Id.{IdentifiesSecret, hash, id_of, id_of_text};

use crate::error::PaserkError;
use crate::header::{PaserkType, PaserkVersion};
use crate::keys::{local_to_paserk, public_to_paserk, secret_to_paserk};
use crate::text::push_encoded;
use crate::versions::{KeyPairVersion, KeyVersion};
use rusty_paseto_parts::{
    Local, PasetoAsymmetricPrivateKey, PasetoAsymmetricPublicKey, PasetoSymmetricKey, Public,
};
use rusty_paseto_primitives::Blake2b;
use sha2::{Digest, Sha384};
use std::alloc::Global;

/// How many bytes of a hash an id has.
const HASH_LEN: usize = 33;

/// The id of a key for local tokens, for example `k4.lid.` and 44 characters. It fails only with `Memory`.
///
/// Source: PASERK specification, type `lid`.
pub fn local_id<V: KeyVersion>(
    alloc: Global,
    key: &PasetoSymmetricKey<V, Local>,
) -> Result<String, PaserkError>
    ensures ok { IfOk result (λ id. string_bytes id ≡ id_of V.paserk LocalKey key.now) }
    ensures err { IfErr result IsMemory }
{
    let text = local_to_paserk(alloc, key)?;
    id_of(alloc, V::paserk_version(), PaserkType::Local, text.as_str())
}

/// The id of the private key of a key pair, for example `k4.sid.` and 44 characters.
///
/// `InvalidKey` is returned as from `secret_to_paserk`.
///
/// Source: PASERK specification, type `sid`.
pub fn secret_id<V: KeyPairVersion>(
    alloc: Global,
    key: &PasetoAsymmetricPrivateKey<'_, V, Public>,
) -> Result<String, PaserkError>
    ensures { IdentifiesSecret V.paserk V.secret_length key.now result }
{
    let text = secret_to_paserk(alloc, key)?;
    id_of(
        alloc,
        V::paserk_version(),
        PaserkType::Secret,
        text.as_str(),
    )
}

/// The id of the public key of a key pair, for example `k4.pid.` and 44 characters. It fails only with `Memory`.
///
/// Source: PASERK specification, type `pid`.
pub fn public_id<V: KeyPairVersion>(
    alloc: Global,
    key: &PasetoAsymmetricPublicKey<'_, V, Public>,
) -> Result<String, PaserkError>
    ensures ok { IfOk result (λ id. string_bytes id ≡ id_of V.paserk PublicKey key.now) }
    ensures err { IfErr result IsMemory }
{
    let text = public_to_paserk(alloc, key)?;
    id_of(
        alloc,
        V::paserk_version(),
        PaserkType::Public,
        text.as_str(),
    )
}

/// The id of the key of a text.
pub(crate) fn id_of(
    alloc: Global,
    version: PaserkVersion,
    kind: PaserkType,
    text: &str,
) -> Result<String, PaserkError>
    ensures ok { IfOk result (λ id. string_bytes id ≡ id_of_text version kind text.now) }
    ensures err { IfErr result IsMemory }
{
    let mut id = String::from_str(alloc, version.mark())?;
    id.push_str(kind.id_word())?;
    let digest = hash_of(version, id.as_str(), text);
    push_encoded(&digest, &mut id)?;
    Ok(id)
}

// The hash of a version, of a front and a text.
fn hash_of(version: PaserkVersion, front: &str, text: &str) -> [u8; 33]
    ensures { result ≡ hash version (front.now ++ text.now) }
{
    match version {
        PaserkVersion::V1 | PaserkVersion::V3 => sha384_front(front, text),
        PaserkVersion::V2 | PaserkVersion::V4 => blake2b_of(front, text),
    }
}

// The first bytes of the SHA-384 digest of a front and a text.
fn sha384_front(front: &str, text: &str) -> [u8; 33]
    ensures { result ≡ hash K3 (front.now ++ text.now) }
{
    let mut hasher = Sha384::new();
    hasher.update(front.as_bytes());
    hasher.update(text.as_bytes());
    front_of(&hasher.finalize())
}

// The first bytes of a digest.
fn front_of(digest: &[u8]) -> [u8; 33]
    requires { 33 ≤ length digest.now }
    ensures { result ≡ take 33 digest.now }
{
    let mut hash = [0u8; HASH_LEN];
    hash.copy_from_slice(&digest[..HASH_LEN]);
    hash
}

// The BLAKE2b hash of a front and a text.
fn blake2b_of(front: &str, text: &str) -> [u8; 33]
    ensures { result ≡ hash K4 (front.now ++ text.now) }
{
    let mut hasher = Blake2b::new(&[], HASH_LEN);
    hasher.update(front.as_bytes());
    hasher.update(text.as_bytes());
    let mut hash = [0u8; HASH_LEN];
    hasher.finalize_into(&mut hash);
    hash
}
