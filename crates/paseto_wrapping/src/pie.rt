//! Keys under a wrapping key: the types `local-wrap.pie` and `secret-wrap.pie`.

ghost use Rattle.std.specs.Prelude.{◌≡◌, ◌≢◌, ◌+◌, ◌∷◌, ◌++◌, [], ◌≤◌, IsTrue, IfOk, IfErr, length, string_bytes, take};
ghost use Rattle.rusty_paseto_primitives.specs.Blake2.Keyed.{blake2b};
ghost use Rattle.rusty_paseto_primitives.specs.Hmac.{hmac};
ghost use Rattle.paseto_wrapping.specs.declared.header.WrappedType.TheVariants.{LocalWrap as LocalKey, SecretWrap as SecretKey};
ghost use Rattle.paseto_wrapping.specs.Error.{IsMemory};
ghost use Rattle.paseto_wrapping.specs.Family.{digest_bytes, family_of, nonce_length, tag_length};
ghost use Rattle.paseto_wrapping.specs.Keys.{IsPrivateFault, IsWrappable, IsWrappedForm, wrapped_form};
ghost use Rattle.paseto_wrapping.specs.Pie.{IsPie, IsPieFault, ak, c, payload, pie, t, x};
ghost use Rattle.paseto_wrapping.specs.Reading.{InText, IsTagFault, TextFaults, Unwraps, UnwrapsForm, UnwrapsKey};

use crate::error::WrapError;
use crate::family::{Digest, Family, array_of, encrypted, tag_of};
use crate::header::WrappedType;
use crate::keys::{WrappingKey, local_key, private_key, wrapped_form};
use crate::text::{read_payload, write_text};
use rusty_paseto_parts::{
    Key, Local, PasetoAsymmetricPrivateKey, PasetoSymmetricKey, PrivateKey, Public,
};
use rusty_paseto_paserk::{KeyVersion, PaserkVersion};
use rusty_paseto_primitives::{Blake2b, HmacSha384, same_bytes};
use std::alloc::Global;

/// The byte that the encryption key is derived with.
const ENCRYPTION: u8 = 0x80;

/// The byte that the authentication key is derived with.
const AUTHENTICATION: u8 = 0x81;

/// How many bytes a nonce has.
const NONCE_LENGTH: usize = 32;

/// The text of a key for local tokens under a wrapping key, for example `k4.local-wrap.pie.` and 128 characters. It
/// fails only with `Memory`.
///
/// Draw a fresh nonce for each text: a nonce that is used twice with a wrapping key reveals where the two keys differ.
///
/// Source: PASERK specification, type `local-wrap`.
pub fn wrap_local<V: KeyVersion>(
    alloc: Global,
    wrapping_key: &WrappingKey<V>,
    nonce: &Key<32>,
    key: &PasetoSymmetricKey<V, Local>,
) -> Result<String, WrapError>
    ensures ok { IfOk result (λ text. string_bytes text
        ≡ pie V.paserk LocalKey wrapping_key.now nonce.now key.now) }
    ensures err { IfErr result IsMemory }
{
    wrap(
        alloc,
        V::paserk_version(),
        WrappedType::LocalWrap,
        wrapping_key.as_bytes(),
        nonce.as_bytes(),
        key.as_bytes(),
    )
}

/// The text of a private key under a wrapping key. See `wrap_local` for the nonce. Of a private key of version 1, which is
/// a PrivateKeyInfo of PKCS #8, the RSAPrivateKey of PKCS #1 is wrapped.
///
/// `InvalidKey` is returned if and only if the version is 1 and the key is no private key of `RsaPss`: the PrivateKeyInfo
/// of an RSA key of 2048 bits, in DER. Otherwise it fails only with `Memory`.
///
/// Source: PASERK specification, type `secret-wrap`; RFC 8017, appendix A.1.2.
pub fn wrap_secret<V: KeyVersion>(
    alloc: Global,
    wrapping_key: &WrappingKey<V>,
    nonce: &Key<32>,
    key: &PasetoAsymmetricPrivateKey<'_, V, Public>,
) -> Result<String, WrapError>
    ensures ok { IfOk result (λ text. IsWrappable V.paserk key.now × (string_bytes text
        ≡ pie V.paserk SecretKey wrapping_key.now nonce.now (wrapped_form V.paserk key.now))) }
    ensures err { IfErr result (IsPrivateFault V.paserk key.now IsMemory) }
{
    let version = V::paserk_version();
    let Some(octets) = wrapped_form(version, key.as_bytes()) else {
        return Err(WrapError::InvalidKey);
    };
    wrap(
        alloc,
        version,
        WrappedType::SecretWrap,
        wrapping_key.as_bytes(),
        nonce.as_bytes(),
        octets,
    )
}

/// The key for local tokens that a text contains under a wrapping key.
///
/// Reading is strict: the key is returned if the text is its wrapping under some nonce, and otherwise the first of
/// these errors: `NoWrappedKey` if it does not begin like a wrapped key, `OtherVersion` and `OtherType` if it begins
/// like one of another version or type, `InvalidText` if what follows is not valid base64url or too short, `WrongKey`
/// if the tag is wrong, and `InvalidKey` if the unwrapped bytes are not 32. `Memory` may be returned in place of any
/// result but the first three.
///
/// Source: PASERK specification, type `local-wrap`.
pub fn unwrap_local<V: KeyVersion>(
    alloc: Global,
    wrapping_key: &WrappingKey<V>,
    text: &str,
) -> Result<PasetoSymmetricKey<V, Local>, WrapError>
    ensures { UnwrapsKey (λ key. length key ≡ 32)
        (InText V.paserk LocalKey (IsPie V.paserk LocalKey wrapping_key.now))
        (TextFaults V.paserk LocalKey (IsPieFault V.paserk LocalKey wrapping_key.now)) text.now result }
{
    let bytes = unwrap(
        alloc,
        V::paserk_version(),
        WrappedType::LocalWrap,
        wrapping_key.as_bytes(),
        text,
    )?;
    local_key(bytes)
}

/// The private key that a text contains under a wrapping key: in version 1 a PrivateKeyInfo of PKCS #8.
///
/// The errors are those of `unwrap_local`; `InvalidKey` is returned if the unwrapped bytes are no private key of the
/// version: in versions 2 and 4 if they are not 64, in version 3 if they are not 48, and in version 1 if they are neither
/// the RSAPrivateKey of PKCS #1 nor the PrivateKeyInfo of a private key of `RsaPss`.
///
/// Source: PASERK specification, type `secret-wrap`; RFC 8017, appendix A.1.2; RFC 5208, section 5.
pub fn unwrap_secret<V: KeyVersion>(
    alloc: Global,
    wrapping_key: &WrappingKey<V>,
    text: &str,
) -> Result<PrivateKey<V>, WrapError>
    ensures { UnwrapsForm
        (λ octets key. IsWrappedForm V.paserk octets key × IsTrue (V.is_private_key key))
        (InText V.paserk SecretKey (IsPie V.paserk SecretKey wrapping_key.now))
        (TextFaults V.paserk SecretKey (IsPieFault V.paserk SecretKey wrapping_key.now)) text.now result }
{
    let bytes = unwrap(
        alloc,
        V::paserk_version(),
        WrappedType::SecretWrap,
        wrapping_key.as_bytes(),
        text,
    )?;
    private_key(alloc, bytes)
}

// The text of the bytes of a key.
fn wrap(
    alloc: Global,
    version: PaserkVersion,
    kind: WrappedType,
    wrapping_key: &[u8; 32],
    nonce: &[u8; 32],
    key: &[u8],
) -> Result<String, WrapError>
    ensures ok { IfOk result (λ text. string_bytes text
        ≡ pie version kind wrapping_key.now nonce.now key.now) }
    ensures err { IfErr result IsMemory }
{
    let payload = payload_of(alloc, version, kind, wrapping_key, nonce, key)?;
    write_text(alloc, version, kind, &payload)
}

// The tag, the nonce and the encrypted key.
fn payload_of(
    alloc: Global,
    version: PaserkVersion,
    kind: WrappedType,
    wrapping_key: &[u8; 32],
    nonce: &[u8; 32],
    key: &[u8],
) -> Result<Vec<u8>, WrapError>
    ensures ok { IfOk result (λ made. made.items
        ≡ payload version kind wrapping_key.now nonce.now key.now) }
    ensures err { IfErr result IsMemory }
{
    let ciphertext = encrypted_key(alloc, Family::of(version), wrapping_key, nonce, key)?;
    let tag = tag(version, kind, wrapping_key, nonce, &ciphertext);
    let mut payload = Vec::from_slice(alloc, tag.as_bytes())?;
    payload.extend_from_slice(nonce)?;
    payload.extend_from_slice(&ciphertext)?;
    Ok(payload)
}

// The bytes that a text holds.
fn unwrap(
    alloc: Global,
    version: PaserkVersion,
    kind: WrappedType,
    wrapping_key: &[u8; 32],
    text: &str,
) -> Result<Vec<u8>, WrapError>
    ensures { Unwraps (InText version kind (IsPie version kind wrapping_key.now))
        (TextFaults version kind (IsPieFault version kind wrapping_key.now)) text.now result }
{
    let payload = read_payload(alloc, version, kind, text)?;
    open(alloc, version, kind, wrapping_key, &payload)
}

// The bytes that a payload holds.
fn open(
    alloc: Global,
    version: PaserkVersion,
    kind: WrappedType,
    wrapping_key: &[u8; 32],
    payload: &[u8],
) -> Result<Vec<u8>, WrapError>
    ensures { Unwraps (IsPie version kind wrapping_key.now)
        (IsPieFault version kind wrapping_key.now) payload.now result }
{
    let tag_length = Family::of(version).tag_length();
    if payload.len() < tag_length + NONCE_LENGTH {
        return Err(WrapError::InvalidText);
    }
    let (tag, rest) = payload.split_at(tag_length);
    let (nonce, ciphertext) = rest.split_at(NONCE_LENGTH);
    let nonce: [u8; 32] = array_of(nonce);
    open_parts(alloc, version, kind, wrapping_key, tag, &nonce, ciphertext)
}

// The bytes that the parts of a payload hold. The tag is compared before anything is decrypted.
fn open_parts(
    alloc: Global,
    version: PaserkVersion,
    kind: WrappedType,
    wrapping_key: &[u8; 32],
    found: &[u8],
    nonce: &[u8; 32],
    ciphertext: &[u8],
) -> Result<Vec<u8>, WrapError>
    ensures ok { IfOk result
        (λ key. (found.now ≡ t version kind wrapping_key.now nonce.now ciphertext.now)
        × (key.items ≡ c (family_of version) wrapping_key.now nonce.now ciphertext.now)) }
    ensures err { IfErr result (IsTagFault
        (found.now ≡ t version kind wrapping_key.now nonce.now ciphertext.now)) }
{
    let made = tag(version, kind, wrapping_key, nonce, ciphertext);
    if !same_bytes(made.as_bytes(), found) {
        return Err(WrapError::WrongKey);
    }
    encrypted_key(alloc, Family::of(version), wrapping_key, nonce, ciphertext)
}

// The tag of a nonce and an encrypted key.
fn tag(
    version: PaserkVersion,
    kind: WrappedType,
    wrapping_key: &[u8; 32],
    nonce: &[u8; 32],
    ciphertext: &[u8],
) -> Digest
    ensures { digest_bytes result ≡ t version kind wrapping_key.now nonce.now ciphertext.now }
{
    let key = authentication_key(Family::of(version), wrapping_key, nonce);
    tag_of(&key, version, kind, nonce, ciphertext)
}

// A key, encrypted or decrypted.
fn encrypted_key(
    alloc: Global,
    family: Family,
    wrapping_key: &[u8; 32],
    nonce: &[u8; 32],
    key: &[u8],
) -> Result<Vec<u8>, WrapError>
    ensures ok { IfOk result (λ copy. copy.items ≡ c family wrapping_key.now nonce.now key.now) }
    ensures err { IfErr result IsMemory }
{
    let x = cipher_keys(family, wrapping_key, nonce);
    let (encryption_key, cipher_nonce) = x.as_bytes().split_at(32);
    encrypted(alloc, family, &array_of(encryption_key), cipher_nonce, key)
}

// The key and the nonce of the cipher, one behind the other.
#[tactic(auto, unfolding(crate::specs::Pie::x))]
fn cipher_keys(family: Family, wrapping_key: &[u8; 32], nonce: &[u8; 32]) -> Digest
    ensures bytes { digest_bytes result ≡ x family wrapping_key.now nonce.now }
    ensures len { length (digest_bytes result) ≡ 32 + nonce_length family }
{
    match family {
        Family::Nist => Digest::Of48(hmac_of(wrapping_key, ENCRYPTION, nonce)),
        Family::Sodium => Digest::Of56(blake2b_of(wrapping_key, ENCRYPTION, nonce)),
    }
}

// The authentication key.
#[tactic(auto, unfolding(crate::specs::Pie::ak))]
fn authentication_key(family: Family, wrapping_key: &[u8; 32], nonce: &[u8; 32]) -> [u8; 32]
    ensures { result ≡ ak family wrapping_key.now nonce.now }
{
    match family {
        Family::Nist => front_of(&hmac_of(wrapping_key, AUTHENTICATION, nonce)),
        Family::Sodium => blake2b_of(wrapping_key, AUTHENTICATION, nonce),
    }
}

// The first bytes of a code.
fn front_of(code: &[u8; 48]) -> [u8; 32]
    ensures { result ≡ take 32 code.now }
{
    array_of(&code[..32])
}

// The HMAC-SHA384 code of a byte and a nonce.
fn hmac_of(wrapping_key: &[u8; 32], domain: u8, nonce: &[u8; 32]) -> [u8; 48]
    ensures { result ≡ hmac wrapping_key.now (domain ∷ nonce.now) }
{
    let mut hasher = HmacSha384::new(wrapping_key);
    hasher.update(&[domain]);
    hasher.update(nonce);
    hasher.finalize()
}

// The BLAKE2b hash with a key, of N bytes, of a byte and a nonce.
fn blake2b_of<const N: usize>(wrapping_key: &[u8; 32], domain: u8, nonce: &[u8; 32]) -> [u8; N]
    requires low { 1 ≤ N }
    requires high { N ≤ 64 }
    ensures { result ≡ blake2b wrapping_key.now N (domain ∷ nonce.now) }
{
    let mut hasher = Blake2b::new(wrapping_key, N);
    hasher.update(&[domain]);
    hasher.update(nonce);
    let mut hash = [0u8; N];
    hasher.finalize_into(&mut hash);
    hash
}
