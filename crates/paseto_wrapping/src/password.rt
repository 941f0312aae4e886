//! Keys under a password: the types `local-pw` and `secret-pw`.

ghost use Rattle.std.specs.Prelude.{◌≡◌, ◌+◌, ◌∷◌, ◌++◌, [], ◌<◌, ◌≤◌, ◌^◌, IsTrue, IfOk, IfErr, length, string_bytes, take};
ghost use Rattle.sha2.specs.Sha512.{sha384};
ghost use Rattle.rusty_paseto_primitives.specs.Blake2.Keyed.{blake2b};
ghost use Rattle.paseto_wrapping.specs.declared.family.Family.TheVariants.{Nist, Sodium};
ghost use Rattle.paseto_wrapping.specs.declared.header.WrappedType.TheVariants.{LocalPassword as LocalKey, SecretPassword as SecretKey};
ghost use Rattle.paseto_wrapping.specs.Error.{IsMemory};
ghost use Rattle.paseto_wrapping.specs.Family.{digest_bytes, encrypted, family_of, nonce_length, tag_length};
ghost use Rattle.paseto_wrapping.specs.Keys.{IsPrivateFault, IsWrappable, IsWrappedForm, wrapped_form};
ghost use Rattle.paseto_wrapping.specs.Password.{AreDrawn, AreParts, IsAllowed, IsGranted, IsPasswordFault, IsProtected, IsShort, IsWritingFault, ak, cost_length, ek, k, payload, protected, salt_length, shortest, t, untagged};
ghost use Rattle.paseto_wrapping.specs.Reading.{InText, IsTagFault, TextFaults, Unwraps, UnwrapsForm, UnwrapsKey};

use crate::cost::PasswordCost;
use crate::error::WrapError;
use crate::family::{Digest, Family, array_of, encrypted, tag_of};
use crate::header::WrappedType;
use crate::keys::{local_key, private_key, wrapped_form};
use crate::text::{read_payload, write_text};
use paseto_argon2::{Argon2Error, Parameters, argon2id};
use rusty_paseto_parts::{
    Local, PasetoAsymmetricPrivateKey, PasetoSymmetricKey, PrivateKey, Public,
};
use rusty_paseto_paserk::{KeyVersion, PaserkVersion};
use rusty_paseto_primitives::{Blake2b, pbkdf2_sha384, same_bytes};
use sha2::{Digest as _, Sha384};
use std::alloc::Global;

/// The byte that the encryption key is derived with.
const ENCRYPTION: u8 = 0xff;

/// The byte that the authentication key is derived with.
const AUTHENTICATION: u8 = 0xfe;

/// The first length of a password that Argon2id does not allow.
const TOO_LONG: usize = 1 << 32;

/// The text of a key for local tokens under a password, for example `k4.local-pw.` and 160 characters.
///
/// Draw a fresh salt and nonce for each text. In versions 1 and 3 the salt has 32 bytes and the nonce 16, in versions 2
/// and 4 the salt has 16 bytes and the nonce 24. It allocates as much memory as the cost says, and more for the text.
///
/// `InvalidNonce` is returned if and only if the salt or the nonce has another length, then `LongPassword` if the
/// password has 4 GiB or more, and then `InvalidCost` if PBKDF2 or Argon2id does not allow the cost.
///
/// Source: PASERK specification, type `local-pw`.
pub fn protect_local<V: KeyVersion>(
    alloc: Global,
    password: &[u8],
    cost: PasswordCost,
    salt: &[u8],
    nonce: &[u8],
    key: &PasetoSymmetricKey<V, Local>,
) -> Result<String, WrapError>
    ensures ok { IfOk result (λ text. AreDrawn (family_of V.paserk) salt.now nonce.now
        × IsShort password.now × IsAllowed (family_of V.paserk) cost × (string_bytes text
        ≡ protected V.paserk LocalKey password.now cost salt.now nonce.now key.now)) }
    ensures err { IfErr result
        (IsWritingFault (family_of V.paserk) salt.now nonce.now password.now cost) }
{
    protect(
        alloc,
        V::paserk_version(),
        WrappedType::LocalPassword,
        password,
        cost,
        salt,
        nonce,
        key.as_bytes(),
    )
}

/// The text of a private key under a password. See `protect_local` for the salt and the nonce. Of a private key of version
/// 1, which is a PrivateKeyInfo of PKCS #8, the RSAPrivateKey of PKCS #1 is put under the password.
///
/// `InvalidKey` is returned if and only if the version is 1 and the key is no private key of `RsaPss`: the PrivateKeyInfo
/// of an RSA key of 2048 bits, in DER. It comes first, and then the errors of `protect_local` in their order.
///
/// Source: PASERK specification, type `secret-pw`; RFC 8017, appendix A.1.2.
pub fn protect_secret<V: KeyVersion>(
    alloc: Global,
    password: &[u8],
    cost: PasswordCost,
    salt: &[u8],
    nonce: &[u8],
    key: &PasetoAsymmetricPrivateKey<'_, V, Public>,
) -> Result<String, WrapError>
    ensures ok { IfOk result (λ text. IsWrappable V.paserk key.now
        × AreDrawn (family_of V.paserk) salt.now nonce.now
        × IsShort password.now × IsAllowed (family_of V.paserk) cost × (string_bytes text
        ≡ protected V.paserk SecretKey password.now cost salt.now nonce.now
        (wrapped_form V.paserk key.now))) }
    ensures err { IfErr result (IsPrivateFault V.paserk key.now
        (IsWritingFault (family_of V.paserk) salt.now nonce.now password.now cost)) }
{
    let version = V::paserk_version();
    let Some(octets) = wrapped_form(version, key.as_bytes()) else {
        return Err(WrapError::InvalidKey);
    };
    protect(
        alloc,
        version,
        WrappedType::SecretPassword,
        password,
        cost,
        salt,
        nonce,
        octets,
    )
}

/// The key for local tokens that a text contains under a password.
///
/// `most` bounds the cost that the text may demand: `PasswordCost::most()` suits untrusted texts.
///
/// Reading is strict: the key is returned if the text contains it under the password with an allowed cost within the
/// bound, and otherwise the first of these errors: `NoWrappedKey` if it does not begin like a wrapped key,
/// `OtherVersion` and `OtherType` if it begins like one of another version or type, `InvalidText` if what follows is
/// not valid base64url or too short, `LongPassword` if the password has 4 GiB or more, `InvalidCost` if PBKDF2 or
/// Argon2id does not allow the cost, `TooCostly` if it is beyond the bound, `WrongKey` if the tag is wrong, and
/// `InvalidKey` if the unwrapped bytes are not 32. `Memory` may be returned in place of any result but the first three.
/// A cost is refused before its work is done.
///
/// Source: PASERK specification, type `local-pw`.
pub fn unprotect_local<V: KeyVersion>(
    alloc: Global,
    password: &[u8],
    most: PasswordCost,
    text: &str,
) -> Result<PasetoSymmetricKey<V, Local>, WrapError>
    ensures { UnwrapsKey (λ key. length key ≡ 32)
        (InText V.paserk LocalKey (IsProtected V.paserk LocalKey password.now most))
        (TextFaults V.paserk LocalKey (IsPasswordFault V.paserk LocalKey password.now most)) text.now result }
{
    let bytes = unprotect(
        alloc,
        V::paserk_version(),
        WrappedType::LocalPassword,
        password,
        most,
        text,
    )?;
    local_key(bytes)
}

/// The private key that a text contains under a password: in version 1 a PrivateKeyInfo of PKCS #8.
///
/// The errors are those of `unprotect_local`; `InvalidKey` is returned if the unwrapped bytes are no private key of the
/// version: in versions 2 and 4 if they are not 64, in version 3 if they are not 48, and in version 1 if they are neither
/// the RSAPrivateKey of PKCS #1 nor the PrivateKeyInfo of a private key of `RsaPss`.
///
/// Source: PASERK specification, type `secret-pw`; RFC 8017, appendix A.1.2; RFC 5208, section 5.
pub fn unprotect_secret<V: KeyVersion>(
    alloc: Global,
    password: &[u8],
    most: PasswordCost,
    text: &str,
) -> Result<PrivateKey<V>, WrapError>
    ensures { UnwrapsForm
        (λ octets key. IsWrappedForm V.paserk octets key × IsTrue (V.is_private_key key))
        (InText V.paserk SecretKey (IsProtected V.paserk SecretKey password.now most))
        (TextFaults V.paserk SecretKey (IsPasswordFault V.paserk SecretKey password.now most)) text.now result }
{
    let bytes = unprotect(
        alloc,
        V::paserk_version(),
        WrappedType::SecretPassword,
        password,
        most,
        text,
    )?;
    private_key(alloc, bytes)
}

// The text of the bytes of a key.
fn protect(
    alloc: Global,
    version: PaserkVersion,
    kind: WrappedType,
    password: &[u8],
    cost: PasswordCost,
    salt: &[u8],
    nonce: &[u8],
    key: &[u8],
) -> Result<String, WrapError>
    ensures ok { IfOk result (λ text. AreDrawn (family_of version) salt.now nonce.now
        × IsShort password.now × IsAllowed (family_of version) cost × (string_bytes text
        ≡ protected version kind password.now cost salt.now nonce.now key.now)) }
    ensures err { IfErr result
        (IsWritingFault (family_of version) salt.now nonce.now password.now cost) }
{
    let family = Family::of(version);
    if salt.len() != salt_length(family) {
        return Err(WrapError::InvalidNonce);
    }
    if nonce.len() != family.nonce_length() {
        return Err(WrapError::InvalidNonce);
    }
    protect_drawn(alloc, version, kind, password, cost, salt, nonce, key)
}

// The text of the bytes of a key, by a salt and a nonce of their lengths.
fn protect_drawn(
    alloc: Global,
    version: PaserkVersion,
    kind: WrappedType,
    password: &[u8],
    cost: PasswordCost,
    salt: &[u8],
    nonce: &[u8],
    key: &[u8],
) -> Result<String, WrapError>
    requires salt { length salt.now ≡ salt_length (family_of version) }
    requires nonce { length nonce.now ≡ nonce_length (family_of version) }
    ensures ok { IfOk result (λ text. IsShort password.now × IsAllowed (family_of version) cost × (string_bytes text
        ≡ protected version kind password.now cost salt.now nonce.now key.now)) }
    ensures err { IfErr result
        (IsWritingFault (family_of version) salt.now nonce.now password.now cost) }
{
    if password.len() >= TOO_LONG {
        return Err(WrapError::LongPassword);
    }
    if !cost.is_allowed(Family::of(version)) {
        return Err(WrapError::InvalidCost);
    }
    let password_key = password_key(alloc, Family::of(version), password, salt, cost)?;
    let payload = payload_of(alloc, version, kind, &password_key, cost, salt, nonce, key)?;
    Ok(write_text(alloc, version, kind, &payload)?)
}

// The salt, the cost, the nonce, the encrypted key and the tag.
fn payload_of(
    alloc: Global,
    version: PaserkVersion,
    kind: WrappedType,
    password_key: &[u8; 32],
    cost: PasswordCost,
    salt: &[u8],
    nonce: &[u8],
    key: &[u8],
) -> Result<Vec<u8>, WrapError>
    requires { length nonce.now ≡ nonce_length (family_of version) }
    ensures ok { IfOk result (λ made. let front = untagged (family_of version) salt.now cost nonce.now
        password_key.now key.now in made.items ≡ front ++ t version kind password_key.now front) }
    ensures err { IfErr result IsMemory }
{
    let family = Family::of(version);
    let mut payload = untagged(alloc, family, password_key, cost, salt, nonce, key)?;
    let tag = tag(version, kind, password_key, &payload);
    payload.extend_from_slice(tag.as_bytes())?;
    Ok(payload)
}

// The salt, the cost, the nonce and the encrypted key.
fn untagged(
    alloc: Global,
    family: Family,
    password_key: &[u8; 32],
    cost: PasswordCost,
    salt: &[u8],
    nonce: &[u8],
    key: &[u8],
) -> Result<Vec<u8>, WrapError>
    requires { length nonce.now ≡ nonce_length family }
    ensures ok { IfOk result (λ made. made.items
        ≡ untagged family salt.now cost nonce.now password_key.now key.now) }
    ensures err { IfErr result IsMemory }
{
    let encryption_key = encryption_key(family, password_key);
    let ciphertext = encrypted(alloc, family, &encryption_key, nonce, key)?;
    let mut front = Vec::from_slice(alloc, salt)?;
    cost.push(family, &mut front)?;
    front.extend_from_slice(nonce)?;
    front.extend_from_slice(&ciphertext)?;
    Ok(front)
}

// The bytes that a text holds.
fn unprotect(
    alloc: Global,
    version: PaserkVersion,
    kind: WrappedType,
    password: &[u8],
    most: PasswordCost,
    text: &str,
) -> Result<Vec<u8>, WrapError>
    ensures { Unwraps (InText version kind (IsProtected version kind password.now most))
        (TextFaults version kind (IsPasswordFault version kind password.now most)) text.now result }
{
    let payload = read_payload(alloc, version, kind, text)?;
    open(alloc, version, kind, password, most, &payload)
}

// The bytes that a payload holds. What the cost asks for is done where it is allowed and within the bound.
fn open(
    alloc: Global,
    version: PaserkVersion,
    kind: WrappedType,
    password: &[u8],
    most: PasswordCost,
    payload: &[u8],
) -> Result<Vec<u8>, WrapError>
    ensures { Unwraps (IsProtected version kind password.now most)
        (IsPasswordFault version kind password.now most) payload.now result }
{
    let family = Family::of(version);
    if payload.len() < shortest(family) {
        return Err(WrapError::InvalidText);
    }
    if password.len() >= TOO_LONG {
        return Err(WrapError::LongPassword);
    }
    let parts = cut(family, payload);
    let cost = PasswordCost::read(family, parts.cost);
    if !cost.is_allowed(family) {
        return Err(WrapError::InvalidCost);
    }
    if !cost.is_within(family, most) {
        return Err(WrapError::TooCostly);
    }
    open_parts(alloc, version, kind, password, most, cost, &parts)
}

// The bytes that the parts of a payload hold. The tag is compared before anything is decrypted. The bound is a parameter
// so that nobody asks it after the work: the cost has to be within it here.
fn open_parts(
    alloc: Global,
    version: PaserkVersion,
    kind: WrappedType,
    password: &[u8],
    most: PasswordCost,
    cost: PasswordCost,
    parts: &Parts<'_>,
) -> Result<Vec<u8>, WrapError>
    requires password { IsShort password.now }
    requires granted { IsGranted (family_of version) most cost }
    requires salt { length parts.now.salt.now ≡ salt_length (family_of version) }
    requires nonce { length parts.now.nonce.now ≡ nonce_length (family_of version) }
    ensures ok { let key = k (family_of version) password.now parts.now.salt.now cost in IfOk result
        (λ found. (parts.now.tag.now ≡ t version kind key parts.now.front.now)
        × (found.items ≡ encrypted (family_of version) (ek (family_of version) key)
        parts.now.nonce.now parts.now.ciphertext.now)) }
    ensures err { let key = k (family_of version) password.now parts.now.salt.now cost in
        IfErr result (IsTagFault (parts.now.tag.now ≡ t version kind key parts.now.front.now)) }
{
    let password_key = password_key(alloc, Family::of(version), password, parts.salt, cost)?;
    decrypted(alloc, version, kind, &password_key, parts)
}

// The bytes that the parts of a payload hold under the key of the password.
fn decrypted(
    alloc: Global,
    version: PaserkVersion,
    kind: WrappedType,
    password_key: &[u8; 32],
    parts: &Parts<'_>,
) -> Result<Vec<u8>, WrapError>
    requires { length parts.now.nonce.now ≡ nonce_length (family_of version) }
    ensures ok { IfOk result
        (λ found. (parts.now.tag.now ≡ t version kind password_key.now parts.now.front.now)
        × (found.items ≡ encrypted (family_of version) (ek (family_of version) password_key.now)
        parts.now.nonce.now parts.now.ciphertext.now)) }
    ensures err { IfErr result (IsTagFault
        (parts.now.tag.now ≡ t version kind password_key.now parts.now.front.now)) }
{
    let made = tag(version, kind, password_key, parts.front);
    if !same_bytes(made.as_bytes(), parts.tag) {
        return Err(WrapError::WrongKey);
    }
    let family = Family::of(version);
    let encryption_key = encryption_key(family, password_key);
    encrypted(
        alloc,
        family,
        &encryption_key,
        parts.nonce,
        parts.ciphertext,
    )
}

// The parts of a payload.
#[derive(Clone, Copy)]
struct Parts<'a> {
    // All that stands before the tag.
    front: &'a [u8],
    salt: &'a [u8],
    cost: &'a [u8],
    nonce: &'a [u8],
    ciphertext: &'a [u8],
    tag: &'a [u8],
}

// The parts of a payload.
fn cut<'a>(family: Family, payload: &'a [u8]) -> Parts<'a>
    requires { shortest family ≤ length payload.now }
    ensures parts { AreParts family payload.now result.salt.now result.cost.now result.nonce.now
        result.ciphertext.now result.tag.now }
    ensures front { result.front.now ≡ result.salt.now ++ result.cost.now ++ result.nonce.now
        ++ result.ciphertext.now }
{
    let (front, tag) = payload.split_at(payload.len() - family.tag_length());
    let (salt, rest) = front.split_at(salt_length(family));
    let (cost, rest) = rest.split_at(cost_length(family));
    let (nonce, ciphertext) = rest.split_at(family.nonce_length());
    Parts {
        front,
        salt,
        cost,
        nonce,
        ciphertext,
        tag,
    }
}

// How many bytes a payload has at least.
fn shortest(family: Family) -> usize
    ensures { result ≡ shortest family }
{
    salt_length(family) + cost_length(family) + family.nonce_length() + family.tag_length()
}

// How many bytes a salt has.
fn salt_length(family: Family) -> usize
    ensures { result ≡ salt_length family }
{
    match family {
        Family::Nist => 32,
        Family::Sodium => 16,
    }
}

// How many bytes a cost has.
fn cost_length(family: Family) -> usize
    ensures { result ≡ cost_length family }
{
    match family {
        Family::Nist => 4,
        Family::Sodium => 16,
    }
}

// The tag of what stands before it.
fn tag(version: PaserkVersion, kind: WrappedType, password_key: &[u8; 32], front: &[u8]) -> Digest
    ensures { digest_bytes result ≡ t version kind password_key.now front.now }
{
    let key = authentication_key(Family::of(version), password_key);
    tag_of(key.as_bytes(), version, kind, front, &[])
}

// The key of a password.
#[tactic(auto, using(rusty_paseto_primitives::proofs::Pbkdf2Iterations::key_of_32), unfolding(crate::specs::Password::k))]
fn password_key(
    alloc: Global,
    family: Family,
    password: &[u8],
    salt: &[u8],
    cost: PasswordCost,
) -> Result<[u8; 32], WrapError>
    requires password { IsShort password.now }
    requires salt { length salt.now ≡ salt_length family }
    requires allowed { IsAllowed family cost }
    ensures ok { IfOk result (λ key. key ≡ k family password.now salt.now cost) }
    ensures err { IfErr result IsMemory }
{
    match family {
        Family::Nist => Ok(front_of(&pbkdf2_sha384(password, salt, cost.iterations))),
        Family::Sodium => argon2_key(alloc, password, salt, cost),
    }
}

// The key of a password by Argon2id.
#[tactic(auto, unfolding(crate::specs::Password::k))]
fn argon2_key(
    alloc: Global,
    password: &[u8],
    salt: &[u8],
    cost: PasswordCost,
) -> Result<[u8; 32], WrapError>
    requires password { IsShort password.now }
    requires salt { length salt.now ≡ 16 }
    requires allowed { IsAllowed Sodium cost }
    ensures ok { IfOk result (λ key. key ≡ k Sodium password.now salt.now cost) }
    ensures err { IfErr result IsMemory }
{
    let parameters = Parameters {
        memory: (cost.memory / 1024) as u32,
        passes: cost.passes,
        lanes: cost.lanes,
    };
    let mut key = [0u8; 32];
    match argon2id(alloc, password, salt, parameters, &mut key) {
        Ok(()) => Ok(key),
        Err(Argon2Error::Memory(source)) => Err(WrapError::Memory(source)),
        Err(_) => Err(WrapError::InvalidCost),
    }
}

// The encryption key.
#[tactic(auto, unfolding(crate::specs::Password::ek))]
fn encryption_key(family: Family, password_key: &[u8; 32]) -> [u8; 32]
    ensures { result ≡ ek family password_key.now }
{
    match family {
        Family::Nist => front_of(&sha384_of(ENCRYPTION, password_key)),
        Family::Sodium => blake2b_of(ENCRYPTION, password_key),
    }
}

// The authentication key.
#[tactic(auto, unfolding(crate::specs::Password::ak))]
fn authentication_key(family: Family, password_key: &[u8; 32]) -> Digest
    ensures bytes { digest_bytes result ≡ ak family password_key.now }
    ensures len { length (digest_bytes result) ≤ 64 }
{
    match family {
        Family::Nist => Digest::Of48(sha384_of(AUTHENTICATION, password_key)),
        Family::Sodium => Digest::Of32(blake2b_of(AUTHENTICATION, password_key)),
    }
}

// The first bytes of a digest.
fn front_of(digest: &[u8; 48]) -> [u8; 32]
    ensures { result ≡ take 32 digest.now }
{
    array_of(&digest[..32])
}

// The SHA-384 digest of a byte and a key.
fn sha384_of(domain: u8, key: &[u8; 32]) -> [u8; 48]
    ensures { result ≡ sha384 (domain ∷ key.now) }
{
    let mut hasher = Sha384::new();
    hasher.update(&[domain]);
    hasher.update(key);
    array_of(&hasher.finalize())
}

// The BLAKE2b hash of a byte and a key.
fn blake2b_of(domain: u8, key: &[u8; 32]) -> [u8; 32]
    ensures { result ≡ blake2b [] 32 (domain ∷ key.now) }
{
    let mut hasher = Blake2b::new(&[], 32);
    hasher.update(&[domain]);
    hasher.update(key);
    let mut hash = [0u8; 32];
    hasher.finalize_into(&mut hash);
    hash
}
