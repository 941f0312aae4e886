//! Texts of keys beside their lines: in PEM, under a password or a wrapping key, and sealed.

ghost use Rattle.std.specs.Prelude.{◌≡◌, ◌≢◌, ◌⊎◌, MatchBool, MatchResult, drop, length, string_bytes, take, true};
ghost use Rattle.rusty_paseto_paserk.specs.declared.header.PaserkType.TheVariants.{Local as LocalKey, Public as PublicKeys};
ghost use Rattle.paseto_pem.specs.Key.{IsWritten};
ghost use Rattle.paseto_pem.specs.declared.label.Label.TheVariants.{PrivateKey as PrivateLabel, PublicKey as PublicLabel};
ghost use Rattle.paseto_wrapping.specs.Family.{family_of};
ghost use Rattle.paseto_wrapping.specs.Keys.{IsWrappable, wrapped_form};
ghost use Rattle.paseto_wrapping.specs.Password.{IsShort, protected, salt_length};
ghost use Rattle.paseto_wrapping.specs.Pie.{pie};
ghost use Rattle.paseto_wrapping.specs.Sealing.{IsSealed, secret_length};
ghost use Rattle.paseto_wrapping.specs.declared.header.WrappedType.TheVariants.{LocalPassword, LocalWrap, SecretPassword, SecretWrap};
ghost use Rattle.paseto_keys.specs.AnyKey.{parts_of, writes_tokens};
ghost use Rattle.paseto_calls.specs.KeyCalls.{HasLine, HasNoPem, IsNoPemOf, IsNotSealedTo, IsPemOf, IsSealRefusal, IsSealedTo, IsPasswordAnswer, new_cost, password_text, protecting_length, sealing_length, wrap_type, wrapped_octets};

use crate::refusal::Refusal;
use paseto_keys::AnyKey;
use paseto_pem::{PemVersion, private_key_to_pem, public_key_to_pem};
use paseto_wrapping::{
    PasswordCost, WrappingKey, protect_local, protect_secret, seal, wrap_local, wrap_secret,
};
use rusty_paseto_core::{Key, Local, PasetoSymmetricKey, PrivateKey, PublicKey, V2, V3, V4};
use rusty_paseto_paserk::{KeyPairVersion, KeyVersion, PaserkVersion};
use std::alloc::Global;

/// The text of a key pair's key in PEM, byte for byte as `openssl pkey` writes it: `InvalidKey` for a key that is not
/// valid, and `OtherVersion` for one of version 2, which would be read as one of version 4.
pub(crate) fn pem_of(alloc: Global, key: &AnyKey) -> Result<String, Refusal>
    ensures { MatchResult result
        (λ text. IsPemOf (parts_of key.now).kind (parts_of key.now).version (parts_of key.now).bytes
        (string_bytes text))
        (λ refusal. (refusal ≡ Refusal.Memory) ⊎ IsNoPemOf (parts_of key.now).kind
        (parts_of key.now).version (parts_of key.now).bytes refusal) }
{
    match key {
        AnyKey::V1Secret(key) => private_pem(alloc, key),
        AnyKey::V3Secret(key) => private_pem(alloc, key),
        AnyKey::V4Secret(key) => private_pem(alloc, key),
        AnyKey::V1Public(key) => public_pem(alloc, key),
        AnyKey::V3Public(key) => public_pem(alloc, key),
        AnyKey::V4Public(key) => public_pem(alloc, key),
        _ => Err(Refusal::OtherVersion),
    }
}

// The text of a private key in PEM.
fn private_pem<V: PemVersion>(alloc: Global, key: &PrivateKey<V>) -> Result<String, Refusal>
    ensures { MatchResult result
        (λ text. IsWritten V.is_private_written PrivateLabel key.now (string_bytes text))
        (λ refusal. (refusal ≡ Refusal.Memory)
        ⊎ HasNoPem V.is_private_written PrivateLabel key.now refusal) }
{
    Ok(private_key_to_pem(alloc, &key.lend())?)
}

// The text of a public key in PEM.
fn public_pem<V: PemVersion>(alloc: Global, key: &PublicKey<V>) -> Result<String, Refusal>
    ensures { MatchResult result
        (λ text. IsWritten V.is_public_written PublicLabel key.now (string_bytes text))
        (λ refusal. (refusal ≡ Refusal.Memory)
        ⊎ HasNoPem V.is_public_written PublicLabel key.now refusal) }
{
    Ok(public_key_to_pem(alloc, &key.lend())?)
}

/// The text of a key for local tokens or a private key under a password, by a salt and a nonce behind it: `TooLong` for
/// a password of 4 GiB or more.
pub(crate) fn protected(
    alloc: Global,
    key: &AnyKey,
    password: &[u8],
    given: &[u8],
) -> Result<String, Refusal>
    requires kind { writes_tokens (parts_of key.now).kind ≡ true }
    requires line { HasLine (parts_of key.now) }
    requires given { length given.now ≡ protecting_length (parts_of key.now).version }
    ensures { IsPasswordAnswer password.now (password_text (parts_of key.now) password.now given.now) result }
{
    match key {
        AnyKey::V1Local(key) => protected_local(alloc, key, password, given),
        AnyKey::V2Local(key) => protected_local(alloc, key, password, given),
        AnyKey::V3Local(key) => protected_local(alloc, key, password, given),
        AnyKey::V4Local(key) => protected_local(alloc, key, password, given),
        AnyKey::V1Secret(key) => protected_secret(alloc, key, password, given),
        AnyKey::V2Secret(key) => protected_secret(alloc, key, password, given),
        AnyKey::V3Secret(key) => protected_secret(alloc, key, password, given),
        AnyKey::V4Secret(key) => protected_secret(alloc, key, password, given),
        _ => Err(Refusal::OtherType),
    }
}

// The text of a key for local tokens under a password.
fn protected_local<V: KeyVersion>(
    alloc: Global,
    key: &PasetoSymmetricKey<V, Local>,
    password: &[u8],
    given: &[u8],
) -> Result<String, Refusal>
    requires { length given.now ≡ protecting_length V.paserk }
    ensures { IsPasswordAnswer password.now (protected V.paserk LocalPassword password.now new_cost
        (take (salt_length (family_of V.paserk)) given.now) (drop (salt_length (family_of V.paserk)) given.now) key.now) result }
{
    let (salt, nonce) = given.split_at(salt_length(V::paserk_version()));
    Ok(protect_local(alloc, password, cost(), salt, nonce, key)?)
}

// The text of a private key under a password.
fn protected_secret<V: KeyVersion>(
    alloc: Global,
    key: &PrivateKey<V>,
    password: &[u8],
    given: &[u8],
) -> Result<String, Refusal>
    requires key { IsWrappable V.paserk key.now }
    requires given { length given.now ≡ protecting_length V.paserk }
    ensures { IsPasswordAnswer password.now (protected V.paserk SecretPassword password.now new_cost
        (take (salt_length (family_of V.paserk)) given.now) (drop (salt_length (family_of V.paserk)) given.now)
        (wrapped_form V.paserk key.now)) result }
{
    let (salt, nonce) = given.split_at(salt_length(V::paserk_version()));
    Ok(protect_secret(alloc, password, cost(), salt, nonce, &key.lend())?)
}

// How many bytes the salt of a version has.
fn salt_length(version: PaserkVersion) -> usize
    ensures { result ≡ salt_length (family_of version) }
{
    match version {
        PaserkVersion::V1 | PaserkVersion::V3 => 32,
        PaserkVersion::V2 | PaserkVersion::V4 => 16,
    }
}

// The cost of new texts under a password.
fn cost() -> PasswordCost
    ensures { result ≡ new_cost }
{
    PasswordCost::default()
}

/// The text of a key for local tokens or a private key under a wrapping key, which is one for local tokens of the same
/// version, by a nonce. It fails only with `Memory`.
pub(crate) fn wrapped(
    alloc: Global,
    key: &AnyKey,
    other: &AnyKey,
    nonce: &[u8],
) -> Result<String, Refusal>
    requires kind { writes_tokens (parts_of key.now).kind ≡ true }
    requires line { HasLine (parts_of key.now) }
    requires other { (parts_of other.now).kind ≡ LocalKey }
    requires version { (parts_of key.now).version ≡ (parts_of other.now).version }
    requires nonce { length nonce.now ≡ 32 }
    ensures { MatchResult result
        (λ text. string_bytes text ≡ pie (parts_of key.now).version (wrap_type (parts_of key.now).kind)
        (parts_of other.now).bytes nonce.now
        (wrapped_octets (parts_of key.now).kind (parts_of key.now).version (parts_of key.now).bytes))
        (λ refusal. refusal ≡ Refusal.Memory) }
{
    let (other, nonce) = (local_bytes(other), Key::<32>::from_slice(nonce));
    match key {
        AnyKey::V1Local(key) => wrapped_local(alloc, key, other, &nonce),
        AnyKey::V2Local(key) => wrapped_local(alloc, key, other, &nonce),
        AnyKey::V3Local(key) => wrapped_local(alloc, key, other, &nonce),
        AnyKey::V4Local(key) => wrapped_local(alloc, key, other, &nonce),
        AnyKey::V1Secret(key) => wrapped_secret(alloc, key, other, &nonce),
        AnyKey::V2Secret(key) => wrapped_secret(alloc, key, other, &nonce),
        AnyKey::V3Secret(key) => wrapped_secret(alloc, key, other, &nonce),
        AnyKey::V4Secret(key) => wrapped_secret(alloc, key, other, &nonce),
        _ => Err(Refusal::OtherType),
    }
}

/// Whether two versions are the same.
pub(crate) fn same_version(one: PaserkVersion, other: PaserkVersion) -> bool
    ensures { MatchBool result (one ≡ other) (one ≢ other) }
{
    one == other
}

// The bytes of a key for local tokens.
fn local_bytes(key: &AnyKey) -> &[u8]
    requires { (parts_of key.now).kind ≡ LocalKey }
    ensures bytes { result.now ≡ (parts_of key.now).bytes }
    ensures size { length result.now ≡ 32 }
{
    match key {
        AnyKey::V1Local(key) => key.as_bytes().as_slice(),
        AnyKey::V2Local(key) => key.as_bytes().as_slice(),
        AnyKey::V3Local(key) => key.as_bytes().as_slice(),
        AnyKey::V4Local(key) => key.as_bytes().as_slice(),
        _ => &[],
    }
}

// The text of a key for local tokens under a wrapping key of these bytes.
fn wrapped_local<V: KeyVersion>(
    alloc: Global,
    key: &PasetoSymmetricKey<V, Local>,
    other: &[u8],
    nonce: &Key<32>,
) -> Result<String, Refusal>
    requires { length other.now ≡ 32 }
    ensures { MatchResult result
        (λ text. string_bytes text ≡ pie V.paserk LocalWrap other.now nonce.now key.now)
        (λ refusal. refusal ≡ Refusal.Memory) }
{
    let wrapping = WrappingKey::<V>::from(Key::<32>::from_slice(other));
    Ok(wrap_local(alloc, &wrapping, nonce, key)?)
}

// The text of a private key under a wrapping key of these bytes.
fn wrapped_secret<V: KeyVersion>(
    alloc: Global,
    key: &PrivateKey<V>,
    other: &[u8],
    nonce: &Key<32>,
) -> Result<String, Refusal>
    requires key { IsWrappable V.paserk key.now }
    requires other { length other.now ≡ 32 }
    ensures { MatchResult result
        (λ text. string_bytes text
        ≡ pie V.paserk SecretWrap other.now nonce.now (wrapped_form V.paserk key.now))
        (λ refusal. refusal ≡ Refusal.Memory) }
{
    let wrapping = WrappingKey::<V>::from(Key::<32>::from_slice(other));
    Ok(wrap_secret(alloc, &wrapping, nonce, &key.lend())?)
}

/// The text of a key for local tokens that is sealed to a public key of the same version, 2, 3 or 4, by an ephemeral key:
/// `OtherVersion` for other versions, `KeyRejected` for bytes that are no private key in version 3, and `InvalidKey` if
/// no secret can be shared with the public key.
pub(crate) fn sealed(
    alloc: Global,
    key: &AnyKey,
    other: &AnyKey,
    ephemeral: &[u8],
) -> Result<String, Refusal>
    requires key { (parts_of key.now).kind ≡ LocalKey }
    requires other { (parts_of other.now).kind ≡ PublicKeys }
    requires ephemeral { length ephemeral.now ≡ sealing_length (parts_of key.now).version }
    ensures { MatchResult result
        (λ text. IsSealedTo (parts_of key.now) (parts_of other.now) ephemeral.now (string_bytes text))
        (IsNotSealedTo (parts_of key.now) (parts_of other.now) ephemeral.now) }
{
    match key {
        AnyKey::V2Local(key) => match other {
            AnyKey::V2Public(other) => sealed_in::<V2, 32>(alloc, key, other, ephemeral),
            _ => Err(Refusal::OtherVersion),
        },
        AnyKey::V3Local(key) => match other {
            AnyKey::V3Public(other) => sealed_in::<V3, 48>(alloc, key, other, ephemeral),
            _ => Err(Refusal::OtherVersion),
        },
        AnyKey::V4Local(key) => match other {
            AnyKey::V4Public(other) => sealed_in::<V4, 32>(alloc, key, other, ephemeral),
            _ => Err(Refusal::OtherVersion),
        },
        _ => Err(Refusal::OtherVersion),
    }
}

// The text of a sealed key, in one version, whose ephemeral keys have N bytes.
fn sealed_in<V: KeyPairVersion, const N: usize>(
    alloc: Global,
    key: &PasetoSymmetricKey<V, Local>,
    other: &PublicKey<V>,
    ephemeral: &[u8],
) -> Result<String, Refusal>
    requires version { N ≡ secret_length (family_of V.paserk) }
    requires ephemeral { length ephemeral.now ≡ N }
    ensures { MatchResult result
        (λ text. IsSealed V.paserk other.now ephemeral.now key.now (string_bytes text))
        (IsSealRefusal V.paserk other.now ephemeral.now) }
{
    let ephemeral = Key::<N>::from_slice(ephemeral);
    Ok(seal(alloc, &other.lend(), &ephemeral, key)?)
}
