//! New keys.

ghost use Rattle.std.specs.Prelude.{◌≡◌, ℕ, IfErr, IfOk, List, length, true};
ghost use Rattle.rusty_paseto_paserk.specs.declared.header.PaserkType.TheVariants.{Local as LocalKey, Secret};
ghost use Rattle.rusty_paseto_paserk.specs.declared.header.PaserkVersion.TheVariants.{V3};
ghost use Rattle.paseto_keys.specs.AnyKey.{is_key, key_parts, parts_of};
ghost use Rattle.paseto_keys.specs.Error.{IsMemory};
ghost use Rattle.paseto_keys.specs.Generation.{Generates, IsNew, IsNewEd25519, IsNewLocal, IsNewP384, IsNoKey, IsNoP384};

use crate::any_key::{AnyKey, local_key};
use crate::error::KeyError;
use paseto_ed25519::Ed25519;
use paseto_p384::P384;
use rand_core::TryRng;
use rusty_paseto_core::{Key, PasetoError};
use rusty_paseto_paserk::{PaserkType, PaserkVersion};
use std::alloc::Global;

impl AnyKey {
    /// A new key of a type and a version, from random bytes of a generator: a key for local tokens is these 32 bytes; a
    /// private key of version 2 or 4 is a seed of 32 bytes followed by its public key; and one of version 3 is these 48
    /// bytes. `public_half` gives the public key of a private key.
    ///
    /// `OtherType` is returned for a public key, and `OtherVersion` for a private key of version 1, of RSA: neither is
    /// generated, and the generator is not called. Otherwise `Random` is returned if and only if the generator fails,
    /// and `Refused` of `KeyRejected` if and only if it gives no private key of P-384 in version 3: 0 or a number that
    /// is not below the order, which a good generator does less than once in 2^189 times. It fails else only with
    /// `Memory`.
    ///
    /// Source: RFC 8032, section 5.1.5; FIPS 186-5, appendix A.2.2.
    pub fn generate<G: TryRng>(
        alloc: Global,
        kind: PaserkType,
        version: PaserkVersion,
        generator: &mut G,
    ) -> Result<AnyKey, KeyError>
        ensures { Generates kind version (λ drawn. G.may_fill generator.old drawn generator.new)
            G.Error (generator.new ≡ generator.old) result }
    {
        match (kind, version) {
            (PaserkType::Local, _) => new_local(version, generator),
            (PaserkType::Secret, PaserkVersion::V1) => Err(KeyError::OtherVersion(version)),
            (PaserkType::Secret, PaserkVersion::V2) => new_ed25519(
                alloc,
                PaserkVersion::V2,
                generator,
            ),
            (PaserkType::Secret, PaserkVersion::V3) => new_p384(alloc, generator),
            (PaserkType::Secret, PaserkVersion::V4) => new_ed25519(
                alloc,
                PaserkVersion::V4,
                generator,
            ),
            (PaserkType::Public, _) => Err(KeyError::OtherType(kind)),
        }
    }
}

// A new key for local tokens of a version.
fn new_local<G: TryRng>(version: PaserkVersion, generator: &mut G) -> Result<AnyKey, KeyError>
    ensures { IsNew LocalKey version IsNewLocal IsNoKey
        (λ drawn. G.may_fill generator.old drawn generator.new) G.Error result }
{
    let Ok(key) = Key::<32>::try_new_random(generator) else {
        return Err(KeyError::Random);
    };
    Ok(local_key(version, key))
}

// A new private key of version 2 or 4.
fn new_ed25519<G: TryRng>(
    alloc: Global,
    version: PaserkVersion,
    generator: &mut G,
) -> Result<AnyKey, KeyError>
    requires { (key : List ℕ) → length key ≡ 64 → is_key Secret version key ≡ true }
    ensures { IsNew Secret version IsNewEd25519 IsNoKey
        (λ drawn. G.may_fill generator.old drawn generator.new) G.Error result }
{
    let Ok((private, _public)) = Ed25519::key_pair(generator) else {
        return Err(KeyError::Random);
    };
    private_key(alloc, version, private.as_bytes())
}

// A new private key of version 3.
fn new_p384<G: TryRng>(alloc: Global, generator: &mut G) -> Result<AnyKey, KeyError>
    ensures { IsNew Secret V3 IsNewP384 IsNoP384
        (λ drawn. G.may_fill generator.old drawn generator.new) G.Error result }
{
    match P384::key_pair(generator) {
        Ok((private, _)) => private_key(alloc, PaserkVersion::V3, private.as_bytes()),
        Err(PasetoError::Cipher) => Err(KeyError::Random),
        Err(error) => Err(KeyError::from(error)),
    }
}

// The private key of these bytes, which are copied.
fn private_key(alloc: Global, version: PaserkVersion, bytes: &[u8]) -> Result<AnyKey, KeyError>
    requires { is_key Secret version bytes.now ≡ true }
    ensures ok { IfOk result (λ key. parts_of key ≡ key_parts Secret version bytes.now) }
    ensures err { IfErr result IsMemory }
{
    Ok(AnyKey::from_bytes(alloc, PaserkType::Secret, version, bytes)?)
}
