//! Signing (RFC 8032, sections 5.1.5 and 5.1.6).

ghost use Rattle.std.specs.Prelude.{◌≡◌, ◌≢◌, ◌++◌, length, take, drop, IfOk, IfErr};
ghost use Rattle.sha2.specs.Sha512.{sha512};
ghost use Rattle.rusty_paseto_parts.specs.declared.error.PasetoError.TheVariants.{Signature};
ghost use Rattle.paseto_ed25519.specs.Ed25519.{challenge, clamped, nonce_of, signed};
ghost use Rattle.paseto_edwards_laws.specs.Edwards25519.{base};
ghost use Rattle.paseto_edwards25519.specs.Curve.{multiple};
ghost use Rattle.paseto_edwards25519.specs.Encoding.{encoded};
ghost use Rattle.paseto_edwards25519.specs.Residue.{residue};
ghost use Rattle.paseto_edwards25519.specs.Scalar.{number32};

use crate::bytes::{HALF_LENGTH, array, joined};
use paseto_edwards25519::{Scalar, encode, is_zero, multiply_add, multiply_base, reduce, to_bytes};
use rusty_paseto_parts::PasetoError;
use sha2::{Digest, Sha512};

/// What a seed is hashed to: the bytes of its scalar, and what its nonces are hashed from (section 5.1.5).
#[derive(Clone, Copy)]
pub(crate) struct Secret {
    pub(crate) scalar: [u8; 32],
    pub(crate) prefix: [u8; 32],
}

// The scalar that the first half of a digest gives (section 5.1.5, step 2).
fn clamped(half: &[u8]) -> [u8; 32]
    requires { length half.now ≡ 32 }
    ensures { result ≡ clamped half.now }
{
    let mut scalar = array(half);
    scalar[0] = scalar[0] / 8 * 8;
    scalar[31] = scalar[31] % 64 + 64;
    scalar
}

/// What a seed is hashed to.
pub(crate) fn expanded(seed: &[u8]) -> Secret
    ensures scalar { result.scalar ≡ clamped (take 32 (sha512 seed.now)) }
    ensures prefix { result.prefix ≡ drop 32 (sha512 seed.now) }
{
    let digest = Sha512::digest(seed);
    let (half, prefix) = digest.split_at(HALF_LENGTH);
    Secret {
        scalar: clamped(half),
        prefix: array(prefix),
    }
}

/// The multiple of the base point, encoded.
pub(crate) fn encoded_multiple(scalar: &[u8; 32]) -> [u8; 32]
    ensures { result ≡ encoded (multiple (number32 scalar.now) base) }
{
    encode(multiply_base(scalar))
}

/// k (section 5.1.7, step 2).
pub(crate) fn challenge(r: &[u8], public: &[u8], message: &[u8]) -> Scalar
    ensures { residue result ≡ challenge r.now public.now message.now }
{
    let mut hasher = Sha512::new();
    hasher.update(r);
    hasher.update(public);
    hasher.update(message);
    reduce(&hasher.finalize())
}

// The number whose multiple of the base point is R (section 5.1.6, step 2).
fn nonce(prefix: &[u8; 32], message: &[u8]) -> Scalar
    ensures { residue result ≡ nonce_of prefix.now message.now }
{
    let mut hasher = Sha512::new();
    hasher.update(prefix);
    hasher.update(message);
    reduce(&hasher.finalize())
}

// The signature of a message by a scalar, under a nonce (section 5.1.6, steps 3 to 6).
fn signature(r: Scalar, scalar: &[u8; 32], public: &[u8], message: &[u8]) -> [u8; 64]
    ensures { result ≡ signed (residue r) (number32 scalar.now) public.now message.now }
{
    let commitment = encoded_multiple(&to_bytes(r));
    let k = challenge(&commitment, public, message);
    joined(&commitment, &to_bytes(multiply_add(r, k, scalar)))
}

/// The signature of a message. `Signature` is returned if and only if the nonce is 0, and no message is known where it
/// is.
pub(crate) fn sign(secret: &Secret, public: &[u8], message: &[u8]) -> Result<[u8; 64], PasetoError>
    ensures ok { let r = nonce_of secret.now.prefix message.now in
        IfOk result (λ signature. (r ≢ 0)
        × (signature ≡ signed r (number32 secret.now.scalar) public.now message.now)) }
    ensures err { IfErr result (λ error. (error ≡ PasetoError.Signature)
        × (nonce_of secret.now.prefix message.now ≡ 0)) }
{
    let r = nonce(&secret.prefix, message);
    if is_zero(r) {
        return Err(PasetoError::Signature);
    }
    Ok(signature(r, &secret.scalar, public, message))
}
