//! Converting Ed25519 keys to X25519 keys, like libsodium's crypto_sign_ed25519_pk_to_curve25519 and its counterpart.

ghost use Rattle.std.specs.Prelude.{◌≡◌, ◌≢◌, ◌≤◌, length, take, None, IfOk, IfErr};
ghost use Rattle.sha2.specs.Sha512.{sha512};
ghost use Rattle.paseto_edwards25519.specs.Encoding.{decoded};
ghost use Rattle.paseto_x25519.specs.Conversion.{IsConversionFault, IsOfSmallOrder, montgomery};

use paseto_edwards25519::bytes::{bytes32, halves};
use paseto_edwards25519::field::canonical::{from_halves, to_halves};
use paseto_edwards25519::field::constants::one;
use paseto_edwards25519::field::powers::inverse;
use paseto_edwards25519::field::{self, mul};
use paseto_edwards25519::{decode, flattened, has_small_order};
use sha2::{Digest, Sha512};
use thiserror::Error;

// What the sign of x counts in the upper half of a public key.
const SIGN: u128 = 1 << 127;

/// Why a public key of Ed25519 is not converted.
#[derive(Debug, Drop, Error)]
pub enum ConversionError {
    /// The 32 bytes are not a point of edwards25519 (RFC 8032, section 5.1.3).
    #[error("the public key is no point of edwards25519: ask for another")]
    InvalidPoint,
    /// The point is of small order, so no secret can be shared with it. The neutral point, where y = 1 and u does not
    /// exist, is one of the eight.
    #[error("the public key is of small order: ask for another")]
    SmallOrder,
}

// u of the point that a public key is, in 32 bytes.
fn montgomery(public: &[u8; 32]) -> [u8; 32]
    ensures { result ≡ montgomery public.now }
{
    let (low, high) = halves(public);
    let y = from_halves(low, high % SIGN);
    let u = mul(field::add(one(), y), inverse(field::sub(one(), y)));
    let (low, high) = to_halves(u);
    bytes32(low, high)
}

/// Converts an Ed25519 public key to an X25519 public key, its Montgomery form u = (1 + y) / (1 - y) (RFC 7748, section
/// 4.1), in 32 bytes, lowest first. It belongs to the secret key of `secret_from_ed25519`. `InvalidPoint` is returned
/// if and only if the bytes are not a point, and `SmallOrder` if and only if the point is of small order; a point that
/// is neither of small order nor a multiple of the base point is accepted, which libsodium refuses. Does not allocate.
pub fn public_from_ed25519(public: &[u8; 32]) -> Result<[u8; 32], ConversionError>
    ensures ok { IfOk result (λ u. (u ≡ montgomery public.now) × (decoded public.now ≢ None)
        × ¬ IsOfSmallOrder public.now) }
    ensures err { IfErr result (λ error. IsConversionFault public.now error) }
{
    let Some(point) = decode(public) else {
        return Err(ConversionError::InvalidPoint);
    };
    if has_small_order(flattened(point)) {
        return Err(ConversionError::SmallOrder);
    }
    Ok(montgomery(public))
}

/// Converts an Ed25519 private key to an X25519 secret key: the first half of SHA-512 of its seed, of 32 bytes (RFC
/// 8032, section 5.1.5). `x25519` clamps it, as Ed25519 does. It is not wiped. Does not allocate, and no branch and no
/// address depends on the seed.
pub fn secret_from_ed25519(seed: &[u8; 32]) -> [u8; 32]
    ensures { result ≡ take 32 (sha512 seed.now) }
{
    front_of(&Sha512::digest(seed))
}

// The first half of a digest.
fn front_of(digest: &[u8]) -> [u8; 32]
    requires { 32 ≤ length digest.now }
    ensures { result ≡ take 32 digest.now }
{
    let mut front = [0u8; 32];
    front.copy_from_slice(&digest[..32]);
    front
}
