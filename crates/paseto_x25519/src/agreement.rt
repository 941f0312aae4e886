//! The function X25519, and key agreement with it.

ghost use Rattle.std.specs.Prelude.{◌≡◌, ◌≢◌, length, replicate, IfOk, IfErr};
ghost use Rattle.paseto_edwards25519.specs.Scalar.{number32};
ghost use Rattle.paseto_x25519.specs.Agreement.{base_point, clamped, x25519};

use crate::ladder::ladder;
use paseto_edwards25519::bytes::{bytes32, halves};
use paseto_edwards25519::field::canonical::{from_halves, to_halves};
use rusty_paseto_primitives::same_bytes;
use thiserror::Error;

// What the highest bit counts in the upper half of a coordinate.
const TOP_BIT: u128 = 1 << 127;

/// Why there is no shared secret.
#[derive(Debug, Drop, Error)]
pub enum AgreementError {
    /// The secret would be 0 for any own secret key: the other party's public key is the coordinate of a point of small
    /// order (RFC 7748, section 6.1). From `shared_secret`.
    #[error("the other party's public key is of small order: ask for another")]
    SmallOrder,
}

// The bytes of a scalar, made ready (RFC 7748, section 5, decodeScalar25519).
fn clamped(scalar: &[u8; 32]) -> [u8; 32]
    ensures { result ≡ clamped scalar.now }
{
    let mut bytes = *scalar;
    bytes[0] = bytes[0] / 8 * 8;
    bytes[31] = bytes[31] % 64 + 64;
    bytes
}

/// X25519(k, u) (RFC 7748, section 5), where `scalar` and `u` have 32 bytes each, lowest first. The highest bit of `u` is not
/// read, and a `u` from p on is taken modulo p. Does not allocate, and no branch and no address depends on either.
pub fn x25519(scalar: &[u8; 32], u: &[u8; 32]) -> [u8; 32]
    ensures { result ≡ x25519 scalar.now u.now }
{
    let (low, high) = halves(u);
    let x1 = from_halves(low, high % TOP_BIT);
    let (low, high) = to_halves(ladder(halves(&clamped(scalar)), x1));
    bytes32(low, high)
}

/// The public key of a secret key of 32 random bytes: X25519(secret, 9) (RFC 7748, section 6.1). The secret key is not
/// wiped. Does not allocate.
pub fn public_key(secret: &[u8; 32]) -> [u8; 32]
    ensures { result ≡ x25519 secret.now base_point }
{
    let mut u = [0u8; 32];
    u[0] = 9;
    x25519(secret, &u)
}

/// The shared secret of the own secret key and the other party's public key: X25519(secret, public) (RFC 7748, section
/// 6.1). `SmallOrder` is returned if and only if that is 0, which is checked in one step. Hash the secret together with
/// both public keys before you use it as a key. Does not allocate.
pub fn shared_secret(secret: &[u8; 32], public: &[u8; 32]) -> Result<[u8; 32], AgreementError>
    ensures ok { IfOk result (λ shared. (shared ≡ x25519 secret.now public.now) × (shared ≢ replicate 32 0)) }
    ensures err { IfErr result (λ error. (error ≡ AgreementError.SmallOrder)
        × (x25519 secret.now public.now ≡ replicate 32 0)) }
{
    let shared = x25519(secret, public);
    if same_bytes(&shared, &[0u8; 32]) {
        return Err(AgreementError::SmallOrder);
    }
    Ok(shared)
}
