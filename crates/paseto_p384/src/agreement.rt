//! The secret that two parties agree on (SEC 1, section 3.3.1; SP 800-56A, section 5.7.1.2).

ghost use Rattle.std.specs.Prelude.{◌≡◌};
ghost use Rattle.paseto_montgomery.specs.Words.{value};
ghost use Rattle.paseto_p384.specs.Agreement.{x_of};
ghost use Rattle.paseto_p384.specs.Point.{coordinates};
ghost use Rattle.paseto_weierstrass_laws.specs.Group.{IsPoint};
ghost use Rattle.paseto_weierstrass_laws.specs.Multiples.{multiple_of};

use crate::field::powers::inverse;
use crate::field::{mul, to_words};
use crate::point::{ProjectivePoint, multiply_secret};
use paseto_montgomery::to_octets;
use thiserror::Error;

/// Why there is no shared secret.
#[derive(Debug, Drop, Error)]
pub enum AgreementError {
    /// The own private key is not valid: another length than 48 bytes, 0, or a number that is not below n.
    #[error("the private key is no number above 0 and below n in 48 bytes: make one by key_pair")]
    InvalidPrivateKey,
    /// The other party's public key is not a point of the curve.
    #[error("the other party's public key is no point of P-384: ask for another")]
    InvalidPoint,
}

// The coordinate x of a point that is not the point at infinity. No branch and no address depends on it.
fn x_of(p: ProjectivePoint) -> [u8; 48]
    ensures { result ≡ x_of (coordinates p) }
{
    let x = to_words(mul(p.x, inverse(p.z)));
    let mut octets = [0; 48];
    to_octets(&x, &mut octets);
    octets
}

/// The coordinate x of the multiple of a point. By a number above 0 and below n that is not the point at infinity. No
/// branch and no address depends on the number.
pub(crate) fn agreed(d: &[u64; 6], q: ProjectivePoint) -> [u8; 48]
    requires { IsPoint (coordinates q) }
    ensures { result ≡ x_of (multiple_of (value d.now 6) (coordinates q)) }
{
    x_of(multiply_secret(q, d))
}
