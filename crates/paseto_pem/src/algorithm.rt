//! The algorithms of keys, and the curves.

ghost use Rattle.std.specs.Prelude.{◌≡◌, ◌≢◌};
ghost use Rattle.paseto_pem.specs.Algorithm.{IsAlgorithm, IsCurve, ec_public_key, ed25519, rsa, secp256k1, secp256r1, secp384r1, secp521r1};

use crate::found::{Algorithm, Curve};
use paseto_der::read_element;

const SEQUENCE: u8 = 0x30;

/// The algorithm id-Ed25519.
pub(crate) fn ed25519() -> [u8; 5]
    ensures { result ≡ ed25519 }
{
    [0x06, 0x03, 0x2b, 0x65, 0x70]
}

/// The algorithm id-ecPublicKey, without the curve.
pub(crate) fn ec_public_key() -> [u8; 9]
    ensures { result ≡ ec_public_key }
{
    [0x06, 0x07, 0x2a, 0x86, 0x48, 0xce, 0x3d, 0x02, 0x01]
}

/// The algorithm rsaEncryption, with its parameters.
pub(crate) fn rsa() -> [u8; 13]
    ensures { result ≡ rsa }
{
    [
        0x06, 0x09, 0x2a, 0x86, 0x48, 0x86, 0xf7, 0x0d, 0x01, 0x01, 0x01, 0x05, 0x00,
    ]
}

/// The curve P-384.
pub(crate) fn secp384r1() -> [u8; 7]
    ensures { result ≡ secp384r1 }
{
    [0x06, 0x05, 0x2b, 0x81, 0x04, 0x00, 0x22]
}

// The curve P-256.
fn secp256r1() -> [u8; 10]
    ensures { result ≡ secp256r1 }
{
    [0x06, 0x08, 0x2a, 0x86, 0x48, 0xce, 0x3d, 0x03, 0x01, 0x07]
}

// The curve P-521.
fn secp521r1() -> [u8; 7]
    ensures { result ≡ secp521r1 }
{
    [0x06, 0x05, 0x2b, 0x81, 0x04, 0x00, 0x23]
}

// The curve secp256k1.
fn secp256k1() -> [u8; 7]
    ensures { result ≡ secp256k1 }
{
    [0x06, 0x05, 0x2b, 0x81, 0x04, 0x00, 0x0a]
}

/// The algorithm that octets are, with its parameters.
pub(crate) fn algorithm_of(octets: &[u8]) -> Algorithm
    ensures { IsAlgorithm result octets.now }
{
    if octets == ed25519().as_slice() {
        return Algorithm::Ed25519;
    }
    if octets == rsa().as_slice() {
        return Algorithm::Rsa;
    }
    match octets.strip_prefix(&ec_public_key()) {
        Some(_) => Algorithm::EllipticCurve,
        None => Algorithm::Unknown,
    }
}

/// The curve that parameters name or give, which are not those of P-384.
pub(crate) fn curve_of(octets: &[u8]) -> Curve
    ensures { IsCurve result octets.now }
{
    if octets == secp256r1().as_slice() {
        return Curve::P256;
    }
    if octets == secp521r1().as_slice() {
        return Curve::P521;
    }
    if octets == secp256k1().as_slice() {
        return Curve::Secp256k1;
    }
    match read_element(SEQUENCE, octets) {
        Some(_) => Curve::Explicit,
        None => Curve::Unknown,
    }
}
