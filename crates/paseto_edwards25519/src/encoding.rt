//! Points as 32 bytes (RFC 8032, sections 5.1.2 and 5.1.3).

ghost use Rattle.std.specs.Prelude.{◌≡◌, ◌↔◌, ℕ, ◌+◌, ◌-◌, ◌*◌, ◌/◌, ◌%◌, ◌^◌, ◌<◌, Some, IfSome, IsTrue, length, option_map};
ghost use Rattle.paseto_edwards25519.specs.Curve.{IsPoint};
ghost use Rattle.paseto_edwards25519.specs.Encoding.{at, candidate, decoded, encoded, point_of, root_at, square_root};
ghost use Rattle.paseto_edwards25519.specs.Field.{IsCarried, minus, number, times};
ghost use Rattle.paseto_edwards_laws.specs.Edwards25519.{prime};
ghost use Rattle.paseto_edwards25519.specs.Extended.{affine};
ghost use Rattle.paseto_edwards25519.specs.Point.{point, projected};
ghost use Rattle.paseto_edwards25519.specs.Scalar.{number32};

use crate::bytes::{bytes32, halves};
use crate::field;
use crate::field::canonical::{carry, from_halves, is_equal, negative, to_halves};
use crate::field::constants::{curve_d, one, square_root_of_minus_one, zero};
use crate::field::powers::{inverse, root_power};
use crate::field::{FieldElement, mul, square};
use crate::point::{ExtendedPoint, ProjectivePoint};

// What the sign counts in the upper half of an encoding.
const SIGN: u128 = 1 << 127;

// The halves of 2^255 - 19.
const PRIME_LOW: u128 = u128::MAX - 18;

const PRIME_HIGH: u128 = SIGN - 1;

/// The encoding of a point.
pub fn encode(p: ProjectivePoint) -> [u8; 32]
    ensures { result ≡ encoded (affine (projected p)) }
{
    let z_inverse = inverse(p.z);
    let (x_low, _x_high) = to_halves(mul(p.x, z_inverse));
    let (low, high) = to_halves(mul(p.y, z_inverse));
    bytes32(low, high + x_low % 2 * SIGN)
}

// A number that is the square root of u / v, or is once it is multiplied by a fourth root of 1, if u / v has one.
fn candidate(u: FieldElement, v: FieldElement) -> FieldElement
    ensures value { number result ≡ candidate (number u) (number v) }
    ensures carried { IsCarried result }
{
    let cube = mul(square(v), v);
    let seventh = mul(square(cube), v);
    mul(mul(u, cube), root_power(mul(u, seventh)))
}

// The square root of u / v, if it has one.
fn square_root(u: FieldElement, v: FieldElement) -> Option<FieldElement>
    requires { IsCarried u }
    ensures value { option_map number result ≡ square_root (number u) (number v) }
    ensures root { IfSome result (λ root. times (number v) (times (number root) (number root)) ≡ number u) }
    ensures carried { IfSome result (λ root. IsCarried root) }
{
    let x = candidate(u, v);
    let product = mul(v, square(x));
    if is_equal(product, u) {
        return Some(x);
    }
    if is_equal(product, negative(u)) {
        return Some(mul(x, square_root_of_minus_one()));
    }
    None
}

// The point of x and y.
fn affine(x: FieldElement, y: FieldElement) -> ExtendedPoint
    requires first { IsCarried x }
    requires second { IsCarried y }
    requires on_curve { IsPoint (at (number x) (number y)) }
    ensures { point result ≡ at (number x) (number y) }
{
    ExtendedPoint {
        x,
        y,
        z: one(),
        t: mul(x, y),
    }
}

// The point of y, and of x or -x, whose lowest bit is to be this.
fn signed_point(y: FieldElement, sign: u128, x: FieldElement) -> Option<ExtendedPoint>
    requires first { IsCarried x }
    requires second { IsCarried y }
    requires on_curve { IsPoint (at (number x) (number y)) }
    ensures { option_map point result ≡ point_of (number y) sign (Some (number x)) }
{
    let (low, _high) = to_halves(x);
    if low % 2 == sign {
        return Some(affine(x, y));
    }
    if is_equal(x, zero()) {
        return None;
    }
    Some(affine(negative(x), y))
}

// Whether a number, given by its halves, is below p.
fn is_below_prime(low: u128, high: u128) -> bool
    requires { high < 2 ^ 127 }
    ensures { IsTrue result ↔ low + 2 ^ 128 * high < prime }
{
    high < PRIME_HIGH || low < PRIME_LOW
}

// The square root that x is, or -x, where y is that of a point.
fn root_at(y: FieldElement) -> Option<FieldElement>
    ensures value { option_map number result ≡ root_at (number y) }
    ensures carried { IfSome result (λ x. IsCarried x) }
    ensures on_curve { IfSome result (λ x. IsPoint (at (number x) (number y))) }
{
    let square_y = square(y);
    let u = carry(field::sub(square_y, one()));
    let v = field::add(mul(curve_d(), square_y), one());
    square_root(u, v)
}

/// Decodes a point, or returns `None` if y is not below p, if there is no x, or if x is 0 and has a
/// sign.
pub fn decode(bytes: &[u8]) -> Option<ExtendedPoint>
    requires { length bytes.now ≡ 32 }
    ensures { option_map point result ≡ decoded bytes.now }
{
    let (low, high) = halves(bytes);
    if !is_below_prime(low, high % SIGN) {
        return None;
    }
    let y = from_halves(low, high % SIGN);
    match root_at(y) {
        Some(x) => signed_point(y, high / SIGN, x),
        None => None,
    }
}
