//! Points as octets (SEC 1, sections 2.3.3 and 2.3.4), compressed.

ghost use Rattle.std.specs.Prelude.{◌≡◌, ◌<◌, ◌%◌, length, option_map};
ghost use Rattle.paseto_montgomery.specs.Words.{value};
ghost use Rattle.paseto_p384.specs.Element.{number};
ghost use Rattle.paseto_p384.specs.Encoding.{affine, decoded, encoded, point_at, right_side, signed};
ghost use Rattle.paseto_weierstrass_laws.specs.Field.{prime};
ghost use Rattle.paseto_p384.specs.Point.{coordinates};

use crate::ecdsa::halves;
use crate::field::constants::{curve_b, one, zero};
use crate::field::powers::{inverse, root};
use crate::field::{
    FieldElement, add, from_words, is_equal, mul, prime_words, sub, to_words, triple,
};
use crate::point::ProjectivePoint;
use paseto_montgomery::{bit, from_octets, is_less, to_octets};

/// The encoding of a point.
pub(crate) fn encode(p: ProjectivePoint) -> [u8; 49]
    ensures { result ≡ encoded (coordinates p) }
{
    let z_inverse = inverse(p.z);
    let x = to_words(mul(p.x, z_inverse));
    let y = to_words(mul(p.y, z_inverse));
    let mut octets = [0; 49];
    let (first, rest) = octets.split_at_mut(1);
    first[0] = 2 + bit(&y, 0) as u8;
    to_octets(&x, rest);
    octets
}

/// The coordinates of a point, the greatest octet of each first.
pub(crate) fn affine_octets(p: ProjectivePoint) -> [u8; 96]
    ensures { result ≡ affine (coordinates p) }
{
    let z_inverse = inverse(p.z);
    let x = to_words(mul(p.x, z_inverse));
    let y = to_words(mul(p.y, z_inverse));
    halves(&x, &y)
}

// What y^2 has to be.
fn right_side(x: FieldElement) -> FieldElement
    ensures { number result ≡ right_side (number x) }
{
    add(sub(mul(mul(x, x), x), triple(x)), curve_b())
}

// The element or its opposite, whose lowest bit is to be this.
fn signed(odd: u64, y: FieldElement) -> FieldElement
    ensures { number result ≡ signed odd (number y) }
{
    if bit(&to_words(y), 0) == odd {
        return y;
    }
    sub(zero(), y)
}

// The point of x whose y has this lowest bit, if there is one.
fn point_at(odd: u64, x: FieldElement) -> Option<ProjectivePoint>
    ensures { option_map coordinates result ≡ point_at odd (number x) }
{
    let square = right_side(x);
    let y = root(square);
    if !is_equal(mul(y, y), square) {
        return None;
    }
    Some(ProjectivePoint {
        x,
        y: signed(odd, y),
        z: one(),
    })
}

/// The point of an encoding, if it is one.
pub(crate) fn decode(octets: &[u8]) -> Option<ProjectivePoint>
    requires { length octets.now ≡ 49 }
    ensures { option_map coordinates result ≡ decoded octets.now }
{
    let first = octets[0];
    if first / 2 != 1 {
        return None;
    }
    let (_first, rest) = octets.split_at(1);
    let x = from_octets(rest);
    if !is_less(&x, &prime_words()) {
        return None;
    }
    point_at((first % 2) as u64, from_words(&x))
}
