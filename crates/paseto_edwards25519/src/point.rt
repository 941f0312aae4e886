//! Points of the curve: sums and multiples, by the formulas of RFC 8032, section 5.1.4.

ghost use Rattle.std.specs.Prelude.{◌≡◌, ◌↔◌, ◌+◌, ◌*◌, ◌/◌, ◌%◌, ◌^◌, ◌<◌, IsTrue};
ghost use Rattle.paseto_edwards_laws.specs.Group.{neutral};
ghost use Rattle.paseto_edwards25519.specs.Curve.{HasSmallOrder, multiple, opposite, sum};
ghost use Rattle.paseto_edwards_laws.specs.Edwards25519.{base};
ghost use Rattle.paseto_edwards25519.specs.Extended.{affine};
ghost use Rattle.paseto_edwards25519.specs.Field.{IsCarried, number, times};
ghost use Rattle.paseto_edwards25519.specs.Point.{completed, coordinates, point, prepared, projected};
ghost use Rattle.paseto_edwards25519.specs.Scalar.{number32};

mod addend;
mod comb;
mod completed;
mod extended;
mod joint;
mod projective;
mod table;
mod windows;

use crate::bytes::halves;
use crate::field;
use crate::field::canonical::{carry, is_equal, negative};
use crate::field::constants::{base_t, base_x, base_y, one, twice_d, zero};
use crate::field::{FieldElement, add_loose, choose, mul, square, sub_loose};
use addend::Addend;
pub use comb::multiply_base;
use completed::Completed;
pub use extended::ExtendedPoint;
pub use joint::multiply_both;
pub use projective::ProjectivePoint;

// How many digits of 4 bits half a scalar has.
const HALF_DIGITS: usize = 32;

// The neutral point.
fn identity() -> ExtendedPoint
    ensures { point result ≡ neutral }
{
    ExtendedPoint {
        x: zero(),
        y: one(),
        z: one(),
        t: zero(),
    }
}

// The base point B.
fn base() -> ExtendedPoint
    ensures { point result ≡ base }
{
    ExtendedPoint {
        x: base_x(),
        y: base_y(),
        z: one(),
        t: base_t(),
    }
}

// What sums with this point need of it.
fn prepared(q: ExtendedPoint) -> Addend
    ensures { affine (prepared result) ≡ point q }
{
    Addend {
        difference: field::sub(q.y, q.x),
        total: field::add(q.y, q.x),
        z: q.z,
        scaled: mul(twice_d(), q.t),
    }
}

// The point that the factors give.
#[inline(always)]
fn to_extended(c: Completed) -> ExtendedPoint
    ensures { point result ≡ affine (completed c) }
{
    ExtendedPoint {
        x: mul(c.e, c.f),
        y: mul(c.g, c.h),
        z: mul(c.f, c.g),
        t: mul(c.e, c.h),
    }
}

// The point that the factors give, without T.
#[inline(always)]
fn to_projective(c: Completed) -> ProjectivePoint
    ensures { affine (projected result) ≡ affine (completed c) }
{
    ProjectivePoint {
        x: mul(c.e, c.f),
        y: mul(c.g, c.h),
        z: mul(c.f, c.g),
    }
}

/// The same point, without T.
#[inline(always)]
pub fn flattened(p: ExtendedPoint) -> ProjectivePoint
    ensures { affine (projected result) ≡ point p }
{
    ProjectivePoint {
        x: p.x,
        y: p.y,
        z: p.z,
    }
}

// The sum of two points, the product of whose coordinates Z is `zz`.
#[inline(always)]
fn add_at(p: ExtendedPoint, q: &Addend, zz: FieldElement) -> Completed
    requires carried { IsCarried zz }
    requires product { number zz ≡ times (number p.z) (number q.now.z) }
    ensures { affine (completed result) ≡ sum (point p) (affine (prepared q.now)) }
{
    let a = mul(field::sub(p.y, p.x), q.difference);
    let b = mul(field::add(p.y, p.x), q.total);
    let c = mul(p.t, q.scaled);
    let d = field::add(zz, zz);
    Completed {
        e: field::sub(b, a),
        f: sub_loose(d, c),
        g: add_loose(d, c),
        h: field::add(b, a),
    }
}

// The sum of two points.
fn add(p: ExtendedPoint, q: &Addend) -> Completed
    ensures { affine (completed result) ≡ sum (point p) (affine (prepared q.now)) }
{
    add_at(p, q, mul(p.z, q.z))
}

// The sum of two points, of which the second has Z = 1.
#[inline(always)]
fn add_affine(p: ExtendedPoint, q: &Addend) -> Completed
    requires { number q.now.z ≡ 1 }
    ensures { affine (completed result) ≡ sum (point p) (affine (prepared q.now)) }
{
    add_at(p, q, p.z)
}

// The double of a point, of which T is not read.
fn double(p: ProjectivePoint) -> Completed
    ensures { affine (completed result) ≡ sum (affine (projected p)) (affine (projected p)) }
{
    let a = square(p.x);
    let b = square(p.y);
    let zz = square(p.z);
    let c = field::add(zz, zz);
    let h = field::add(a, b);
    let g = field::sub(a, b);
    Completed {
        e: sub_loose(h, square(field::add(p.x, p.y))),
        f: add_loose(c, g),
        g,
        h,
    }
}

// What sums with the opposite of this point need of it.
fn opposed(q: &Addend) -> Addend
    ensures is { affine (prepared result) ≡ opposite (affine (prepared q.now)) }
    ensures unit { number result.z ≡ number q.now.z }
{
    Addend {
        difference: q.total,
        total: q.difference,
        z: q.z,
        scaled: negative(q.scaled),
    }
}

/// The opposite of a point.
pub fn negate(p: ExtendedPoint) -> ExtendedPoint
    ensures { point result ≡ opposite (point p) }
{
    ExtendedPoint {
        x: negative(p.x),
        y: p.y,
        z: p.z,
        t: negative(p.t),
    }
}

// Digit `at`, of 4 bits, of a number that is given by its halves.
#[inline(always)]
fn digit(number: (u128, u128), at: usize) -> u128
    requires { at < 64 }
    ensures value { result ≡ (number.0 + 2 ^ 128 * number.1) / 16 ^ at % 16 }
    ensures bound { result < 16 }
{
    if at < HALF_DIGITS {
        return (number.0 >> (4 * at)) % 16;
    }
    (number.1 >> (4 * (at - HALF_DIGITS))) % 16
}

// Sixteen times a point.
fn sixteen_times(p: ProjectivePoint) -> ExtendedPoint
    ensures { point result ≡ multiple 16 (affine (projected p)) }
{
    let twice = to_projective(double(p));
    let four_times = to_projective(double(twice));
    let eight_times = to_projective(double(four_times));
    to_extended(double(eight_times))
}

/// Whether a point has small order: whether x or y of its double is 0. The time may depend on the
/// point.
pub fn has_small_order(p: ProjectivePoint) -> bool
    ensures { IsTrue result ↔ HasSmallOrder (affine (projected p)) }
{
    let twice = double(p);
    is_equal(carry(twice.e), zero()) || is_equal(carry(twice.h), zero())
}
