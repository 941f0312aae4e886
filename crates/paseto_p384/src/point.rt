//! Points of the curve: sums, doubles and multiples, by complete formulas.

ghost use Rattle.std.specs.Prelude.{◌≡◌, ℕ, ◌*◌, ◌<◌};
ghost use Rattle.paseto_p384.specs.Element.{number};
ghost use Rattle.paseto_p384.specs.Point.{AreProducts, coordinates, plane};
ghost use Rattle.paseto_weierstrass_laws.specs.Group.{IsPoint};
ghost use Rattle.paseto_weierstrass_laws.specs.Multiples.{IsMultiple};
ghost use Rattle.paseto_weierstrass_laws.specs.Point.{Point, cross, neutral, point_add, point_double};

mod comb;
mod plane;
mod products;
mod projective;
mod secret_windows;
mod table;
mod windows;

use crate::field;
use crate::field::constants::{curve_b, one, zero};
use crate::field::{FieldElement, choose, mul, sub, triple};
pub(crate) use comb::multiply_base;
pub(crate) use plane::PlanePoint;
use products::Products;
pub(crate) use projective::ProjectivePoint;
pub(crate) use secret_windows::multiply_secret;
pub(crate) use windows::multiply;

/// The neutral point.
pub(crate) fn neutral() -> ProjectivePoint
    ensures { coordinates result ≡ neutral }
{
    ProjectivePoint {
        x: zero(),
        y: one(),
        z: zero(),
    }
}

// p * s + q * r, from the products p * r and q * s.
fn cross(
    p: FieldElement,
    q: FieldElement,
    r: FieldElement,
    s: FieldElement,
    first: FieldElement,
    second: FieldElement,
) -> FieldElement
    ensures { number result
        ≡ cross (number p) (number q) (number r) (number s) (number first) (number second) }
{
    sub(
        mul(field::add(p, q), field::add(r, s)),
        field::add(first, second),
    )
}

// The sum of two points by these products.
#[inline(always)]
fn sum_of(products: Products) -> ProjectivePoint
    ensures { (p q : Point) → AreProducts p q products → coordinates result ≡ point_add p q }
{
    let Products {
        xx,
        yy,
        zz,
        xy,
        yz,
        xz,
    } = products;
    let part = triple(sub(xz, mul(curve_b(), zz)));
    let low = sub(yy, part);
    let high = field::add(yy, part);
    let zzz = triple(zz);
    let inner = triple(sub(sub(mul(curve_b(), xz), zzz), xx));
    let outer = sub(triple(xx), zzz);
    ProjectivePoint {
        x: sub(mul(xy, high), mul(yz, inner)),
        y: field::add(mul(high, low), mul(outer, inner)),
        z: field::add(mul(yz, low), mul(xy, outer)),
    }
}

/// The sum of two points.
pub(crate) fn add(p: ProjectivePoint, q: ProjectivePoint) -> ProjectivePoint
    ensures { coordinates result ≡ point_add (coordinates p) (coordinates q) }
{
    let xx = mul(p.x, q.x);
    let yy = mul(p.y, q.y);
    let zz = mul(p.z, q.z);
    let xy = cross(p.x, p.y, q.x, q.y, xx, yy);
    let yz = cross(p.y, p.z, q.y, q.z, yy, zz);
    let xz = cross(p.x, p.z, q.x, q.z, xx, zz);
    sum_of(Products {
        xx,
        yy,
        zz,
        xy,
        yz,
        xz,
    })
}

/// The sum of a point and of one whose Z is 1, by one product fewer.
pub(crate) fn add_plane(p: ProjectivePoint, q: PlanePoint) -> ProjectivePoint
    ensures { coordinates result ≡ point_add (coordinates p) (plane q) }
{
    let xx = mul(p.x, q.x);
    let yy = mul(p.y, q.y);
    let xy = cross(p.x, p.y, q.x, q.y, xx, yy);
    let yz = field::add(mul(q.y, p.z), p.y);
    let xz = field::add(mul(q.x, p.z), p.x);
    sum_of(Products {
        xx,
        yy,
        zz: p.z,
        xy,
        yz,
        xz,
    })
}

/// The double of a point.
pub(crate) fn double(p: ProjectivePoint) -> ProjectivePoint
    ensures { coordinates result ≡ point_double (coordinates p) }
{
    let xx = mul(p.x, p.x);
    let yy = mul(p.y, p.y);
    let zz = mul(p.z, p.z);
    let xy_half = mul(p.x, p.y);
    let xy = field::add(xy_half, xy_half);
    let xz_half = mul(p.x, p.z);
    let xz = field::add(xz_half, xz_half);
    let yz_half = mul(p.y, p.z);
    let yz = field::add(yz_half, yz_half);
    let part = triple(sub(mul(curve_b(), zz), xz));
    let low = sub(yy, part);
    let high = field::add(yy, part);
    let zzz = triple(zz);
    let inner = triple(sub(sub(mul(curve_b(), xz), zzz), xx));
    let outer = sub(triple(xx), zzz);
    let quarter = mul(yz, yy);
    let half = field::add(quarter, quarter);
    ProjectivePoint {
        x: sub(mul(low, xy), mul(yz, inner)),
        y: field::add(mul(low, high), mul(outer, inner)),
        z: field::add(half, half),
    }
}

/// Sixteen times a point, with no branch.
pub(crate) fn sixteen_times(p: ProjectivePoint) -> ProjectivePoint
    ensures { (q : Point) (n : ℕ) → IsPoint q → IsMultiple q (coordinates p) n
        → IsMultiple q (coordinates result) (16 * n) }
{
    double(double(double(double(p))))
}

/// The first point where `choice` is 1, and the second where it is 0, with no branch.
#[inline(always)]
pub(crate) fn choose_point(choice: u64, p: ProjectivePoint, q: ProjectivePoint) -> ProjectivePoint
    requires { choice < 2 }
    ensures one { choice ≡ 1 → coordinates result ≡ coordinates p }
    ensures zero { choice ≡ 0 → coordinates result ≡ coordinates q }
{
    ProjectivePoint {
        x: choose(choice, p.x, q.x),
        y: choose(choice, p.y, q.y),
        z: choose(choice, p.z, q.z),
    }
}
