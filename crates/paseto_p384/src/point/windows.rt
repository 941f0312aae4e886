//! The multiple of any point. Neither the point nor the number is a secret.

ghost use Rattle.std.specs.Prelude.{◌≡◌, ℕ, ◌+◌, ◌*◌, ◌^◌, ◌<◌};
ghost use Rattle.paseto_montgomery.specs.Words.{value};
ghost use Rattle.paseto_weierstrass_laws.specs.Group.{IsPoint, Same};
ghost use Rattle.paseto_weierstrass_laws.specs.Multiples.{IsMultiple};
ghost use Rattle.paseto_weierstrass_laws.specs.Point.{Point, point_double};
ghost use Rattle.paseto_p384.specs.Point.{AreMultiples, coordinates};

use super::{ProjectivePoint, add, double, neutral};
use crate::field::constants::zero;
use crate::field::{self, is_equal, mul, sub, triple};
use paseto_montgomery::window;

/// How many multiples of the point are made: one for each window of 4 bits.
pub(super) const MULTIPLES: usize = 16;

/// How many windows a number has.
pub(super) const WINDOWS: usize = 96;

// The double of a point, by fewer products: as J. Renes, C. Costello and L. Batina have it where Z is not 0, times Z^2.
fn double_known(p: ProjectivePoint) -> ProjectivePoint
    requires { IsPoint (coordinates p) }
    ensures { Same (point_double (coordinates p)) (coordinates result) }
{
    if is_equal(p.z, zero()) {
        return double(p);
    }
    let slope = triple(mul(sub(p.x, p.z), field::add(p.x, p.z)));
    let yz = mul(p.y, p.z);
    let s = field::add(yz, yz);
    let square = mul(s, s);
    let r = mul(p.y, s);
    let rr = mul(r, r);
    let xr = mul(p.x, r);
    let both = field::add(xr, xr);
    let h = sub(mul(slope, slope), field::add(both, both));
    let x = mul(h, s);
    let y = sub(mul(slope, sub(both, h)), field::add(rr, rr));
    let z = mul(s, square);
    ProjectivePoint { x, y, z }
}

// Sixteen times a point.
fn sixteen_times(p: ProjectivePoint) -> ProjectivePoint
    requires { IsPoint (coordinates p) }
    ensures { (q : Point) (n : ℕ) → IsPoint q → IsMultiple q (coordinates p) n
        → IsMultiple q (coordinates result) (16 * n) }
{
    let twice = double_known(p);
    let four_times = double_known(twice);
    let eight_times = double_known(four_times);
    double_known(eight_times)
}

/// The multiples of a point by 0 to 15.
pub(super) fn multiples(p: ProjectivePoint) -> [ProjectivePoint; 16]
    requires { IsPoint (coordinates p) }
    ensures { AreMultiples (coordinates p) 16 result }
{
    let mut last = neutral();
    let mut table = [last; MULTIPLES];
    'multiples: for i in 1..MULTIPLES {
        last = add(last, p);
        table[i] = last;
    }
    table
}

// A point, and the multiple by a window of the point whose multiples are given.
fn add_listed(sum: ProjectivePoint, at: u64, table: &[ProjectivePoint; 16]) -> ProjectivePoint
    requires { at < 16 }
    ensures { (q : Point) (n : ℕ) → IsPoint q → AreMultiples q 16 table.now
        → IsMultiple q (coordinates sum) n → IsMultiple q (coordinates result) (n + at) }
{
    if at == 0 {
        return sum;
    }
    add(sum, table[at as usize])
}

/// The multiple of a point by a number, in a time that may depend on both.
pub(crate) fn multiply(p: ProjectivePoint, k: &[u64; 6]) -> ProjectivePoint
    requires { IsPoint (coordinates p) }
    ensures { IsMultiple (coordinates p) (coordinates result) (value k.now 6) }
{
    let table = multiples(p);
    let mut sum = neutral();
    'windows: for i in 0..WINDOWS {
        sum = add_listed(sixteen_times(sum), window(k, WINDOWS - 1 - i), &table);
    }
    sum
}
