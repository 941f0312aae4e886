//! The sum of a multiple of the base point and a multiple of another point. Neither number is
//! secret.

ghost use Rattle.std.specs.Prelude.{◌≡◌, ◌≢◌, ℕ, ◌+◌, ◌*◌, ◌%◌, ◌^◌, ◌<◌, get_or};
ghost use Rattle.paseto_edwards_laws.specs.Group.{Affine};
ghost use Rattle.paseto_edwards_laws.specs.Edwards25519.{base};
ghost use Rattle.paseto_edwards25519.specs.Curve.{IsPoint, multiple, sum};
ghost use Rattle.paseto_edwards25519.specs.Extended.{affine};
ghost use Rattle.paseto_edwards25519.specs.Point.{AreOddMultiples, AreSignedMultiples, HaveUnitZ, completed, point, prepared, projected};
ghost use Rattle.paseto_edwards25519.specs.Scalar.{number32};
ghost use Rattle.paseto_edwards25519.specs.Windows.{signed_multiple};

use super::comb::known_multiple;
use super::windows::{used, windows};
use super::{
    Addend, Completed, ExtendedPoint, ProjectivePoint, add, add_affine, double, flattened,
    identity, opposed, prepared, to_extended, to_projective,
};
use crate::bytes::halves;

// How many multiples of a point are made: those by 1, 3 and so on to 15.
const MULTIPLES: usize = 8;

// How many odd digits there are, of which the upper half stand for numbers below 0.
const SIGNED_MULTIPLES: usize = 16;

// The multiples of a point by 1, 3 and so on to 15.
fn odd_multiples(a: ExtendedPoint) -> [Addend; 8]
    ensures { AreOddMultiples (point a) 8 result }
{
    let twice = prepared(to_extended(double(flattened(a))));
    let mut last = a;
    let mut table = [prepared(a); MULTIPLES];
    'multiples: for i in 1..MULTIPLES {
        last = to_extended(add(last, &twice));
        table[i] = prepared(last);
    }
    table
}

// The multiples of the base point by 1, 3 and so on to 15.
fn known_odd_multiples() -> [Addend; 8]
    ensures is { AreOddMultiples base 8 result }
    ensures unit { HaveUnitZ 8 result }
{
    let mut table = [known_multiple(1); MULTIPLES];
    'multiples: for i in 1..MULTIPLES {
        table[i] = known_multiple(2 * i as u128 + 1);
    }
    table
}

// The multiples that the odd digits stand for, of those by 1, 3 and so on to 15.
fn signed_multiples(odd: &[Addend; 8]) -> [Addend; 16]
    ensures is { (a : Affine) → IsPoint a → AreOddMultiples a 8 odd.now → AreSignedMultiples a 16 result }
    ensures unit { HaveUnitZ 8 odd.now → HaveUnitZ 16 result }
{
    let mut table = [odd[0]; SIGNED_MULTIPLES];
    'multiples: for i in 0..MULTIPLES {
        table[i] = odd[i];
        table[SIGNED_MULTIPLES - 1 - i] = opposed(&odd[i]);
    }
    table
}

// A point, and the multiple of the base point that a digit stands for.
#[inline(always)]
fn add_known(p: Completed, digit: u8, table: &[Addend; 16]) -> Completed
    requires bound { digit < 32 }
    requires odd { digit ≢ 0 → digit % 2 ≡ 1 }
    requires table { AreSignedMultiples base 16 table.now }
    requires unit { HaveUnitZ 16 table.now }
    ensures { affine (completed result) ≡ sum (affine (completed p)) (signed_multiple digit base) }
{
    if digit == 0 {
        return p;
    }
    add_affine(to_extended(p), &table[digit as usize / 2])
}

// A point, and the multiple of the other point that a digit stands for.
#[inline(always)]
fn add_listed(p: Completed, digit: u8, table: &[Addend; 16]) -> Completed
    requires bound { digit < 32 }
    requires odd { digit ≢ 0 → digit % 2 ≡ 1 }
    ensures { (a : Affine) → AreSignedMultiples a 16 table.now
        → affine (completed result) ≡ sum (affine (completed p)) (signed_multiple digit a) }
{
    if digit == 0 {
        return p;
    }
    add(to_extended(p), &table[digit as usize / 2])
}

/// The sum of the multiple of the base point by `s` and the multiple of another point by `k`. The
/// time may depend on all of them.
pub fn multiply_both(s: &[u8; 32], k: &[u8; 32], a: ExtendedPoint) -> ProjectivePoint
    ensures { affine (projected result) ≡ sum (multiple (number32 s.now) base)
        (multiple (number32 k.now) (point a)) }
{
    let known = signed_multiples(&known_odd_multiples());
    let table = signed_multiples(&odd_multiples(a));
    let (first, second) = (windows(halves(s)), windows(halves(k)));
    let count = used(&first, &second);
    let mut sum = flattened(identity());
    'digits: for i in 0..count {
        let at = count - 1 - i;
        let more = add_known(double(sum), first[at], &known);
        sum = to_projective(add_listed(more, second[at], &table));
    }
    sum
}
