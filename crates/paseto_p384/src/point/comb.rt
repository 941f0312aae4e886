//! The multiple of the base point, by a table of multiples. No branch and no address depends on the number.

ghost use Rattle.std.specs.Prelude.{◌≡◌, ◌≢◌, ℕ, ◌+◌, ◌*◌, ◌^◌, ◌<◌, ◌≤◌};
ghost use Rattle.paseto_montgomery.specs.Words.{value};
ghost use Rattle.paseto_primes.specs.Digits.{row_sum};
ghost use Rattle.paseto_weierstrass_laws.specs.Multiples.{IsMultiple};
ghost use Rattle.paseto_weierstrass_laws.specs.Point.{base};
ghost use Rattle.paseto_p384.specs.Point.{coordinates, plane};

use super::table::{ROWS, entry};
use super::{PlanePoint, ProjectivePoint, add_plane, choose_point, neutral, sixteen_times};
use crate::field::{FieldElement, choose};
use paseto_montgomery::{is_different, window};

// How many digits of 4 bits stand between those of two rows that are added in one turn.
const TURNS: usize = 4;

// How many digits a row has.
const DIGITS: usize = 16;

// The multiple of the base point by a digit that is not 0, in a row.
fn known_multiple(row: usize, at: usize) -> PlanePoint
    requires row { row < 24 }
    requires some { 0 < at }
    requires at { at < 16 }
    ensures { IsMultiple base (plane result) (at * 2 ^ (16 * row)) }
{
    let found = entry(row, at);
    PlanePoint {
        x: FieldElement { words: found[0] },
        y: FieldElement { words: found[1] },
    }
}

// The first point where `choice` is 1, and the second where it is 0, with no branch.
#[inline(always)]
fn choose_plane(choice: u64, p: PlanePoint, q: PlanePoint) -> PlanePoint
    requires { choice < 2 }
    ensures one { choice ≡ 1 → plane result ≡ plane p }
    ensures zero { choice ≡ 0 → plane result ≡ plane q }
{
    PlanePoint {
        x: choose(choice, p.x, q.x),
        y: choose(choice, p.y, q.y),
    }
}

// The multiple of the base point by a digit in a row, and by another where the digit is 0: each is read, and one is kept.
fn multiple_at(row: usize, at: u64) -> PlanePoint
    requires row { row < 24 }
    requires at { at < 16 }
    ensures { 0 < at → IsMultiple base (plane result) (at * 2 ^ (16 * row)) }
{
    let mut chosen = known_multiple(row, 1);
    'digits: for i in 2..DIGITS {
        chosen = choose_plane(is_different(at, i as u64), chosen, known_multiple(row, i));
    }
    chosen
}

// A point, and the multiple of the base point by a digit in a row.
fn add_digit(p: ProjectivePoint, row: usize, at: u64) -> ProjectivePoint
    requires row { row < 24 }
    requires at { at < 16 }
    ensures { (n : ℕ) → IsMultiple base (coordinates p) n
        → IsMultiple base (coordinates result) (n + at * 2 ^ (16 * row)) }
{
    choose_point(is_different(at, 0), add_plane(p, multiple_at(row, at)), p)
}

// A point, and of each row the multiple by its digit of this turn.
fn add_rows(p: ProjectivePoint, k: &[u64; 6], turn: usize) -> ProjectivePoint
    requires { turn < 4 }
    ensures { (n : ℕ) → IsMultiple base (coordinates p) n
        → IsMultiple base (coordinates result) (n + row_sum (value k.now 6) turn 24) }
{
    let mut sum = p;
    'rows: for i in 0..ROWS {
        sum = add_digit(sum, i, window(k, TURNS * i + turn));
    }
    sum
}

/// The multiple of the base point by a number, in a fixed number of steps. No branch and no address depends on the
/// number.
pub(crate) fn multiply_base(k: &[u64; 6]) -> ProjectivePoint
    ensures { IsMultiple base (coordinates result) (value k.now 6) }
{
    let mut sum = add_rows(neutral(), k, TURNS - 1);
    'turns: for i in 1..TURNS {
        sum = add_rows(sixteen_times(sum), k, TURNS - 1 - i);
    }
    sum
}
