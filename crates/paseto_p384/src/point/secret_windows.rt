//! The multiple of any point by a number that is a secret. No branch and no address depends on the number.

ghost use Rattle.std.specs.Prelude.{◌≡◌, ℕ, ◌+◌, ◌*◌, ◌^◌, ◌<◌};
ghost use Rattle.paseto_montgomery.specs.Words.{value};
ghost use Rattle.paseto_weierstrass_laws.specs.Group.{IsPoint};
ghost use Rattle.paseto_weierstrass_laws.specs.Multiples.{IsMultiple};
ghost use Rattle.paseto_weierstrass_laws.specs.Point.{Point};
ghost use Rattle.paseto_p384.specs.Point.{AreMultiples, coordinates};

use super::windows::{MULTIPLES, WINDOWS, multiples};
use super::{ProjectivePoint, add, choose_point, neutral, sixteen_times};
use paseto_montgomery::{is_different, window};

// The multiple by a window of the point whose multiples are given: each is read, and one is kept.
fn select(table: &[ProjectivePoint; 16], at: u64) -> ProjectivePoint
    requires { at < 16 }
    ensures { (q : Point) → AreMultiples q 16 table.now → IsMultiple q (coordinates result) at }
{
    let mut chosen = table[0];
    'multiples: for i in 1..MULTIPLES {
        chosen = choose_point(is_different(at, i as u64), chosen, table[i]);
    }
    chosen
}

/// The multiple of a point by a number, in a fixed number of steps. No branch and no address depends on the number or
/// on the point.
pub(crate) fn multiply_secret(p: ProjectivePoint, k: &[u64; 6]) -> ProjectivePoint
    requires { IsPoint (coordinates p) }
    ensures { IsMultiple (coordinates p) (coordinates result) (value k.now 6) }
{
    let table = multiples(p);
    let mut sum = neutral();
    'windows: for i in 0..WINDOWS {
        sum = add(
            sixteen_times(sum),
            select(&table, window(k, WINDOWS - 1 - i)),
        );
    }
    sum
}
