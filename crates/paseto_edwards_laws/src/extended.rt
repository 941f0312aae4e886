//! The formulas of RFC 8032, section 5.1.4, compute in the group, on any complete curve.

ghost use Rattle.std.specs.Prelude.{ℕ, ◌-◌, ◌%◌, ◌^◌, ◌≡◌};
ghost use Rattle.paseto_primes.specs.Element.{times};
ghost use Rattle.paseto_edwards_laws.specs.Extended.{Extended, Stands, added, doubled, negated, of_affine};
ghost use Rattle.paseto_edwards_laws.specs.Group.{Affine, IsComplete, IsPoint, opposite, sum};

/// A point has the coordinates (x, y, 1, x * y).
pub fn affine_coordinates()
    ensures { (p d : ℕ) → IsComplete p d → (a : Affine) → IsPoint p d a → Stands p d (of_affine p a) a }
{}

/// x and y are the quotients X / Z and Y / Z, with the power p - 2 of Z as its inverse.
pub fn quotients_of_coordinates()
    ensures x { (p d : ℕ) → IsComplete p d → (q : Extended) (a : Affine) → Stands p d q a
        → times p q.x (q.z ^ (p - 2) % p) ≡ a.x }
    ensures y { (p d : ℕ) → IsComplete p d → (q : Extended) (a : Affine) → Stands p d q a
        → times p q.y (q.z ^ (p - 2) % p) ≡ a.y }
{}

/// The addition formulas give the sum.
pub fn added_is_sum()
    ensures { (p d : ℕ) → IsComplete p d → (q r : Extended) (a b : Affine) → Stands p d q a → Stands p d r b
        → Stands p d (added p d q r) (sum p d a b) }
{}

/// The doubling formulas give the sum of a point and itself.
pub fn doubled_is_sum()
    ensures { (p d : ℕ) → IsComplete p d → (q : Extended) (a : Affine) → Stands p d q a
        → Stands p d (doubled p q) (sum p d a a) }
{}

/// The coordinates with -X and -T are those of the opposite point.
pub fn negated_is_opposite()
    ensures { (p d : ℕ) → IsComplete p d → (q : Extended) (a : Affine) → Stands p d q a
        → Stands p d (negated p q) (opposite p a) }
{}
