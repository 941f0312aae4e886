//! The points of a complete twisted Edwards curve with a = -1 form a commutative group, with plain
//! equality.

ghost use Rattle.std.specs.Prelude.{ℕ, ◌+◌, ◌-◌, ◌*◌, ◌%◌, ◌≡◌, ◌≢◌};
ghost use Rattle.paseto_edwards_laws.specs.Group.{Affine, IsComplete, IsOn, IsPoint, cross, neutral, opposite, sum};

/// No sum of two points has a zero denominator: d * x * v * y * w is neither 1 nor -1 (Bernstein and Lange, "Faster
/// addition and doubling on elliptic curves", ASIACRYPT 2007, theorem 3.3; "Twisted Edwards Curves", section 6).
pub fn sums_are_defined()
    ensures { (p d : ℕ) → IsComplete p d → (x y v w : ℕ) → IsOn p d x y → IsOn p d v w
        → (d * (x * v * (y * w)) * (d * (x * v * (y * w)))) % p ≢ 1 % p }
{}

/// The coordinates of a sum are the quotients in its definition.
pub fn sum_is_quotient()
    ensures x { (p d : ℕ) → IsComplete p d → (a b : Affine) → IsPoint p d a → IsPoint p d b
        → ((1 + cross d a b) * (sum p d a b).x) % p ≡ (a.x * b.y + a.y * b.x) % p }
    ensures y { (p d : ℕ) → IsComplete p d → (a b : Affine) → IsPoint p d a → IsPoint p d b
        → ((1 + (p - cross d a b % p)) * (sum p d a b).y) % p ≡ (a.y * b.y + a.x * b.x) % p }
{}

/// A sum is a point.
pub fn sum_is_point()
    ensures { (p d : ℕ) → IsComplete p d → (a b : Affine) → IsPoint p d a → IsPoint p d b → IsPoint p d (sum p d a b) }
{}

/// Addition is commutative.
pub fn sum_commutes()
    ensures { (p d : ℕ) (a b : Affine) → sum p d a b ≡ sum p d b a }
{}

/// Addition is associative.
pub fn sum_associates()
    ensures { (p d : ℕ) → IsComplete p d → (a b c : Affine) → IsPoint p d a → IsPoint p d b → IsPoint p d c
        → sum p d (sum p d a b) c ≡ sum p d a (sum p d b c) }
{}

/// (0, 1) is a point.
pub fn neutral_is_point()
    ensures { (p d : ℕ) → IsComplete p d → IsPoint p d neutral }
{}

/// (0, 1) is the neutral element.
pub fn sum_with_neutral()
    ensures { (p d : ℕ) → IsComplete p d → (a : Affine) → IsPoint p d a → sum p d neutral a ≡ a }
{}

/// The opposite of a point is a point.
pub fn opposite_is_point()
    ensures { (p d : ℕ) → IsComplete p d → (a : Affine) → IsPoint p d a → IsPoint p d (opposite p a) }
{}

/// The sum of a point and its opposite is (0, 1).
pub fn sum_with_opposite()
    ensures { (p d : ℕ) → IsComplete p d → (a : Affine) → IsPoint p d a → sum p d (opposite p a) a ≡ neutral }
{}
