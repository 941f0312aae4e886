//! Sums of points by the complete formulas of Renes, Costello and Batina.

ghost use Rattle.std.specs.Prelude.{◌≡◌, ℕ};
ghost use Rattle.paseto_weierstrass_laws.specs.Group.{IsPoint, Same};
ghost use Rattle.paseto_weierstrass_laws.specs.Line.{IsChord, IsTangent, affine, line_x, line_y, opposite};
ghost use Rattle.paseto_weierstrass_laws.specs.Point.{Point, neutral, point_add, point_double};

/// A sum is a point of the curve, and never (0, 0, 0): the formulas are complete (J. Renes, C. Costello and L. Batina,
/// "Complete Addition Formulas for Prime Order Elliptic Curves", EUROCRYPT 2016, section 3), since the curve has no
/// point of order 2.
pub fn sum_is_point()
    ensures { (p q : Point) → IsPoint p → IsPoint q → IsPoint (point_add p q) }
{}

/// Addition is commutative.
pub fn sum_commutes()
    ensures { (p q : Point) → IsPoint p → IsPoint q → point_add p q ≡ point_add q p }
{}

/// The same points have the same sum.
pub fn sum_of_same()
    ensures { (p q r s : Point) → IsPoint p → IsPoint q → IsPoint r → IsPoint s → Same p q → Same r s
        → Same (point_add p r) (point_add q s) }
{}

/// (0, 1, 0) is the neutral element.
pub fn sum_with_neutral()
    ensures { (p : Point) → IsPoint p → Same p (point_add p neutral) }
{}

/// The opposite of a point is a point, and the sum of both is neutral.
pub fn sum_with_opposite()
    ensures point { (p : Point) → IsPoint p → IsPoint (opposite p) }
    ensures sum { (p : Point) → IsPoint p → Same (point_add p (opposite p)) neutral }
{}

/// The formulas are chord and tangent. The sum of two points of the plane with different x is that by the chord through
/// them, the opposite of the third point of the curve on it (SEC 1, section 2.2.1, rule 4).
pub fn sum_by_chord()
    ensures { (x y v w k : ℕ) → IsPoint (affine x y) → IsPoint (affine v w) → IsChord x y v w k
        → Same (point_add (affine x y) (affine v w)) (affine (line_x k x v) (line_y k x y v)) }
{}

/// The sum of a point of the plane and itself is that by the tangent at it (SEC 1, section 2.2.1, rule 5).
pub fn sum_by_tangent()
    ensures { (x y k : ℕ) → IsPoint (affine x y) → IsTangent x y k
        → Same (point_add (affine x y) (affine x y)) (affine (line_x k x x) (line_y k x y x)) }
{}

/// The doubling formulas give the sum of a point and itself.
pub fn double_is_sum()
    ensures { (p : Point) → IsPoint p → point_double p ≡ point_add p p }
{}

/// Addition is associative. If each sum is by a line, this follows from the slopes of the four
/// lines; otherwise two of the points, or one and the sum of the others, are opposites.
pub fn sum_associates()
    ensures { (p q r : Point) → IsPoint p → IsPoint q → IsPoint r
        → Same (point_add (point_add p q) r) (point_add p (point_add q r)) }
{}
