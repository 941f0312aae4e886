//! Multiples of points, and of the base point.

ghost use Rattle.std.specs.Prelude.{ℕ, ◌+◌, ◌*◌, ◌%◌, ◌^◌, ◌<◌, ◌≡◌, ◌↔◌};
ghost use Rattle.paseto_weierstrass_laws.specs.Curve.{order};
ghost use Rattle.paseto_weierstrass_laws.specs.Group.{IsPoint, Same};
ghost use Rattle.paseto_weierstrass_laws.specs.Multiples.{joint_multiple, multiple_of};
ghost use Rattle.paseto_weierstrass_laws.specs.Point.{Point, base, neutral, point_add};

/// A multiple is a point.
pub fn multiple_is_point()
    ensures { (n : ℕ) (p : Point) → IsPoint p → IsPoint (multiple_of n p) }
{}

/// [m + n]P = [m]P + [n]P.
pub fn multiple_by_sum()
    ensures { (m n : ℕ) (p : Point) → IsPoint p
        → Same (multiple_of (m + n) p) (point_add (multiple_of m p) (multiple_of n p)) }
{}

/// [m * n]P = [m]([n]P).
pub fn multiple_by_product()
    ensures { (m n : ℕ) (p : Point) → IsPoint p
        → Same (multiple_of (m * n) p) (multiple_of m (multiple_of n p)) }
{}

/// [n]G is neutral (SP 800-186, section 3.2.1.4).
pub fn order_of_base()
    ensures { Same (multiple_of order base) neutral }
{}

/// [n]P is neutral, for each point P of the curve: the order of a point is 1 or n, as the cofactor is 1 (SP 800-186,
/// section 3.2.1.4).
pub fn order_of_points()
    ensures { (p : Point) → IsPoint p → Same (multiple_of order p) neutral }
{}

/// [k]G is neutral if and only if n divides k, since n is prime.
pub fn multiples_of_base()
    ensures { (k : ℕ) → Same (multiple_of k base) neutral ↔ (k % order ≡ 0) }
{}

/// [k]G is [k mod n]G.
pub fn multiple_by_remainder()
    ensures { (k : ℕ) → Same (multiple_of (k % order) base) (multiple_of k base) }
{}

/// Double and add over two numbers at once (F. Straus, "Addition chains of vectors", American Mathematical Monthly 71,
/// 1964) gives [k]P + [l]Q.
pub fn joint_multiple_is_sum()
    ensures { (p q : Point) (bits k l : ℕ) → IsPoint p → IsPoint q → k < 2 ^ bits → l < 2 ^ bits
        → Same (point_add (multiple_of k p) (multiple_of l q)) (joint_multiple p q bits k l) }
{}
