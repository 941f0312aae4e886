//! The curve, and points of it.

ghost use Rattle.std.specs.Prelude.{ℕ, ◌<◌, ◌≡◌, ◌≢◌};
ghost use Rattle.paseto_weierstrass_laws.specs.Field.{inverse, prime, times};
ghost use Rattle.paseto_weierstrass_laws.specs.Group.{IsPoint, cubic};
ghost use Rattle.paseto_weierstrass_laws.specs.Point.{base, neutral};

/// The power p - 2 of an element is its inverse, since p is prime.
pub fn inverse_of_element()
    ensures { (a : ℕ) → a < prime → a ≢ 0 → times a (inverse a) ≡ 1 }
{}

/// x^3 - 3 * x + b has no root modulo p, so the curve has no point of order 2. A root would also be
/// a root of x^(p - 1) - 1, which has no factor in common with the cubic.
pub fn no_point_of_order_two()
    ensures { (x : ℕ) → x < prime → cubic x 1 ≢ 0 }
{}

/// (0, 1, 0) is a point.
pub fn neutral_is_point()
    ensures { IsPoint neutral }
{}

/// G is a point (SP 800-186, section 3.2.1.4).
pub fn base_is_point()
    ensures { IsPoint base }
{}
