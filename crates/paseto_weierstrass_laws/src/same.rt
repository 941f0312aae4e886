//! Coordinates of the same point.

ghost use Rattle.std.specs.Prelude.{◌≡◌};
ghost use Rattle.paseto_weierstrass_laws.specs.Field.{inverse, times};
ghost use Rattle.paseto_weierstrass_laws.specs.Group.{IsPoint, Same};
ghost use Rattle.paseto_weierstrass_laws.specs.Point.{Point};

/// Being the same point is an equivalence relation.
pub fn same_is_equivalence()
    ensures reflexive { (p : Point) → IsPoint p → Same p p }
    ensures symmetric { (p q : Point) → IsPoint p → IsPoint q → Same p q → Same q p }
    ensures transitive { (p q r : Point) → IsPoint p → Same p q → Same q r → Same p r }
{}

/// Anything that is the same as a point is a point.
pub fn same_is_point()
    ensures { (p q : Point) → IsPoint p → Same p q → IsPoint q }
{}

/// Points are the same if X / Z and Y / Z are equal. The condition is stated without division.
pub fn equal_quotients()
    ensures { (p q : Point) → IsPoint p → IsPoint q → times p.x q.z ≡ times q.x p.z
        → times p.y q.z ≡ times q.y p.z → Same p q }
{}

/// X / Z and Y / Z of the same point are equal, with the power p - 2 of Z as its inverse.
pub fn quotients_of_same()
    ensures x { (p q : Point) → IsPoint p → Same p q
        → times q.x (inverse q.z) ≡ times p.x (inverse p.z) }
    ensures y { (p q : Point) → IsPoint p → Same p q
        → times q.y (inverse q.z) ≡ times p.y (inverse p.z) }
{}
