//! edwards25519 is a complete curve, on which the base point has the order L.

ghost use Rattle.std.specs.Prelude.{ℕ, ◌%◌, ◌≡◌, ◌↔◌};
ghost use Rattle.paseto_edwards_laws.specs.Edwards25519.{base, d, order, prime};
ghost use Rattle.paseto_edwards_laws.specs.Group.{IsComplete, IsPoint, neutral};
ghost use Rattle.paseto_edwards_laws.specs.Multiples.{multiple_of};

/// p is prime, -1 is a square modulo p, and d is not.
pub fn edwards25519_is_complete()
    ensures { IsComplete prime d }
{}

/// B is a point of the curve.
pub fn base_is_point()
    ensures { IsPoint prime d base }
{}

/// [L]B is neutral.
pub fn order_of_base()
    ensures { multiple_of prime d order base ≡ neutral }
{}

/// [n]B is neutral if and only if L divides n.
pub fn multiples_of_base()
    ensures { (n : ℕ) → (multiple_of prime d n base ≡ neutral) ↔ (n % order ≡ 0) }
{}
