//! Multiples of a point.

ghost use Rattle.std.specs.Prelude.{ℕ, ◌+◌, ◌*◌, ◌%◌, ◌≡◌, ◌≢◌};
ghost use Rattle.paseto_edwards_laws.specs.Group.{Affine, IsComplete, IsPoint, neutral, opposite, sum};
ghost use Rattle.paseto_edwards_laws.specs.Multiples.{multiple_of};
ghost use Rattle.paseto_primes.specs.Prime.{IsPrime};

/// A multiple is a point.
pub fn multiple_is_point()
    ensures { (p d : ℕ) → IsComplete p d → (n : ℕ) (a : Affine) → IsPoint p d a → IsPoint p d (multiple_of p d n a) }
{}

/// [m + n]P = [m]P + [n]P.
pub fn multiple_by_sum()
    ensures { (p d : ℕ) → IsComplete p d → (m n : ℕ) (a : Affine) → IsPoint p d a
        → multiple_of p d (m + n) a ≡ sum p d (multiple_of p d m a) (multiple_of p d n a) }
{}

/// [m * n]P = [m]([n]P).
pub fn multiple_by_product()
    ensures { (p d : ℕ) → IsComplete p d → (m n : ℕ) (a : Affine) → IsPoint p d a
        → multiple_of p d (m * n) a ≡ multiple_of p d m (multiple_of p d n a) }
{}

/// [n](P + Q) = [n]P + [n]Q.
pub fn multiple_of_sum()
    ensures { (p d : ℕ) → IsComplete p d → (n : ℕ) (a b : Affine) → IsPoint p d a → IsPoint p d b
        → multiple_of p d n (sum p d a b) ≡ sum p d (multiple_of p d n a) (multiple_of p d n b) }
{}

/// [n](-P) = -[n]P.
pub fn multiple_of_opposite()
    ensures { (p d : ℕ) → IsComplete p d → (n : ℕ) (a : Affine) → IsPoint p d a
        → multiple_of p d n (opposite p a) ≡ opposite p (multiple_of p d n a) }
{}

/// If [l]P is neutral, [n]P is [n mod l]P.
pub fn multiple_by_remainder()
    ensures { (p d : ℕ) → IsComplete p d → (l n : ℕ) (a : Affine) → IsPoint p d a → multiple_of p d l a ≡ neutral
        → multiple_of p d (n % l) a ≡ multiple_of p d n a }
{}

/// If [l]P is neutral, l is prime and P is not neutral, then [n]P is neutral only if l divides n.
pub fn neutral_multiples()
    ensures { (p d : ℕ) → IsComplete p d → (l n : ℕ) (a : Affine) → IsPoint p d a → multiple_of p d l a ≡ neutral
        → IsPrime l → a ≢ neutral → multiple_of p d n a ≡ neutral → n % l ≡ 0 }
{}

/// If A is [n]B, and s is r + k * n modulo a number l for which [l]B is neutral, then [s]B - [k]A,
/// which a verifier computes, is [r]B (RFC 8032, sections 5.1.6 and 5.1.7).
pub fn signature_sum()
    ensures { (p d : ℕ) → IsComplete p d → (l r k n : ℕ) (b : Affine) → IsPoint p d b → multiple_of p d l b ≡ neutral
        → sum p d (multiple_of p d ((r + k * n) % l) b) (multiple_of p d k (opposite p (multiple_of p d n b)))
        ≡ multiple_of p d r b }
{}
