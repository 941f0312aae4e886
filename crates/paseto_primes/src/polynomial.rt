//! The normal form of an expression.

ghost use Rattle.std.specs.Prelude.{ℕ, ◌≡◌};
ghost use Rattle.paseto_primes.specs.Polynomial.{Expression, at, polynomial, value};

/// The polynomial of an expression has the same value as the expression.
pub fn values_of_polynomials()
    ensures { (n m : ℕ) (numbers : ℕ → ℕ) (e : Expression) → at n numbers (polynomial n m e) ≡ value n m numbers e }
{}
