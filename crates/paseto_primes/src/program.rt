//! Programs of expressions. What several lines share is computed and reduced once.

ghost use Rattle.std.specs.Prelude.{ℕ, ◌<◌, ◌≡◌, List, Option, true};
ghost use Rattle.paseto_primes.specs.Identity.{is_null};
ghost use Rattle.paseto_primes.specs.Polynomial.{Expression, Polynomial, difference};
ghost use Rattle.paseto_primes.specs.Program.{Agree, element_of, polynomial_of, run_elements, run_polynomials};
ghost use Rattle.paseto_primes.specs.Reduction.{Cube, Obey, reduced};

/// The numbers that a program returns are the values of the polynomials that it returns, at numbers
/// that obey the rules.
pub fn values_of_programs()
    ensures { (rules : ℕ → Option Cube) (n m : ℕ) (numbers : ℕ → ℕ) → 0 < m → Obey rules n m numbers
        → (ps : List (Polynomial n)) (xs : List ℕ) → Agree n m numbers ps xs → (es : List Expression)
        → Agree n m numbers (run_polynomials rules n m ps es) (run_elements m xs es) }
{}

/// Expressions in the results of a program are equal if each coefficient of their difference is 0
/// after reduction.
pub fn equal_after_program()
    ensures { (rules : ℕ → Option Cube) (n m : ℕ) (numbers : ℕ → ℕ) → 0 < m → Obey rules n m numbers
        → (ps : List (Polynomial n)) (xs : List ℕ) → Agree n m numbers ps xs → (a b : Expression)
        → is_null n m (reduced rules n m (polynomial_of n m ps (difference a b))) ≡ true
        → element_of m xs a ≡ element_of m xs b }
{}
