//! Polynomials modulo a number and equations for cubes.

ghost use Rattle.std.specs.Prelude.{ℕ, ◌%◌, ◌<◌, ◌≡◌, List, Option, true};
ghost use Rattle.paseto_primes.specs.Element.{AreBelow, HoldElements, element};
ghost use Rattle.paseto_primes.specs.Identity.{Equation, Hold, is_null, left_sides, right_sides};
ghost use Rattle.paseto_primes.specs.Polynomial.{Expression, Polynomial, at, difference, polynomial, sum, value};
ghost use Rattle.paseto_primes.specs.Reduction.{Cube, Obey, reduced};

/// A reduced polynomial has the same value modulo m, at numbers that obey the rules.
pub fn values_of_reduced()
    ensures { (rules : ℕ → Option Cube) (n m : ℕ) (numbers : ℕ → ℕ) → Obey rules n m numbers → (p : Polynomial n)
        → at n numbers (reduced rules n m p) % m ≡ at n numbers p % m }
{}

/// Expressions are equal modulo m, at numbers that obey the rules, if each coefficient of their
/// difference is 0 after reduction, once multiples of equations that hold modulo m are added to
/// both.
pub fn equal_by_rules()
    ensures { (rules : ℕ → Option Cube) (n m : ℕ) (numbers : ℕ → ℕ) → 0 < m → Obey rules n m numbers
        → (es : List Equation) → Hold n m numbers es → (a b : Expression)
        → is_null n m (reduced rules n m (polynomial n m (difference (sum a (right_sides es)) (sum b (left_sides es))))) ≡ true
        → value n m numbers a % m ≡ value n m numbers b % m }
{}

/// Under the same condition, expressions have the same value by operations modulo m, at numbers
/// below m that obey the rules, if the equations hold by these operations.
pub fn equal_elements_by_rules()
    ensures { (rules : ℕ → Option Cube) (n m : ℕ) (numbers : ℕ → ℕ) → 0 < m → AreBelow m numbers
        → Obey rules n m numbers → (es : List Equation) → HoldElements n m numbers es → (a b : Expression)
        → is_null n m (reduced rules n m (polynomial n m (difference (sum a (right_sides es)) (sum b (left_sides es))))) ≡ true
        → element n m numbers a ≡ element n m numbers b }
{}
