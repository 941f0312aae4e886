//! Identities by normal forms. Two expressions are shown to be equal, or equal modulo a number, by
//! computing their polynomials, after multiples of equations that hold are added to both.

ghost use Rattle.std.specs.Prelude.{ℕ, ◌%◌, ◌<◌, ◌≡◌, List, true};
ghost use Rattle.paseto_primes.specs.Identity.{Equation, Hold, is_null, is_same, left_sides, right_sides};
ghost use Rattle.paseto_primes.specs.Polynomial.{Expression, difference, polynomial, sum, value};

/// Expressions with the same polynomial have the same value.
pub fn equal_by_form()
    ensures { (n m : ℕ) (numbers : ℕ → ℕ) (a b : Expression)
        → is_same n (polynomial n m a) (polynomial n m b) ≡ true → value n m numbers a ≡ value n m numbers b }
{}

/// Expressions are equal modulo m if m divides each coefficient of their difference.
pub fn equal_modulo()
    ensures { (n m : ℕ) (numbers : ℕ → ℕ) → 0 < m → (a b : Expression)
        → is_null n m (polynomial n m (difference a b)) ≡ true
        → value n m numbers a % m ≡ value n m numbers b % m }
{}

/// Expressions are equal modulo any m if they have the same polynomial after multiples of equations
/// that hold modulo m are added to both.
pub fn equal_by_equations()
    ensures { (n m : ℕ) (numbers : ℕ → ℕ) (es : List Equation) → Hold n m numbers es → (a b : Expression)
        → is_same n (polynomial n m (sum a (right_sides es))) (polynomial n m (sum b (left_sides es))) ≡ true
        → value n m numbers a % m ≡ value n m numbers b % m }
{}

/// Expressions are equal modulo m if m divides each coefficient of their difference, after
/// multiples of equations that hold modulo m are added to both. This is for a known m, whose
/// multiples the check can recognize.
pub fn equal_by_equations_modulo()
    ensures { (n m : ℕ) (numbers : ℕ → ℕ) → 0 < m → (es : List Equation) → Hold n m numbers es → (a b : Expression)
        → is_null n m (polynomial n m (difference (sum a (right_sides es)) (sum b (left_sides es)))) ≡ true
        → value n m numbers a % m ≡ value n m numbers b % m }
{}
