//! Expressions as numbers modulo a number.

ghost use Rattle.std.specs.Prelude.{ℕ, ◌%◌, ◌<◌, ◌≡◌};
ghost use Rattle.paseto_primes.specs.Element.{AreBelow, element};
ghost use Rattle.paseto_primes.specs.Polynomial.{Expression, value};

/// Evaluating an expression on numbers below m, by operations modulo m, gives its value modulo m.
pub fn elements_are_values()
    ensures { (n m : ℕ) (numbers : ℕ → ℕ) → 0 < m → AreBelow m numbers → (e : Expression)
        → element n m numbers e ≡ value n m numbers e % m }
{}
