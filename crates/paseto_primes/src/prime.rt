//! Primes as divisors.

ghost use Rattle.std.specs.Prelude.{ℕ, ◌*◌, ◌%◌, ◌<◌, ◌≡◌, ◌≢◌, ◌⊎◌};
ghost use Rattle.paseto_primes.specs.Prime.{HasPrimeDivisor, IsPrime};

/// A prime divides a product only if it divides one of its factors (Euclid, Elements, book VII, proposition 30).
pub fn euclid()
    ensures { (p a b : ℕ) → IsPrime p → (a * b) % p ≡ 0 → (a % p ≡ 0) ⊎ (b % p ≡ 0) }
{}

/// A common factor that the prime does not divide can be cancelled.
pub fn common_factor()
    ensures { (p a b c : ℕ) → IsPrime p → a % p ≢ 0 → (a * b) % p ≡ (a * c) % p → b % p ≡ c % p }
{}

/// Each number above 1 has a prime divisor (Euclid, Elements, book VII, proposition 32).
pub fn prime_divisor()
    ensures { (n : ℕ) → 1 < n → HasPrimeDivisor n }
{}
