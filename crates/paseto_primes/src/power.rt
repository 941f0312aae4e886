//! Powers modulo a prime.

ghost use Rattle.std.specs.Prelude.{ℕ, ◌-◌, ◌*◌, ◌%◌, ◌^◌, ◌<◌, ◌≡◌, ◌≢◌};
ghost use Rattle.paseto_primes.specs.Power.{raised};
ghost use Rattle.paseto_primes.specs.Prime.{IsPrime};

/// Repeated squaring gives the power.
pub fn repeated_squaring()
    ensures { (bits x n p : ℕ) → n < 2 ^ bits → raised bits x n p ≡ x ^ n % p }
{}

/// Fermat's little theorem: a^(p - 1) is 1 modulo p.
pub fn fermat()
    ensures { (p a : ℕ) → IsPrime p → a % p ≢ 0 → a ^ (p - 1) % p ≡ 1 }
{}

/// a^(p - 2) is the inverse of a modulo p.
pub fn inverse()
    ensures { (p a : ℕ) → IsPrime p → a % p ≢ 0 → (a * (a ^ (p - 2) % p)) % p ≡ 1 }
{}
