//! Square roots modulo a prime, and numbers that have none.

ghost use Rattle.std.specs.Prelude.{ℕ, ◌+◌, ◌-◌, ◌*◌, ◌%◌, ◌^◌, ◌<◌, ◌≡◌, ◌≢◌, ◌⊎◌};
ghost use Rattle.paseto_primes.specs.Prime.{IsPrime};
ghost use Rattle.paseto_primes.specs.Root.{IsNonresidue, quotient_root};

/// Two square roots of the same number are equal or opposite.
pub fn two_roots()
    ensures { (p x y : ℕ) → IsPrime p → (x * x) % p ≡ (y * y) % p → (x % p ≡ y % p) ⊎ ((x + y) % p ≡ 0) }
{}

/// If p is 4 * k + 3 and a is a square, then a^(k + 1) is a square root of a.
pub fn root_three_of_four()
    ensures { (p k a x : ℕ) → IsPrime p → p ≡ 4 * k + 3 → a % p ≡ (x * x) % p
        → (a ^ (k + 1) * a ^ (k + 1)) % p ≡ a % p }
{}

/// If p is 8 * k + 5 and a is a square, then the square of a^(k + 1) is a or -a.
pub fn root_five_of_eight()
    ensures { (p k a x : ℕ) → IsPrime p → p ≡ 8 * k + 5 → a % p ≡ (x * x) % p
        → ((a ^ (k + 1) * a ^ (k + 1)) % p ≡ a % p) ⊎ ((a ^ (k + 1) * a ^ (k + 1) + a) % p ≡ 0) }
{}

/// If p is 8 * k + 5 and u / v is a square, then v * r^2 is u or -u for the candidate r of RFC
/// 8032, section 5.1.3.
pub fn root_of_quotient()
    ensures { (p k u v x : ℕ) → IsPrime p → p ≡ 8 * k + 5 → v % p ≢ 0 → u % p ≡ (v * (x * x)) % p
        → (let r = quotient_root k u v in ((v * (r * r)) % p ≡ u % p) ⊎ ((v * (r * r) + u) % p ≡ 0)) }
{}

/// A number whose power by (p - 1) / 2 is -1 is a quadratic nonresidue (Euler's criterion).
pub fn nonresidue()
    ensures { (p half d : ℕ) → IsPrime p → p ≡ 2 * half + 1 → 0 < half → d ^ half % p ≡ p - 1
        → IsNonresidue p d }
{}
