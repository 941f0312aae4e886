//! Certificates that numbers are prime, and the primes of edwards25519 and of P-384.

ghost use Rattle.std.specs.Prelude.{ℕ, ◌+◌, ◌-◌, ◌*◌, ◌%◌, ◌^◌, ◌<◌, ◌≡◌, List, ◌∷◌, true};
ghost use Rattle.paseto_primes.specs.Certified.{Certificate, is_chain, number};
ghost use Rattle.paseto_primes.specs.Prime.{IsPrime};

/// A prime divisor q of n - 1 divides r - 1 for each prime divisor r of n if there is a number a
/// such that a^(n - 1) is 1 modulo n, and a^((n - 1) / q) - 1 has an inverse u (H. C. Pocklington,
/// "The determination of the prime or composite nature of large numbers by Fermat's theorem",
/// Proceedings of the Cambridge Philosophical Society 18, 1914).
pub fn pocklington_divisor()
    ensures { (n a q m u r : ℕ) → IsPrime q → n ≡ q * m + 1 → 0 < m → a ^ (q * m) % n ≡ 1
        → (u * (a ^ m % n + (n - 1))) % n ≡ 1 → IsPrime r → n % r ≡ 0 → (r - 1) % q ≡ 0 }
{}

/// A number n is prime if f divides r - 1 for each prime divisor r of n, and f + 1 is above the
/// square root of n.
pub fn pocklington()
    ensures { (n f : ℕ) → 1 < n → n < (f + 1) * (f + 1) → ((r : ℕ) → IsPrime r → n % r ≡ 0 → (r - 1) % f ≡ 0)
        → IsPrime n }
{}

/// The number of a certificate is prime if each certificate of its chain rests on those after it.
pub fn chain_of_certificates()
    ensures { (c : Certificate) (smaller : List Certificate) → is_chain (c ∷ smaller) ≡ true → IsPrime (number c) }
{}

/// The field of edwards25519 has a prime number of elements (RFC 8032, section 5.1: p).
pub fn field_of_edwards25519_is_prime()
    ensures { IsPrime (2 ^ 255 - 19) }
{}

/// The order of the base point of edwards25519 is prime (RFC 8032, section 5.1: L).
pub fn order_of_edwards25519_is_prime()
    ensures { IsPrime (2 ^ 252 + 27742317777372353535851937790883648493) }
{}

/// The field of P-384 has a prime number of elements (SP 800-186, section 3.2.1.4: p).
pub fn field_of_p384_is_prime()
    ensures { IsPrime (2 ^ 384 - 2 ^ 128 - 2 ^ 96 + 2 ^ 32 - 1) }
{}

/// The order of the base point of P-384 is prime (SP 800-186, section 3.2.1.4: n).
pub fn order_of_p384_is_prime()
    ensures { IsPrime 0xffffffffffffffffffffffffffffffffffffffffffffffffc7634d81f4372ddf581a0db248b0a77aecec196accc52973 }
{}
