//! The base-16 digits of a number.

ghost use Rattle.std.specs.Prelude.{ℕ, ◌*◌, ◌^◌, ◌<◌, ◌≡◌};
ghost use Rattle.paseto_primes.specs.Digits.{turn_sum};

/// Four turns over the 16-bit words of a number give the number. Each turn takes one digit of every
/// word, the highest first.
pub fn digits_by_turns()
    ensures { (n m : ℕ) → n < 2 ^ (16 * m) → turn_sum n m 4 ≡ n }
{}
