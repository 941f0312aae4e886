//! A validator that lets prime numbers pass.

ghost use Rattle.std.specs.Prelude.{◌≡◌, ◌≤◌};
ghost use Rattle.test_cases.specs.Primes.{has_divisor, is_prime, prime_fault};

use rusty_paseto::prelude::{PasetoClaimError, Validator};
use serde_json::Value;
use std::alloc::Global;

/// A validator that refuses what is no prime number.
#[derive(Drop)]
pub(crate) struct Primes;

impl Validator for Primes {
    ghost verdict = { λ _ key value. prime_fault key value };

    fn validate(&self, alloc: Global, key: &str, value: &Value) -> Result<(), PasetoClaimError> {
        let Some(number) = value.as_u64() else {
            return Err(PasetoClaimError::Unexpected(String::from_str(alloc, key)?));
        };
        if is_prime(number) {
            Ok(())
        } else {
            Err(PasetoClaimError::CustomValidation(String::from_str(alloc, key)?))
        }
    }
}

fn is_prime(number: u64) -> bool
    ensures { result ≡ is_prime number }
{
    number >= 2 && !has_divisor(number - 2, number)
}

// Whether one of so many numbers from 2 on divides the number.
#[tactic(auto, using(crate::proofs::PrimeLemmas::divisor_none, crate::proofs::PrimeLemmas::divisor_more))]
fn has_divisor(count: u64, number: u64) -> bool
    requires { count ≤ 18_446_744_073_709_551_613 }
    ensures { result ≡ has_divisor count number }
{
    if count == 0 {
        return false;
    }
    number % (count + 1) == 0 || has_divisor(count - 1, number)
}
