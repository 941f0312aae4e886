//! X25519, many times over.

ghost use Rattle.std.specs.Prelude.{◌≡◌, ◌≢◌, ◌^◌, ◌-◌};
ghost use Rattle.paseto_x25519.specs.Agreement.{x25519};

use paseto_x25519::x25519;

/// What is answered where a length is wrong.
const FAILED: u64 = u64::MAX;

/// Makes X25519 of a scalar and a coordinate of 32 bytes each, `reps` times and at least once. The last is that of the
/// scalar as it is, and each other one that of the scalar with the number of the repetition in its bytes 1 to 4. The
/// answer is the sum of the results' first bytes, or 2^64 - 1 where a length is wrong.
pub fn bench_x25519(scalar: &[u8], u: &[u8], shared: &mut [u8], reps: u32) -> u64
    ensures { result ≢ 2 ^ 64 - 1 → shared.new ≡ x25519 scalar.now u.now }
{
    let (Some(scalar), Some(u), 32) = (scalar.as_array::<32>(), u.as_array::<32>(), shared.len())
    else {
        return FAILED;
    };
    let mut sum = 0u64;
    let mut numbered = *scalar;
    'repetitions: for repetition in 1..reps {
        numbered[1..5].copy_from_slice(&repetition.to_le_bytes());
        sum = sum.wrapping_add(x25519(&numbered, u)[0] as u64);
    }
    let last = x25519(scalar, u);
    shared.copy_from_slice(&last);
    sum.wrapping_add(last[0] as u64) % FAILED
}
