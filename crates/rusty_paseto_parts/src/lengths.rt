//! Sums of lengths.

ghost use Rattle.std.specs.Prelude.{◌≡◌, ◌+◌, ◌≤◌, ◌^◌, MatchResult};

use std::alloc::AllocError;

/// The sum of two lengths, or an error if no `usize` holds it.
///
/// No other place creates an out-of-memory error: all others pass on the error of an allocation.
pub fn add_lengths(first: usize, second: usize) -> Result<usize, AllocError>
    ensures { MatchResult result (λ sum. sum ≡ first + second) (λ _. 2 ^ 64 ≤ first + second) }
{
    first.checked_add(second).ok_or(AllocError)
}
