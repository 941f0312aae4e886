//! Multiples of the base point, from a table of multiples. No branch and no address depends on the
//! scalar.

ghost use Rattle.std.specs.Prelude.{◌≡◌, ◌≢◌, ℕ, ◌+◌, ◌*◌, ◌/◌, ◌%◌, ◌^◌, ◌<◌, replicate};
ghost use Rattle.paseto_edwards_laws.specs.Group.{neutral};
ghost use Rattle.paseto_edwards_laws.specs.Edwards25519.{base};
ghost use Rattle.paseto_edwards25519.specs.Curve.{multiple};
ghost use Rattle.paseto_edwards25519.specs.Extended.{affine};
ghost use Rattle.paseto_edwards25519.specs.Field.{number};
ghost use Rattle.paseto_edwards25519.specs.Point.{point, prepared, projected};
ghost use Rattle.paseto_edwards25519.specs.Scalar.{number32};
ghost use Rattle.paseto_edwards25519.specs.Table.{IsEntry};
ghost use Rattle.paseto_edwards25519.specs.Digits.{row_sum};

use super::table::{ENTRIES, ROWS, entry};
use super::{
    Addend, ExtendedPoint, ProjectivePoint, add_affine, digit, flattened, identity, sixteen_times,
    to_extended,
};
use crate::bytes::halves;
use crate::field::canonical::from_halves;
use crate::field::constants::one;

// How many digits of 4 bits stand between those of two rows that are added in one turn.
const TURNS: usize = 4;

// 1 where two numbers below 16 are equal, and else 0, with no branch.
#[inline(always)]
fn equals(a: u128, b: u128) -> u128
    requires first { a < 16 }
    requires second { b < 16 }
    ensures one { a ≡ b → result ≡ 1 }
    ensures zero { a ≢ b → result ≡ 0 }
    ensures bound { result < 2 }
{
    (16 + a - b) / 16 + (16 + b - a) / 16 - 1
}

// `chosen`, with the bits of `word` where `choice` is 1, with no branch.
#[inline(always)]
fn keep(choice: u128, word: u128, chosen: u128) -> u128
    requires { choice < 2 }
    ensures one { choice ≡ 1 → chosen ≡ 0 → result ≡ word }
    ensures zero { choice ≡ 0 → result ≡ chosen }
{
    chosen | (word & 0u128.wrapping_sub(choice))
}

// `chosen`, with the entry where `choice` is 1 and none was chosen before, with no branch.
#[inline(always)]
fn keep_entry(choice: u128, entry: &[u128; 6], chosen: &[u128; 6]) -> [u128; 6]
    requires { choice < 2 }
    ensures one { choice ≡ 1 → chosen.now ≡ replicate 6 0 → result ≡ entry.now }
    ensures zero { choice ≡ 0 → result ≡ chosen.now }
{
    [
        keep(choice, entry[0], chosen[0]),
        keep(choice, entry[1], chosen[1]),
        keep(choice, entry[2], chosen[2]),
        keep(choice, entry[3], chosen[3]),
        keep(choice, entry[4], chosen[4]),
        keep(choice, entry[5], chosen[5]),
    ]
}

// Entry `at` of a row: each is read, and one is kept.
fn select(row: usize, at: u128) -> [u128; 6]
    requires row { row < 16 }
    requires at { at < 16 }
    ensures { IsEntry (at * 2 ^ (16 * row)) result }
{
    let mut chosen = [0u128; 6];
    'entries: for i in 0..ENTRIES {
        chosen = keep_entry(equals(at, i as u128), &entry(row, i), &chosen);
    }
    chosen
}

// An entry, as a sum reads it.
fn entry_addend(entry: &[u128; 6], row: usize, at: u128) -> Addend
    requires { IsEntry (at * 2 ^ (16 * row)) entry.now }
    ensures is { affine (prepared result) ≡ multiple (at * 2 ^ (16 * row)) base }
    ensures unit { number result.z ≡ 1 }
{
    Addend {
        difference: from_halves(entry[0], entry[1]),
        total: from_halves(entry[2], entry[3]),
        z: one(),
        scaled: from_halves(entry[4], entry[5]),
    }
}

// The multiple of the base point by a digit of a row.
fn multiple_at(row: usize, at: u128) -> Addend
    requires row { row < 16 }
    requires at { at < 16 }
    ensures is { affine (prepared result) ≡ multiple (at * 2 ^ (16 * row)) base }
    ensures unit { number result.z ≡ 1 }
{
    entry_addend(&select(row, at), row, at)
}

/// The multiple of the base point by a number below 16 that is not secret.
pub(crate) fn known_multiple(at: u128) -> Addend
    requires { at < 16 }
    ensures is { affine (prepared result) ≡ multiple at base }
    ensures unit { number result.z ≡ 1 }
{
    entry_addend(&entry(0, at as usize), 0, at)
}

// A point, and of each row the multiple by its digit of this turn.
fn add_rows(p: ExtendedPoint, number: (u128, u128), turn: usize) -> ExtendedPoint
    requires { turn < 4 }
    ensures { (n : ℕ) → point p ≡ multiple n base
        → point result ≡ multiple (n + row_sum (number.0 + 2 ^ 128 * number.1) turn 16) base }
{
    let mut sum = p;
    'rows: for i in 0..ROWS {
        let next = multiple_at(i, digit(number, TURNS * i + turn));
        sum = to_extended(add_affine(sum, &next));
    }
    sum
}

/// The multiple of the base point by a number of 32 bytes, in a fixed number of steps. No branch and no address
/// depends on the number.
pub fn multiply_base(scalar: &[u8; 32]) -> ProjectivePoint
    ensures { affine (projected result) ≡ multiple (number32 scalar.now) base }
{
    let number = halves(scalar);
    let mut sum = add_rows(identity(), number, TURNS - 1);
    'turns: for i in 1..TURNS {
        sum = add_rows(sixteen_times(flattened(sum)), number, TURNS - 1 - i);
    }
    flattened(sum)
}
