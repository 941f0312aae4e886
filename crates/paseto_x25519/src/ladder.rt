//! The Montgomery ladder (RFC 7748, section 5). No branch and no address depends on the scalar or on the coordinate.

ghost use Rattle.std.specs.Prelude.{◌≡◌, ◌+◌, ◌*◌, ◌/◌, ◌%◌, ◌^◌, ◌<◌};
ghost use Rattle.paseto_edwards25519.specs.Field.{IsCarried, number};
ghost use Rattle.paseto_x25519.specs.Ladder.{ladder, quotient, start, stepped, swapped, turned};
ghost use Rattle.paseto_x25519.specs.Numbers.{numbers};

mod numbers;

use numbers::Numbers;
use paseto_edwards25519::field::constants::{one, zero};
use paseto_edwards25519::field::powers::inverse;
use paseto_edwards25519::field::{self, FieldElement, choose, mul, mul_small, square};

// (486662 - 2) / 4, of the curve's equation.
const A24: u64 = 121665;

// How many bits of a scalar are read.
const BITS: usize = 255;

// The numbers before the first turn.
fn start(x1: FieldElement) -> Numbers
    requires { IsCarried x1 }
    ensures { numbers result ≡ start (number x1) }
{
    Numbers {
        x2: one(),
        z2: zero(),
        x3: x1,
        z3: one(),
        swap: 0,
    }
}

// The numbers, which change places where `choice` is 1, with no branch.
#[inline(always)]
fn swapped(choice: u64, n: Numbers) -> Numbers
    requires { choice < 2 }
    ensures { numbers result ≡ swapped choice (numbers n) }
{
    Numbers {
        x2: choose(choice, n.x3, n.x2),
        z2: choose(choice, n.z3, n.z2),
        x3: choose(choice, n.x2, n.x3),
        z3: choose(choice, n.z2, n.z3),
        swap: n.swap,
    }
}

// What follows the swaps in a turn.
fn stepped(x1: FieldElement, bit: u64, n: Numbers) -> Numbers
    requires { bit < 2 }
    ensures { numbers result ≡ stepped (number x1) bit (numbers n) }
{
    let a = field::add(n.x2, n.z2);
    let aa = square(a);
    let b = field::sub(n.x2, n.z2);
    let bb = square(b);
    let e = field::sub(aa, bb);
    let c = field::add(n.x3, n.z3);
    let d = field::sub(n.x3, n.z3);
    let da = mul(d, a);
    let cb = mul(c, b);
    Numbers {
        x2: mul(aa, bb),
        z2: mul(e, field::add(aa, mul_small(A24, e))),
        x3: square(field::add(da, cb)),
        z3: mul(x1, square(field::sub(da, cb))),
        swap: bit,
    }
}

// A turn: the numbers change places where the last bit and this one differ.
#[inline(always)]
fn turned(x1: FieldElement, bit: u64, n: Numbers) -> Numbers
    requires { bit < 2 }
    ensures { numbers result ≡ turned (number x1) bit (numbers n) }
{
    stepped(x1, bit, swapped((n.swap + bit) % 2, n))
}

// Bit `at` of a number that is given by its halves. `at` is no secret.
#[inline(always)]
fn bit(number: (u128, u128), at: usize) -> u64
    requires { at < 256 }
    ensures value { result ≡ (number.0 + 2 ^ 128 * number.1) / 2 ^ at % 2 }
    ensures bound { result < 2 }
{
    if at < 128 {
        return ((number.0 >> at) % 2) as u64;
    }
    ((number.1 >> (at - 128)) % 2) as u64
}

// x_2 / z_2, after the last swaps.
fn quotient(n: Numbers) -> FieldElement
    ensures value { number result ≡ quotient (numbers n) }
    ensures carried { IsCarried result }
{
    let last = swapped(n.swap, n);
    mul(last.x2, inverse(last.z2))
}

/// The coordinate u of the multiple, by the number `k` that is given by its halves, of a point whose coordinate u is `x1`.
/// The bits 254 to 0 of `k` count.
pub(crate) fn ladder(k: (u128, u128), x1: FieldElement) -> FieldElement
    requires { IsCarried x1 }
    ensures value { number result ≡ ladder (k.0 + 2 ^ 128 * k.1) (number x1) }
    ensures carried { IsCarried result }
{
    let mut n = start(x1);
    'turns: for t in 0..BITS {
        n = turned(x1, bit(k, BITS - 1 - t), n);
    }
    quotient(n)
}
