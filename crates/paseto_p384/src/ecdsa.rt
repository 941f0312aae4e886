//! Verifying and signing of a hash (FIPS 186-5, sections 6.4.1 and 6.4.2).

ghost use Rattle.std.specs.Prelude.{◌≡◌, ◌↔◌, ◌-◌, ◌+◌, ◌%◌, ◌<◌, ◌++◌, IsTrue};
ghost use Rattle.paseto_montgomery.specs.Octets.{i2osp};
ghost use Rattle.paseto_montgomery.specs.Words.{value};
ghost use Rattle.paseto_weierstrass_laws.specs.Curve.{order};
ghost use Rattle.paseto_p384.specs.Ecdsa.{Accepts, IsFirst, attempt, first, halves, named, nonzero, second};
ghost use Rattle.paseto_weierstrass_laws.specs.Field.{prime};
ghost use Rattle.paseto_weierstrass_laws.specs.Group.{IsPoint, Same};
ghost use Rattle.paseto_p384.specs.Point.{coordinates};

use crate::field::constants::{order_element, zero};
use crate::field::is_equal;
use crate::field::powers::inverse;
use crate::point::{ProjectivePoint, add, multiply, multiply_base};
use crate::scalar::is_scalar;
use crate::{field, scalar};
use paseto_montgomery::{is_less, to_octets};

// p - n, from which on r + n is no coordinate.
fn room() -> [u64; 6]
    ensures { value result 6 ≡ prime - order }
{
    [
        0x1313e696333ad68c,
        0xa7e5f24cb74f5885,
        0x389cb27e0bc8d21f,
        0x0000000000000000,
        0x0000000000000000,
        0x0000000000000000,
    ]
}

// Whether r is the coordinate X / Z of a point modulo n. They are no secret.
fn is_first(p: ProjectivePoint, r: &[u64; 6]) -> bool
    requires { value r.now 6 < order }
    ensures { IsTrue result ↔ IsFirst (coordinates p) (value r.now 6) }
{
    if is_equal(p.z, zero()) {
        return false;
    }
    let x = field::from_words(r);
    if is_equal(field::mul(x, p.z), p.x) {
        return true;
    }
    if !is_less(r, &room()) {
        return false;
    }
    is_equal(field::mul(field::add(x, order_element()), p.z), p.x)
}

// The point that a signature names.
fn named(q: ProjectivePoint, e: &[u64; 6], r: &[u64; 6], s: &[u64; 6]) -> ProjectivePoint
    requires point { IsPoint (coordinates q) }
    requires first { value r.now 6 < order }
    requires second { value s.now 6 < order }
    ensures { Same (named (coordinates q) (value e.now 6) (value r.now 6) (value s.now 6))
        (coordinates result) }
{
    let s_inverse = scalar::inverse(scalar::from_words(s));
    let u1 = scalar::mul(scalar::from_words(e), s_inverse);
    let u2 = scalar::mul(scalar::from_words(r), s_inverse);
    add(
        multiply_base(&scalar::to_words(u1)),
        multiply(q, &scalar::to_words(u2)),
    )
}

/// Whether the signature (r, s) of the hash e is valid for the public key q.
pub(crate) fn accepts(q: ProjectivePoint, e: &[u64; 6], r: &[u64; 6], s: &[u64; 6]) -> bool
    requires { IsPoint (coordinates q) }
    ensures { IsTrue result
        ↔ Accepts (coordinates q) (value e.now 6) (value r.now 6) (value s.now 6) }
{
    if !is_scalar(r) {
        return false;
    }
    if !is_scalar(s) {
        return false;
    }
    is_first(named(q, e, r, s), r)
}

// r of the nonce k.
fn first(k: &[u64; 6]) -> [u64; 6]
    ensures value { value result 6 ≡ first (value k.now 6) }
    ensures below { value result 6 < order }
{
    let p = multiply_base(k);
    let x = field::to_words(field::mul(p.x, inverse(p.z)));
    scalar::to_words(scalar::from_words(&x))
}

// s of the private key d, the hash e, the nonce k and r.
fn second(d: &[u64; 6], e: &[u64; 6], k: &[u64; 6], r: &[u64; 6]) -> [u64; 6]
    requires private { value d.now 6 < order }
    requires nonce { value k.now 6 < order }
    requires first { value r.now 6 < order }
    ensures value { value result 6
        ≡ second (value d.now 6) (value e.now 6) (value k.now 6) (value r.now 6) }
    ensures below { value result 6 < order }
{
    let product = scalar::mul(scalar::from_words(r), scalar::from_words(d));
    let sum = scalar::add(scalar::from_words(e), product);
    let k_inverse = scalar::inverse(scalar::from_words(k));
    scalar::to_words(scalar::mul(k_inverse, sum))
}

/// The 96 octets of two numbers, the first number first.
pub(crate) fn halves(r: &[u64; 6], s: &[u64; 6]) -> [u8; 96]
    ensures { result ≡ halves (value r.now 6) (value s.now 6) }
{
    let mut octets = [0; 96];
    let (front, back) = octets.split_at_mut(48);
    to_octets(r, front);
    to_octets(s, back);
    octets
}

/// The signature of the hash e under the private key d by a number k, if k is above 0 and below n and neither half
/// is 0. Whether that is so is all that a branch depends on.
pub(crate) fn attempt(d: &[u64; 6], e: &[u64; 6], k: &[u64; 6]) -> Option<[u8; 96]>
    requires { value d.now 6 < order }
    ensures { result ≡ attempt (value d.now 6) (value e.now 6) (value k.now 6) }
{
    if !is_scalar(k) {
        return None;
    }
    let r = first(k);
    let s = second(d, e, k, &r);
    if !is_scalar(&r) {
        return None;
    }
    if !is_scalar(&s) {
        return None;
    }
    Some(halves(&r, &s))
}
