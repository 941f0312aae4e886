//! Vectors of two words, with the steps of the mixing function G in each lane (RFC 7693, section 3.1).

ghost use Rattle.std.specs.Prelude.{◌≡◌, ℕ, ◌+◌, ◌%◌, ◌^◌, ◌<◌, bit_xor};
ghost use Rattle.std.specs.Int.{w64, rotate_right};
ghost use Rattle.rusty_paseto_primitives.specs.Blake2.Lanes.{half_mixed_lanes, two};

use std::simd::u64x2;

// The message word is added first, since the sum with it waits for nothing.
#[inline(always)]
fn sum_of_three(a: u64x2, b: u64x2, x: u64x2) -> u64x2
    ensures { (f g h : ℕ → ℕ) → a ≡ two f → b ≡ two g → x ≡ two h → result ≡ two
        (λ j. (f j + g j + h j) % 2 ^ 64) }
{
    a + x + b
}

#[inline(always)]
fn sum(a: u64x2, b: u64x2) -> u64x2
    ensures { (f g : ℕ → ℕ) → a ≡ two f → b ≡ two g → result ≡ two (λ j. (f j + g j) % 2 ^ 64) }
{
    a + b
}

// Rotates each lane by 32. Its bytes are moved, since of shifts the compiler makes more instructions.
#[inline(always)]
fn halves_exchanged(x: u64x2) -> u64x2
    ensures { (f : ℕ → ℕ) → x ≡ two f → result ≡ two (λ j. rotate_right w64 (f j) 32) }
{
    let bytes = x.to_le_bytes();
    u64x2::from_le_bytes(bytes.swizzle([4, 5, 6, 7, 0, 1, 2, 3, 12, 13, 14, 15, 8, 9, 10, 11]))
}

#[inline(always)]
fn rotated(x: u64x2, k: u64) -> u64x2
    requires low { 0 < k }
    requires high { k < 64 }
    ensures { (f : ℕ → ℕ) → x ≡ two f → result ≡ two (λ j. rotate_right w64 (f j) k) }
{
    if k == 32 {
        return halves_exchanged(x);
    }
    (x >> u64x2::splat(k)) | (x << u64x2::splat(64 - k))
}

#[inline(always)]
fn xor_rotated(a: u64x2, b: u64x2, k: u64) -> u64x2
    requires low { 0 < k }
    requires high { k < 64 }
    ensures { (f g : ℕ → ℕ) → a ≡ two f → b ≡ two g → result ≡ two
        (λ j. rotate_right w64 (bit_xor (f j) (g j)) k) }
{
    rotated(a ^ b, k)
}

// Half of the mixing function G in each lane, with rotations by `r` and `s`.
#[inline(always)]
pub(super) fn half_mix(
    a: u64x2,
    b: u64x2,
    c: u64x2,
    d: u64x2,
    x: u64x2,
    r: u64,
    s: u64,
) -> (u64x2, u64x2, u64x2, u64x2)
    requires r_low { 0 < r }
    requires r_high { r < 64 }
    requires s_low { 0 < s }
    requires s_high { s < 64 }
    ensures { (o p q t m : ℕ → ℕ) → a ≡ two o → b ≡ two p → c ≡ two q → d ≡ two t → x ≡ two m
        → result ≡ half_mixed_lanes o p q t m r s }
{
    let a1 = sum_of_three(a, b, x);
    let d1 = xor_rotated(d, a1, r);
    let c1 = sum(c, d1);
    let b1 = xor_rotated(b, c1, s);
    (a1, b1, c1, d1)
}
