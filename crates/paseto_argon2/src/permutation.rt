//! The permutation P on eight registers (RFC 9106, section 3.6). A register is a vector of two words, and GB works on
//! two columns or diagonals at once, in the lanes of vectors.

ghost use Rattle.std.specs.Prelude.{◌≡◌, ℕ, ◌%◌, ◌^◌, ◌<◌, List, [], ◌∷◌, bit_xor, slice_index};
ghost use Rattle.std.specs.Int.{w64, rotate_right};
ghost use Rattle.rusty_paseto_primitives.specs.Blake2.Lanes.{two};
ghost use Rattle.paseto_argon2.specs.Permutation.{added, columns_mixed, diagonals_mixed, gb_lanes, half_gb_lanes, permuted, row};

use std::simd::{u8x16, u64x2};

// The lower half of each lane.
#[inline(always)]
fn truncated(x: u64x2) -> u64x2
    ensures { (f : ℕ → ℕ) → x ≡ two f → result ≡ two (λ j. f j % 2 ^ 32) }
{
    x & u64x2::splat(0xFFFF_FFFF)
}

#[inline(always)]
fn added(a: u64x2, b: u64x2) -> u64x2
    ensures { (f g : ℕ → ℕ) → a ≡ two f → b ≡ two g → result ≡ two (λ j. added (f j) (g j)) }
{
    let product = truncated(a) * truncated(b);
    a + b + (product + product)
}

// Rotates each lane by 32. Its bytes are moved, since of shifts the compiler makes more instructions.
#[inline(always)]
fn halves_exchanged(x: u64x2) -> u64x2
    ensures { (f : ℕ → ℕ) → x ≡ two f → result ≡ two (λ j. rotate_right w64 (f j) 32) }
{
    let bytes = x.to_le_bytes();
    u64x2::from_le_bytes(bytes.swizzle([4, 5, 6, 7, 0, 1, 2, 3, 12, 13, 14, 15, 8, 9, 10, 11]))
}

#[inline(always)]
fn rotated(x: u64x2, k: u64) -> u64x2
    requires low { 0 < k }
    requires high { k < 64 }
    ensures { (f : ℕ → ℕ) → x ≡ two f → result ≡ two (λ j. rotate_right w64 (f j) k) }
{
    if k == 32 {
        return halves_exchanged(x);
    }
    (x >> u64x2::splat(k)) | (x << u64x2::splat(64 - k))
}

#[inline(always)]
fn xor_rotated(a: u64x2, b: u64x2, k: u64) -> u64x2
    requires low { 0 < k }
    requires high { k < 64 }
    ensures { (f g : ℕ → ℕ) → a ≡ two f → b ≡ two g → result ≡ two
        (λ j. rotate_right w64 (bit_xor (f j) (g j)) k) }
{
    rotated(a ^ b, k)
}

// Half of GB in each lane, with rotations by `r` and `s`.
#[inline(always)]
fn half_gb(a: u64x2, b: u64x2, c: u64x2, d: u64x2, r: u64, s: u64) -> (u64x2, u64x2, u64x2, u64x2)
    requires r_low { 0 < r }
    requires r_high { r < 64 }
    requires s_low { 0 < s }
    requires s_high { s < 64 }
    ensures { (o p q t : ℕ → ℕ) → a ≡ two o → b ≡ two p → c ≡ two q → d ≡ two t
        → result ≡ half_gb_lanes o p q t r s }
{
    let a1 = added(a, b);
    let d1 = xor_rotated(d, a1, r);
    let c1 = added(c, d1);
    let b1 = xor_rotated(b, c1, s);
    (a1, b1, c1, d1)
}

// GB in each lane.
#[inline(always)]
fn gb(a: u64x2, b: u64x2, c: u64x2, d: u64x2) -> (u64x2, u64x2, u64x2, u64x2)
    ensures { (o p q t : ℕ → ℕ) → a ≡ two o → b ≡ two p → c ≡ two q → d ≡ two t
        → result ≡ gb_lanes o p q t }
{
    let (a, b, c, d) = half_gb(a, b, c, d, 32, 24);
    half_gb(a, b, c, d, 16, 63)
}

#[inline(always)]
fn columns_mixed(s: [u64x2; 8]) -> [u64x2; 8]
    ensures { (v : List ℕ) → s ≡ row (slice_index v) → result ≡ row (slice_index (columns_mixed v)) }
{
    let (a0, b0, c0, d0) = gb(s[0], s[2], s[4], s[6]);
    let (a1, b1, c1, d1) = gb(s[1], s[3], s[5], s[7]);
    [a0, a1, b0, b1, c0, c1, d0, d1]
}

// The last word of one register and the first of another.
#[inline(always)]
fn across(x: u64x2, y: u64x2) -> u64x2
    ensures { (x0 x1 y0 y1 : ℕ) → x ≡ x0 ∷ x1 ∷ [] → y ≡ y0 ∷ y1 ∷ [] → result ≡ x1 ∷ y0 ∷ [] }
{
    x.shuffle(y, [1, 2])
}

// GB on each diagonal. The rows are turned, so that each diagonal is a column, and back.
#[inline(always)]
fn diagonals_mixed(s: [u64x2; 8]) -> [u64x2; 8]
    ensures { (v : List ℕ) → s ≡ row (slice_index v) → result ≡ row (slice_index (diagonals_mixed v)) }
{
    let (a0, b0, c0, d0) = gb(s[0], across(s[2], s[3]), s[5], across(s[7], s[6]));
    let (a1, b1, c1, d1) = gb(s[1], across(s[3], s[2]), s[4], across(s[6], s[7]));
    [
        a0,
        a1,
        across(b1, b0),
        across(b0, b1),
        c1,
        c0,
        across(d0, d1),
        across(d1, d0),
    ]
}

// P on eight registers.
#[inline(always)]
pub(crate) fn permuted(s: [u64x2; 8]) -> [u64x2; 8]
    ensures { (v : List ℕ) → s ≡ row (slice_index v) → result ≡ row (slice_index (permuted v)) }
{
    diagonals_mixed(columns_mixed(s))
}
