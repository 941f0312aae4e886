//! Characters of a section, sixteen at once: four groups of four characters, of three bytes each.

ghost use Rattle.std.specs.Prelude.{◌≡◌, ℕ, ◌+◌, ◌*◌, ◌/◌, ◌<◌, ◌≤◌, List, IsTrue, length, take, slice_index};
ghost use Rattle.base64.specs.Rfc4648.{encode_symbols};
ghost use Rattle.rusty_paseto_parts.specs.Section.{base64url};
ghost use Rattle.rusty_paseto_parts.specs.Sixteen.{sixteen, value};

use std::simd::u8x16;

/// How many characters are read at once, and how many bytes they encode.
pub(crate) const CHARACTERS: usize = 16;

pub(crate) const BYTES: usize = 12;

// The places of the first three characters of each group, and of the last three.
const FRONT: [usize; 16] = [0, 1, 2, 4, 5, 6, 8, 9, 10, 12, 13, 14, 15, 15, 15, 15];

const BACK: [usize; 16] = [1, 2, 3, 5, 6, 7, 9, 10, 11, 13, 14, 15, 15, 15, 15, 15];

// The value of each character, and 255 for what is no character of the alphabet.
#[inline(always)]
fn values(text: u8x16) -> u8x16
    ensures { (f : ℕ → ℕ) → ((i : ℕ) → f i < 256) → text ≡ sixteen f → result ≡ sixteen
        (λ i. value (f i)) }
{
    let upper = text - u8x16::splat(65);
    let lower = text - u8x16::splat(97);
    let digit = text - u8x16::splat(48);
    let letters = u8x16::splat(26);
    let none = u8x16::splat(255);
    let other = text
        .simd_eq(u8x16::splat(45))
        .select(u8x16::splat(62), none);
    let other = text
        .simd_eq(u8x16::splat(95))
        .select(u8x16::splat(63), other);
    let other = digit
        .simd_lt(u8x16::splat(10))
        .select(digit + u8x16::splat(52), other);
    let other = lower.simd_lt(letters).select(lower + letters, other);
    upper.simd_lt(letters).select(upper, other)
}

// The twelve bytes of sixteen values of six bits, and four more.
#[inline(always)]
fn packed(values: u8x16) -> u8x16
    ensures lanes { length result ≡ 16 }
    ensures spelled { (f : ℕ → ℕ) → ((i : ℕ) → f i < 64) → values ≡ sixteen f
        → (t : List ℕ) → encode_symbols t (take 12 result) ≡ sixteen (λ i. slice_index t (f i)) }
{
    let up = u8x16::from_array([2, 4, 6, 2, 4, 6, 2, 4, 6, 2, 4, 6, 0, 0, 0, 0]);
    let down = u8x16::from_array([4, 2, 0, 4, 2, 0, 4, 2, 0, 4, 2, 0, 0, 0, 0, 0]);
    (values.swizzle(FRONT) << up) + (values.swizzle(BACK) >> down)
}

// Whether each is a value of six bits.
#[inline(always)]
fn are_values(values: u8x16) -> bool
    ensures { IsTrue result → (i : ℕ) → slice_index values i < 64 }
{
    !values.simd_gt(u8x16::splat(63)).any()
}

// Writes the twelve bytes of which sixteen characters are the base64url, and four more. `false` where one
// of the characters is none of the alphabet.
#[inline(always)]
fn read_sixteen(text: &[u8], bytes: &mut [u8]) -> bool
    requires text { length text.now ≡ 16 }
    requires bytes { length bytes.old ≡ 16 }
    ensures { IsTrue result → base64url (take 12 bytes.new) ≡ text.now }
{
    let values = values(u8x16::from_slice(text));
    if !are_values(values) {
        return false;
    }
    packed(values).copy_to_slice(bytes);
    true
}

/// Decodes the beginning of a text in blocks of sixteen characters, twelve bytes each, and stops before the first block
/// with a character outside the alphabet. It returns how many blocks were decoded.
pub(crate) fn read_sixteens(text: &[u8], bytes: &mut [u8]) -> usize
    requires room { 12 * (length text.now / 16) + 4 ≤ length bytes.old }
    ensures within { 16 * result ≤ length text.now }
    ensures spelled { base64url (take (12 * result) bytes.new) ≡ take (16 * result) text.now }
{
    let count = text.len() / CHARACTERS;
    'sixteens: for n in 0..count {
        let from = CHARACTERS * n;
        let to = BYTES * n;
        if !read_sixteen(
            &text[from..from + CHARACTERS],
            &mut bytes[to..to + CHARACTERS],
        ) {
            return n;
        }
    }
    count
}
