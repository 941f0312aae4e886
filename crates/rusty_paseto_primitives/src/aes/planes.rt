//! Eight blocks at once, in planes: how they are packed, and the steps of a round other than SubBytes.

ghost use Rattle.std.specs.Prelude.{◌≡◌, ℕ, ◌<◌, Bool, List};
ghost use Rattle.rusty_paseto_primitives.specs.Bytes.{IsBytes};
ghost use Rattle.rusty_paseto_primitives.specs.Aes.Planes.{bit_plane, doubled, exchanged, plane, planes, turned, vectors};
ghost use Rattle.rusty_paseto_primitives.specs.Aes.State.{add_round_key, mix_columns, shift_rows};

use std::simd::u8x16;

// The places that the bytes of a block come from when its rows are shifted, and when each column is
// turned up by one row and by two.
const SHIFTED: [usize; 16] = [0, 5, 10, 15, 4, 9, 14, 3, 8, 13, 2, 7, 12, 1, 6, 11];

const TURNED_ONE: [usize; 16] = [1, 2, 3, 0, 5, 6, 7, 4, 9, 10, 11, 8, 13, 14, 15, 12];

const TURNED_TWO: [usize; 16] = [2, 3, 0, 1, 6, 7, 4, 5, 10, 11, 8, 9, 14, 15, 12, 13];

// Exchanges the upper four bits of each byte of `a` with the lower four of `b`.
#[inline(always)]
fn exchanged_by_four(a: u8x16, b: u8x16) -> (u8x16, u8x16)
    ensures { (f g : ℕ → ℕ → Bool) → a ≡ plane f → b ≡ plane g → result ≡ exchanged 4 f g }
{
    let low = u8x16::splat(0x0f);
    let high = u8x16::splat(0xf0);
    let places = u8x16::splat(4);
    (
        (a & low) ^ ((b & low) << places),
        ((a >> places) & low) ^ (b & high),
    )
}

// The same of two bits in each four.
#[inline(always)]
fn exchanged_by_two(a: u8x16, b: u8x16) -> (u8x16, u8x16)
    ensures { (f g : ℕ → ℕ → Bool) → a ≡ plane f → b ≡ plane g → result ≡ exchanged 2 f g }
{
    let low = u8x16::splat(0x33);
    let high = u8x16::splat(0xcc);
    let places = u8x16::splat(2);
    (
        (a & low) ^ ((b & low) << places),
        ((a >> places) & low) ^ (b & high),
    )
}

// The same of one bit in each two.
#[inline(always)]
fn exchanged_by_one(a: u8x16, b: u8x16) -> (u8x16, u8x16)
    ensures { (f g : ℕ → ℕ → Bool) → a ≡ plane f → b ≡ plane g → result ≡ exchanged 1 f g }
{
    let low = u8x16::splat(0x55);
    let high = u8x16::splat(0xaa);
    let places = u8x16::splat(1);
    (
        (a & low) ^ ((b & low) << places),
        ((a >> places) & low) ^ (b & high),
    )
}

// Blocks into planes, and planes into blocks: bit k of a byte of vector j becomes bit j of that byte
// of vector k.
#[inline(always)]
pub(super) fn transposed(v: [u8x16; 8]) -> [u8x16; 8]
    ensures { (f : ℕ → ℕ → ℕ → Bool) → v ≡ vectors 8 f → result ≡ vectors 8 (λ k i j. f j i k) }
{
    let (a0, a4) = exchanged_by_four(v[0], v[4]);
    let (a1, a5) = exchanged_by_four(v[1], v[5]);
    let (a2, a6) = exchanged_by_four(v[2], v[6]);
    let (a3, a7) = exchanged_by_four(v[3], v[7]);
    let (b0, b2) = exchanged_by_two(a0, a2);
    let (b1, b3) = exchanged_by_two(a1, a3);
    let (b4, b6) = exchanged_by_two(a4, a6);
    let (b5, b7) = exchanged_by_two(a5, a7);
    let (c0, c1) = exchanged_by_one(b0, b1);
    let (c2, c3) = exchanged_by_one(b2, b3);
    let (c4, c5) = exchanged_by_one(b4, b5);
    let (c6, c7) = exchanged_by_one(b6, b7);
    [c0, c1, c2, c3, c4, c5, c6, c7]
}

// The exclusive or of each block with one of the other eight: AddRoundKey, where these are all the
// round key.
#[inline(always)]
pub(super) fn sum(q: [u8x16; 8], r: [u8x16; 8]) -> [u8x16; 8]
    ensures { (s t : ℕ → List ℕ) → q ≡ planes s → r ≡ planes t → result ≡ planes
        (λ j. add_round_key (s j) (t j)) }
{
    [
        q[0] ^ r[0],
        q[1] ^ r[1],
        q[2] ^ r[2],
        q[3] ^ r[3],
        q[4] ^ r[4],
        q[5] ^ r[5],
        q[6] ^ r[6],
        q[7] ^ r[7],
    ]
}

// ShiftRows of each block.
#[inline(always)]
pub(super) fn shift_rows(q: [u8x16; 8]) -> [u8x16; 8]
    ensures { (s : ℕ → List ℕ) → q ≡ planes s → result ≡ planes (λ j. shift_rows (s j)) }
{
    [
        q[0].swizzle(SHIFTED),
        q[1].swizzle(SHIFTED),
        q[2].swizzle(SHIFTED),
        q[3].swizzle(SHIFTED),
        q[4].swizzle(SHIFTED),
        q[5].swizzle(SHIFTED),
        q[6].swizzle(SHIFTED),
        q[7].swizzle(SHIFTED),
    ]
}

#[inline(always)]
fn turned_one(q: [u8x16; 8]) -> [u8x16; 8]
    ensures { (s : ℕ → List ℕ) → q ≡ planes s → result ≡ planes (λ j. turned 1 (s j)) }
{
    [
        q[0].swizzle(TURNED_ONE),
        q[1].swizzle(TURNED_ONE),
        q[2].swizzle(TURNED_ONE),
        q[3].swizzle(TURNED_ONE),
        q[4].swizzle(TURNED_ONE),
        q[5].swizzle(TURNED_ONE),
        q[6].swizzle(TURNED_ONE),
        q[7].swizzle(TURNED_ONE),
    ]
}

#[inline(always)]
fn turned_two(q: [u8x16; 8]) -> [u8x16; 8]
    ensures { (s : ℕ → List ℕ) → q ≡ planes s → result ≡ planes (λ j. turned 2 (s j)) }
{
    [
        q[0].swizzle(TURNED_TWO),
        q[1].swizzle(TURNED_TWO),
        q[2].swizzle(TURNED_TWO),
        q[3].swizzle(TURNED_TWO),
        q[4].swizzle(TURNED_TWO),
        q[5].swizzle(TURNED_TWO),
        q[6].swizzle(TURNED_TWO),
        q[7].swizzle(TURNED_TWO),
    ]
}

// Each byte times x: the highest bit comes back where the modulus has a bit.
#[inline(always)]
fn doubled(q: [u8x16; 8]) -> [u8x16; 8]
    ensures { (s : ℕ → List ℕ) → ((j : ℕ) → IsBytes (s j)) → q ≡ planes s → result ≡ planes
        (λ j. doubled (s j)) }
{
    [
        q[7],
        q[0] ^ q[7],
        q[1],
        q[2] ^ q[7],
        q[3] ^ q[7],
        q[4],
        q[5],
        q[6],
    ]
}

// MixColumns of each block: a byte and the next are doubled together.
#[inline(always)]
pub(super) fn mix_columns(q: [u8x16; 8]) -> [u8x16; 8]
    ensures { (s : ℕ → List ℕ) → ((j : ℕ) → IsBytes (s j)) → q ≡ planes s → result ≡ planes
        (λ j. mix_columns (s j)) }
{
    let next = turned_one(q);
    let both = sum(q, next);
    sum(sum(doubled(both), next), turned_two(both))
}

// Bit b of each byte of a block, in all eight blocks of a plane.
#[inline(always)]
fn bit_plane(block: u8x16, b: u8) -> u8x16
    requires { b < 8 }
    ensures { (f : ℕ → ℕ → Bool) → block ≡ plane f → result ≡ bit_plane f b }
{
    ((block >> u8x16::splat(b)) & u8x16::splat(1)) * u8x16::splat(0xff)
}

// The planes of eight times the same block.
#[inline(always)]
pub(super) fn repeated(block: u8x16) -> [u8x16; 8]
    ensures { (f : ℕ → ℕ → Bool) → block ≡ plane f → result ≡ vectors 8 (λ b i j. f i b) }
{
    [
        bit_plane(block, 0),
        bit_plane(block, 1),
        bit_plane(block, 2),
        bit_plane(block, 3),
        bit_plane(block, 4),
        bit_plane(block, 5),
        bit_plane(block, 6),
        bit_plane(block, 7),
    ]
}
