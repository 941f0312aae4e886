//! Blocks of 1024 bytes, and the compression function G (RFC 9106, section 3.5).

ghost use Rattle.std.specs.Prelude.{◌≡◌, ℕ, ◌<◌, ◌≤◌, ◌+◌, ◌*◌, List, [], ◌∷◌, bit_xor, length, slice_index};
ghost use Rattle.rusty_paseto_primitives.specs.Blake2.Block.{word_at};
ghost use Rattle.paseto_argon2.specs.Block.{block_bytes, block_of, compressed, registers, row_words, rows_permuted, transposed, xored, zero_block};
ghost use Rattle.paseto_argon2.specs.Permutation.{row};

use crate::permutation::permuted;
use std::simd::{u8x16, u64x2};

// The length of a block in bytes.
pub(crate) const BLOCK_LEN: usize = 1024;

const WORDS: usize = 128;

const VECTOR_LEN: usize = 16;

// Eight rows of eight registers.
pub(crate) type Block = [[u64x2; 8]; 8];

#[inline(always)]
pub(crate) fn zero_block() -> Block
    ensures { result ≡ registers zero_block }
{
    [[u64x2::splat(0); 8]; 8]
}

#[inline(always)]
fn row_xored(x: &[u64x2; 8], y: &[u64x2; 8]) -> [u64x2; 8]
    ensures { (f g : ℕ → ℕ) → x.now ≡ row f → y.now ≡ row g
        → result ≡ row (λ k. bit_xor (f k) (g k)) }
{
    [
        x[0] ^ y[0],
        x[1] ^ y[1],
        x[2] ^ y[2],
        x[3] ^ y[3],
        x[4] ^ y[4],
        x[5] ^ y[5],
        x[6] ^ y[6],
        x[7] ^ y[7],
    ]
}

#[inline(always)]
pub(crate) fn xored(x: &Block, y: &Block) -> Block
    ensures { (a b : List ℕ) → x.now ≡ registers a → y.now ≡ registers b
        → result ≡ registers (xored a b) }
{
    [
        row_xored(&x[0], &y[0]),
        row_xored(&x[1], &y[1]),
        row_xored(&x[2], &y[2]),
        row_xored(&x[3], &y[3]),
        row_xored(&x[4], &y[4]),
        row_xored(&x[5], &y[5]),
        row_xored(&x[6], &y[6]),
        row_xored(&x[7], &y[7]),
    ]
}

#[inline(always)]
fn rows_permuted(x: &Block) -> Block
    ensures { (a : List ℕ) → x.now ≡ registers a → result ≡ registers (rows_permuted a) }
{
    [
        permuted(x[0]),
        permuted(x[1]),
        permuted(x[2]),
        permuted(x[3]),
        permuted(x[4]),
        permuted(x[5]),
        permuted(x[6]),
        permuted(x[7]),
    ]
}

// The registers in column `j`, which the caller gives as a constant.
#[inline(always)]
fn column_of(x: &Block, j: usize) -> [u64x2; 8]
    requires { j < 8 }
    ensures { (a : List ℕ) → x.now ≡ registers a → result ≡ row (slice_index (row_words (transposed a) j)) }
{
    [
        x[0][j], x[1][j], x[2][j], x[3][j], x[4][j], x[5][j], x[6][j], x[7][j],
    ]
}

// The rows and columns of registers exchanged.
#[inline(always)]
fn transposed(x: &Block) -> Block
    ensures { (a : List ℕ) → x.now ≡ registers a → result ≡ registers (transposed a) }
{
    [
        column_of(x, 0),
        column_of(x, 1),
        column_of(x, 2),
        column_of(x, 3),
        column_of(x, 4),
        column_of(x, 5),
        column_of(x, 6),
        column_of(x, 7),
    ]
}

// P on each column, which is left as a row.
#[inline(always)]
fn columns_permuted(x: &Block) -> Block
    ensures { (a : List ℕ) → x.now ≡ registers a → result ≡ registers (rows_permuted (transposed a)) }
{
    [
        permuted(column_of(x, 0)),
        permuted(column_of(x, 1)),
        permuted(column_of(x, 2)),
        permuted(column_of(x, 3)),
        permuted(column_of(x, 4)),
        permuted(column_of(x, 5)),
        permuted(column_of(x, 6)),
        permuted(column_of(x, 7)),
    ]
}

// G of two blocks.
#[inline(never)]
pub(crate) fn compressed(x: &Block, y: &Block) -> Block
    ensures { (a b : List ℕ) → x.now ≡ registers a → y.now ≡ registers b
        → result ≡ registers (compressed a b) }
{
    let r = xored(x, y);
    let columns = columns_permuted(&rows_permuted(&r));
    xored(&transposed(&columns), &r)
}

// Register `k` of a block's bytes.
#[inline(always)]
fn register_at(bytes: &[u8], k: usize) -> u64x2
    requires { 16 * k + 16 ≤ length bytes.now }
    ensures { result ≡ word_at bytes.now (2 * k) ∷ word_at bytes.now (2 * k + 1) ∷ [] }
{
    let at = VECTOR_LEN * k;
    u64x2::from_le_bytes(u8x16::from_slice(&bytes[at..at + VECTOR_LEN]))
}

fn row_at(bytes: &[u8; 1024], i: usize) -> [u64x2; 8]
    requires { i < 8 }
    ensures { result ≡ row (λ k. word_at bytes.now (16 * i + k)) }
{
    [
        register_at(bytes, 8 * i),
        register_at(bytes, 8 * i + 1),
        register_at(bytes, 8 * i + 2),
        register_at(bytes, 8 * i + 3),
        register_at(bytes, 8 * i + 4),
        register_at(bytes, 8 * i + 5),
        register_at(bytes, 8 * i + 6),
        register_at(bytes, 8 * i + 7),
    ]
}

// The block of 1024 bytes.
pub(crate) fn block_of(bytes: &[u8; 1024]) -> Block
    ensures { result ≡ registers (block_of bytes.now) }
{
    [
        row_at(bytes, 0),
        row_at(bytes, 1),
        row_at(bytes, 2),
        row_at(bytes, 3),
        row_at(bytes, 4),
        row_at(bytes, 5),
        row_at(bytes, 6),
        row_at(bytes, 7),
    ]
}

// Word `k` of a block.
#[inline(always)]
pub(crate) fn word_of(block: &Block, k: usize) -> u64
    requires { k < 128 }
    ensures { (a : List ℕ) → block.now ≡ registers a → result ≡ slice_index a k }
{
    let words = block[k / 16][k % 16 / 2].to_array();
    words[k % 2]
}

// The bytes of a block.
pub(crate) fn block_bytes(block: &Block) -> [u8; 1024]
    ensures { (a : List ℕ) → block.now ≡ registers a → result ≡ block_bytes a }
{
    let mut bytes = [0u8; BLOCK_LEN];
    'words: for k in 0..WORDS {
        bytes[8 * k..8 * k + 8].copy_from_slice(&word_of(block, k).to_le_bytes());
    }
    bytes
}
