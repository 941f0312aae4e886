//! The ChaCha20 block function, on sixteen words.

ghost use Rattle.std.specs.Prelude.{◌≡◌, ◌+◌, ◌*◌, ◌/◌, ◌%◌, ◌^◌, ◌≤◌, length};
ghost use Rattle.rusty_paseto_primitives.specs.ChaCha.Block.{block_bytes, block_words, chacha20_block, key_words, quarter_round, quarter_round_of, serialized, start_of, start_words, word_at};

use super::rows::twenty_rounds;

// The four words after a quarter round.
#[inline(always)]
fn mixed(a: u32, b: u32, c: u32, d: u32) -> (u32, u32, u32, u32)
    ensures { result ≡ quarter_round a b c d }
{
    let a1 = a.wrapping_add(b);
    let d1 = (d ^ a1).rotate_left(16);
    let c1 = c.wrapping_add(d1);
    let b1 = (b ^ c1).rotate_left(12);
    let a2 = a1.wrapping_add(b1);
    let d2 = (d1 ^ a2).rotate_left(8);
    let c2 = c1.wrapping_add(d2);
    let b2 = (b1 ^ c2).rotate_left(7);
    (a2, b2, c2, d2)
}

/// The quarter round of ChaCha20 on four words, in place (RFC 8439, section 2.1).
pub fn quarter_round(words: &mut [u32; 4])
    ensures { words.new ≡ quarter_round_of words.old }
{
    let (a, b, c, d) = mixed(words[0], words[1], words[2], words[3]);
    *words = [a, b, c, d];
}

// The sixteen words of the block with these starting words.
#[inline(always)]
pub(crate) fn block_words(start: [u32; 16]) -> [u32; 16]
    ensures { result ≡ block_words start }
{
    let x = twenty_rounds(start);
    [
        x[0].wrapping_add(start[0]),
        x[1].wrapping_add(start[1]),
        x[2].wrapping_add(start[2]),
        x[3].wrapping_add(start[3]),
        x[4].wrapping_add(start[4]),
        x[5].wrapping_add(start[5]),
        x[6].wrapping_add(start[6]),
        x[7].wrapping_add(start[7]),
        x[8].wrapping_add(start[8]),
        x[9].wrapping_add(start[9]),
        x[10].wrapping_add(start[10]),
        x[11].wrapping_add(start[11]),
        x[12].wrapping_add(start[12]),
        x[13].wrapping_add(start[13]),
        x[14].wrapping_add(start[14]),
        x[15].wrapping_add(start[15]),
    ]
}

// Writes the words over `bytes`, each low byte first.
#[inline(always)]
pub(crate) fn serialize(words: &[u32], bytes: &mut [u8])
    requires { length bytes.old ≡ 4 * length words.now }
    ensures { bytes.new ≡ serialized words.now }
{
    'words: for i in 0..words.len() {
        bytes[4 * i..4 * i + 4].copy_from_slice(&words[i].to_le_bytes());
    }
}

// The bytes of the block with these starting words.
#[inline(always)]
pub(crate) fn block_bytes(start: [u32; 16]) -> [u8; 64]
    ensures { result ≡ block_bytes start }
{
    let mut bytes = [0u8; 64];
    serialize(&block_words(start), &mut bytes);
    bytes
}

// The word that the four bytes from `at` on are, low byte first.
#[inline(always)]
pub(crate) fn load_word(bytes: &[u8], at: usize) -> u32
    requires { at + 4 ≤ length bytes.now }
    ensures { result ≡ word_at bytes.now at }
{
    u32::from_le_bytes([bytes[at], bytes[at + 1], bytes[at + 2], bytes[at + 3]])
}

pub(crate) fn load_key(key: &[u8; 32]) -> [u32; 8]
    ensures { result ≡ key_words key.now }
{
    [
        load_word(key, 0),
        load_word(key, 4),
        load_word(key, 8),
        load_word(key, 12),
        load_word(key, 16),
        load_word(key, 20),
        load_word(key, 24),
        load_word(key, 28),
    ]
}

// The sixteen starting words of a key and of words 12 to 15.
#[inline(always)]
pub(crate) fn start_words(key: [u32; 8], t0: u32, t1: u32, t2: u32, t3: u32) -> [u32; 16]
    ensures { result ≡ start_words key t0 t1 t2 t3 }
{
    [
        0x6170_7865,
        0x3320_646e,
        0x7962_2d32,
        0x6b20_6574,
        key[0],
        key[1],
        key[2],
        key[3],
        key[4],
        key[5],
        key[6],
        key[7],
        t0,
        t1,
        t2,
        t3,
    ]
}

// The two halves of a block's number of 64 bits.
#[inline(always)]
pub(super) fn low_half(n: u64) -> u32
    ensures { result ≡ n % 2 ^ 32 }
{
    (n & 0xffff_ffff) as u32
}

#[inline(always)]
pub(super) fn high_half(n: u64) -> u32
    ensures { result ≡ n / 2 ^ 32 % 2 ^ 32 }
{
    (n >> 32) as u32
}

// The starting words of a key and the bytes of words 12 to 15.
pub(crate) fn start_of(key: &[u8; 32], tail: &[u8; 16]) -> [u32; 16]
    ensures { result ≡ start_of key.now tail.now }
{
    start_words(
        load_key(key),
        load_word(tail, 0),
        load_word(tail, 4),
        load_word(tail, 8),
        load_word(tail, 12),
    )
}

/// One block of ChaCha20: the 64 bytes of keystream for a key and `tail`, which is the block counter and the nonce,
/// words 12 to 15, in little-endian bytes (RFC 8439, section 2.3).
pub fn chacha20_block(key: &[u8; 32], tail: &[u8; 16]) -> [u8; 64]
    ensures { result ≡ chacha20_block key.now tail.now }
{
    block_bytes(start_of(key, tail))
}
