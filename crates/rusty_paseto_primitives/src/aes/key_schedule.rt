//! The key schedule of AES with a key of 256 bits (FIPS 197, section 5.2).

ghost use Rattle.std.specs.Prelude.{◌≡◌, ◌<◌, ◌≤◌};
ghost use Rattle.rusty_paseto_primitives.specs.Aes.KeySchedule.{key_expansion, key_word_step, next_word, rot_word, sub_word, word, xor_word};
ghost use Rattle.rusty_paseto_primitives.specs.Aes.State.{sub_bytes};

use crate::aes::circuit::sub_bytes;
use crate::aes::planes::{repeated, transposed};
use std::simd::u8x16;

// The first bytes of the words Rcon[1] to Rcon[7].
const ROUND_CONSTANTS: [u8; 7] = [0x01, 0x02, 0x04, 0x08, 0x10, 0x20, 0x40];

fn word(schedule: &[u8; 240], i: usize) -> [u8; 4]
    requires { i < 60 }
    ensures { result ≡ word schedule.now i }
{
    let at = 4 * i;
    [
        schedule[at],
        schedule[at + 1],
        schedule[at + 2],
        schedule[at + 3],
    ]
}

// SubBytes of a block, by the circuit on eight of it: no address depends on a byte, as one in the
// table of the S-box would.
#[inline(always)]
fn sub_block(block: u8x16) -> u8x16
    ensures { result ≡ sub_bytes block }
{
    transposed(sub_bytes(repeated(block)))[0]
}

fn sub_word(t: [u8; 4]) -> [u8; 4]
    ensures { result ≡ sub_word t }
{
    let bytes = u8x16::from_array([t[0], t[1], t[2], t[3], 0, 0, 0, 0, 0, 0, 0, 0, 0, 0, 0, 0]);
    let found = sub_block(bytes).to_array();
    [found[0], found[1], found[2], found[3]]
}

fn rot_word(t: [u8; 4]) -> [u8; 4]
    ensures { result ≡ rot_word t }
{
    [t[1], t[2], t[3], t[0]]
}

fn xor_word(s: [u8; 4], t: [u8; 4]) -> [u8; 4]
    ensures { result ≡ xor_word s t }
{
    [s[0] ^ t[0], s[1] ^ t[1], s[2] ^ t[2], s[3] ^ t[3]]
}

// What is added to word i - 8 to make word i, of the word `t` before it.
fn key_word_step(i: usize, t: [u8; 4]) -> [u8; 4]
    requires first { 8 ≤ i }
    requires last { i < 60 }
    ensures { result ≡ key_word_step i t }
{
    if i % 8 == 0 {
        let constant = [ROUND_CONSTANTS[i / 8 - 1], 0, 0, 0];
        xor_word(sub_word(rot_word(t)), constant)
    } else if i % 8 == 4 {
        sub_word(t)
    } else {
        t
    }
}

// Word i of the schedule, of which the words before are there.
fn next_word(schedule: &[u8; 240], i: usize) -> [u8; 4]
    requires first { 8 ≤ i }
    requires last { i < 60 }
    ensures { result ≡ next_word schedule.now i }
{
    xor_word(
        word(schedule, i - 8),
        key_word_step(i, word(schedule, i - 1)),
    )
}

// The 60 words of the schedule of a key, of four bytes each.
pub(super) fn key_expansion(key: &[u8; 32]) -> [u8; 240]
    ensures { result ≡ key_expansion key.now }
{
    let mut schedule = [0u8; 240];
    schedule[..32].copy_from_slice(key);
    'words: for i in 8..60usize {
        let word = next_word(&schedule, i);
        schedule[4 * i..4 * i + 4].copy_from_slice(&word);
    }
    schedule
}
