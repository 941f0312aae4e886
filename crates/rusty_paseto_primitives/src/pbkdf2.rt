//! PBKDF2 (RFC 8018 section 5.2) with HMAC-SHA384.

ghost use Rattle.std.specs.Prelude.{◌≡◌, ◌≤◌, ◌<◌, ℕ, List, [], Some, IfErr, IfOk, OnErr, codes, length, slice_index};
ghost use Rattle.rusty_paseto_primitives.specs.Hmac.{Holds};
ghost use Rattle.rusty_paseto_primitives.specs.Keystream.{xored};
ghost use Rattle.rusty_paseto_primitives.specs.Pbkdf2.{block, derived_key, longest, output};

use crate::hmac::HmacSha384;
use std::fmt;

// The length in bytes of a block of the key, which is that of a code.
const BLOCK_LEN: usize = 48;

// How many bytes a key has at most: 2^32 - 1 blocks.
const LONGEST: usize = 206_158_430_160;

/// PBKDF2 derives no key that is longer than 2^32 - 1 blocks, 206,158,430,160 bytes (RFC 8018 section 5.2, step 1).
#[derive(Debug, Clone, Copy, PartialEq, Eq)]
pub struct DerivedKeyTooLong;

impl fmt::Display for DerivedKeyTooLong {
    ghost output = { λ _. Some (codes "derived key too long") };

    fn fmt<W: fmt::Write>(&self, f: &mut fmt::Formatter<W>) -> fmt::Result {
        f.write_str("derived key too long")
    }
}

/// The key that is derived from a password and a salt, each of any length, with this many iterations: the first block
/// of PBKDF2, 48 bytes. For a shorter key, truncate it; `pbkdf2_sha384_into` derives longer ones.
///
/// ```rust
/// use rusty_paseto_primitives::pbkdf2_sha384;
///
/// /// The key of a password by 100,000 iterations.
/// pub fn key_of(password: &str, salt: &[u8; 32]) -> [u8; 48] {
///     pbkdf2_sha384(password.as_bytes(), salt, 100_000)
/// }
/// ```
///
/// Each iteration costs an attacker who guesses passwords as much as it costs here. There is at least one: 0 has the
/// same result as 1. Does not allocate.
///
/// Source: RFC 8018, section 5.2.
pub fn pbkdf2_sha384(password: &[u8], salt: &[u8], iterations: u32) -> [u8; 48]
    ensures { result ≡ derived_key password.now salt.now iterations 48 }
{
    block(&HmacSha384::new(password), salt, iterations, 1)
}

/// Fills `key` with the key of its length that is derived from a password and a salt, each of any length, with this many
/// iterations, of which there is at least one. The first 48 bytes are those of `pbkdf2_sha384`.
///
/// A key of more than 206,158,430,160 bytes is refused, and then unchanged. An attacker who needs the first bytes alone
/// derives one block, at the cost of the iterations; each 48 bytes cost them once more here. Does not allocate.
///
/// Source: RFC 8018, section 5.2.
pub fn pbkdf2_sha384_into(
    password: &[u8],
    salt: &[u8],
    iterations: u32,
    key: &mut [u8],
) -> Result<(), DerivedKeyTooLong>
    ensures ok { IfOk result (λ _. (length key.old ≤ longest)
        × (key.new ≡ derived_key password.now salt.now iterations (length key.old))) }
    ensures err { IfErr result (λ _. longest < length key.old) }
    ensures unchanged { OnErr result (key.new ≡ key.old) }
{
    if key.len() > LONGEST {
        return Err(DerivedKeyTooLong);
    }
    fill(&HmacSha384::new(password), salt, iterations, key);
    Ok(())
}

// Fills the key, block by block.
fn fill(keyed: &HmacSha384, salt: &[u8], iterations: u32, key: &mut [u8])
    requires { length key.old ≤ longest }
    ensures { (password : List ℕ) → Holds keyed.now password []
        → key.new ≡ derived_key password salt.now iterations (length key.old) }
{
    let block_count = key.len().div_ceil(BLOCK_LEN);
    'fill: for i in 0..block_count {
        let at = BLOCK_LEN * i;
        let end = key.len().min(at + BLOCK_LEN);
        let block = block(keyed, salt, iterations, i as u32 + 1);
        key[at..end].copy_from_slice(&block[..end - at]);
    }
}

// The block with this number, from 1 on, under a hasher that has taken in the password alone.
fn block(keyed: &HmacSha384, salt: &[u8], iterations: u32, number: u32) -> [u8; 48]
    ensures { (password : List ℕ) → Holds keyed.now password []
        → result ≡ block password salt.now iterations number }
{
    let mut output = first_output(keyed, salt, number);
    let mut key = output;
    'iterations: for _done in 1..iterations.max(1) {
        output = keyed.code_of(&output);
        mix(&mut key, &output);
    }
    key
}

// The first output of HMAC, of the salt and the number of the block.
#[tactic(auto, unfolding(crate::specs::Pbkdf2::output))]
fn first_output(keyed: &HmacSha384, salt: &[u8], number: u32) -> [u8; 48]
    ensures { (password : List ℕ) → Holds keyed.now password []
        → result ≡ output password salt.now number 0 }
{
    let mut hasher = keyed.clone().unwrap();
    hasher.update(salt);
    hasher.update(&number.to_be_bytes());
    hasher.finalize()
}

// Mixes an output into the key, byte by byte.
fn mix(key: &mut [u8; 48], output: &[u8; 48])
    ensures { key.new ≡ xored (slice_index «output».now) key.old }
{
    'bytes: for i in 0..BLOCK_LEN {
        key[i] ^= output[i];
    }
}
