//! The variable-length hash function H' (RFC 9106, section 3.3).

ghost use Rattle.std.specs.Prelude.{◌≡◌, ◌<◌, ◌≤◌, ◌^◌, ◌++◌, ◌-◌, ◌*◌, ◌+◌, length, take};
ghost use Rattle.paseto_argon2.specs.VariableHash.{front_count, fronts, hash, le32, linked, variable_hash};

use rusty_paseto_primitives::{Blake2b, blake2b_keyed};

// The longest hash of BLAKE2b, in bytes.
const HASH_LEN: usize = 64;

const HALF_LEN: usize = 32;

// Fills `output` with H' of the message, which is given in two pieces.
pub(crate) fn variable_hash(message: &[u8], end: &[u8], output: &mut [u8])
    requires low { 1 ≤ length output.old }
    requires high { length output.old < 2 ^ 32 }
    ensures { output.new ≡ variable_hash (length output.old) (message.now ++ end.now) }
{
    let output_len = output.len() as u32;
    if output.len() <= HASH_LEN {
        hash_with_length(output_len, message, end, output);
        return;
    }
    let mut first = [0; HASH_LEN];
    hash_with_length(output_len, message, end, &mut first);
    long_output(first, output);
}

// Fills `output` with the hash of a number and the two pieces of a message.
fn hash_with_length(number: u32, message: &[u8], end: &[u8], output: &mut [u8])
    requires low { 1 ≤ length output.old }
    requires high { length output.old ≤ 64 }
    ensures { output.new ≡ hash (length output.old) (le32 number ++ (message.now ++ end.now)) }
{
    let mut hasher = Blake2b::new(&[], output.len());
    hasher.update(&number.to_le_bytes());
    hasher.update(message);
    hasher.update(end);
    hasher.finalize_into(output);
}

// Fills an output of more than 64 bytes: halves of hashes of hashes, from the first on, and a last hash that is whole.
fn long_output(first: [u8; 64], output: &mut [u8])
    requires low { 64 < length output.old }
    requires high { length output.old < 2 ^ 32 }
    ensures { let r = front_count (length output.old) in
        output.new ≡ fronts first r ++ hash (length output.old - 32 * r) (linked first (r - 1)) }
{
    let count = output.len().div_ceil(HALF_LEN) - 2;
    let mut link = first;
    write_front(&link, output, 0);
    'fronts: for k in 1..count {
        link = blake2b_keyed(&[], &link);
        write_front(&link, output, k);
    }
    hash_into(&link, &mut output[HALF_LEN * count..]);
}

// Writes the first half of a hash behind `k` others.
fn write_front(link: &[u8; 64], output: &mut [u8], k: usize)
    requires { 32 * k + 32 ≤ length output.old }
    ensures { take (32 * (k + 1)) output.new ≡ take (32 * k) output.old ++ take 32 link.now }
{
    let at = HALF_LEN * k;
    output[at..at + HALF_LEN].copy_from_slice(&link[..HALF_LEN]);
}

// Fills `output` with the hash of the message.
fn hash_into(message: &[u8], output: &mut [u8])
    requires low { 1 ≤ length output.old }
    requires high { length output.old ≤ 64 }
    ensures { output.new ≡ hash (length output.old) message.now }
{
    let mut hasher = Blake2b::new(&[], output.len());
    hasher.update(message);
    hasher.finalize_into(output);
}
