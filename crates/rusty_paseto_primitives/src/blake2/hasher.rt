//! BLAKE2b piece by piece (RFC 7693).

ghost use Rattle.std.specs.Prelude.{◌≡◌, ℕ, ◌≤◌, ◌++◌, List, [], length};

use super::block::{BLOCK_LEN, hash_bytes, initial_hash, zero_padded};
use super::chain::Chain;

/// A BLAKE2b hasher (RFC 7693) that takes the message piece by piece. No call allocates.
#[derive(Drop)]
pub struct Blake2b {
    chain: Chain,
    buffer: [u8; 128],
    // How many bytes of the buffer are held back, since they may be the end of the input.
    held: usize,
    output_len: usize,
    ghost held_in_range: { held ≤ 128 },
    ghost output_in_range: { output_len ≤ 64 },
}

impl Blake2b {
    ghost use Rattle.rusty_paseto_primitives.specs.Blake2.Hasher.{Holds, output_length};
    ghost use Rattle.rusty_paseto_primitives.specs.Blake2.Keyed.{blake2b};

    /// A hasher of the empty message, for an output of `output_len` bytes, 1 to 64, under a key of up
    /// to 64 bytes (RFC 7693 section 2.5). The empty key makes the hash without a key.
    pub fn new(key: &[u8], output_len: usize) -> Blake2b
        requires key_len { length key.now ≤ 64 }
        requires low { 1 ≤ output_len }
        requires high { output_len ≤ 64 }
        ensures message { Holds result key.now output_len [] }
        ensures output_len { output_length result ≡ output_len }
    {
        Blake2b {
            chain: Chain::new(initial_hash(output_len, key.len())),
            buffer: zero_padded(key),
            held: if key.is_empty() { 0 } else { BLOCK_LEN },
            output_len,
        }
    }

    /// Adds `data` to the message.
    pub fn update(&mut self, data: &[u8])
        ensures message { (key : List ℕ) (n : ℕ) (message : List ℕ) → Holds self.old key n message
            → Holds self.new key n (message ++ «data».now) }
        ensures output_len { output_length self.new ≡ output_length self.old }
    {
        let room = BLOCK_LEN - self.held;
        if data.len() <= room {
            let end = self.held + data.len();
            self.buffer[self.held..end].copy_from_slice(data);
            self.held = end;
            return;
        }
        let (head, rest) = data.split_at(room);
        let mut block = self.buffer;
        block[self.held..].copy_from_slice(head);
        self.chain.take_blocks(&block);
        // What comes next is not the last block as long as a byte follows it.
        let (blocks, tail) = rest.split_at((rest.len() - 1) / BLOCK_LEN * BLOCK_LEN);
        self.chain.take_blocks(blocks);
        self.buffer = zero_padded(tail);
        self.held = tail.len();
    }

    /// Writes the hash of the message into `out`, whose length must be the output length that was passed to `new`.
    pub fn finalize_into(self, out: &mut [u8])
        requires { length out.old ≡ output_length self }
        ensures { (key : List ℕ) (n : ℕ) (message : List ℕ) → Holds self key n message
            → out.new ≡ blake2b key n message }
    {
        let block = zero_padded(&self.buffer[..self.held]);
        let bytes = hash_bytes(&self.chain.finish(&block, self.held));
        let length = out.len();
        out.copy_from_slice(&bytes[..length]);
    }
}
