//! The hash value of BLAKE2b over whole blocks, none of which is the last (RFC 7693, section 3.3).

ghost use Rattle.std.specs.Prelude.{◌≡◌, ℕ, ◌+◌, ◌*◌, ◌/◌, ◌%◌, ◌^◌, true, List, length, take, drop};
ghost use Rattle.rusty_paseto_primitives.specs.Blake2.Block.{compress};
ghost use Rattle.rusty_paseto_primitives.specs.Blake2.Chain.{IsTaken};

use super::block::{BLOCK_LEN, compress};

// The hash value after some blocks of the input, none of which is the last.
#[derive(Drop)]
pub(super) struct Chain {
    hash: [u64; 8],
    // How many bytes the blocks have, modulo 2^128, as the offset of a block is counted.
    count: u128,
}

impl Chain {
    // The chain of no blocks yet, from the first hash value.
    pub(super) fn new(hash: [u64; 8]) -> Chain
        ensures { (input : List ℕ) → IsTaken hash result input 0 }
    {
        Chain { hash, count: 0 }
    }

    // Takes in the next blocks of the input, which are whole and do not end it.
    pub(super) fn take_blocks(&mut self, blocks: &[u8])
        requires { length blocks.now % 128 ≡ 0 }
        ensures { (first input : List ℕ) (n : ℕ) → IsTaken first self.old input n
            → blocks.now ≡ take (length blocks.now) (drop (n * 128) input)
            → IsTaken first self.new input (n + length blocks.now / 128) }
    {
        'next: for k in 0..blocks.len() / BLOCK_LEN {
            let at = BLOCK_LEN * k;
            self.count = self.count.wrapping_add(128);
            compress(
                &mut self.hash,
                &blocks[at..at + BLOCK_LEN],
                self.count,
                false,
            );
        }
    }

    // The hash value after the last block, `held` of whose bytes are the input's.
    pub(super) fn finish(mut self, block: &[u8], held: usize) -> [u64; 8]
        requires { length block.now ≡ 128 }
        ensures { result ≡ compress self.hash block.now ((self.count + held) % 2 ^ 128) true }
    {
        let offset = self.count.wrapping_add(held as u128);
        compress(&mut self.hash, block, offset, true);
        self.hash
    }
}
