//! The block cipher AES with a key of 256 bits (FIPS 197, section 5.1).

ghost use Rattle.std.specs.Prelude.{◌≡◌, ℕ, ◌<◌, List};
ghost use Rattle.rusty_paseto_primitives.specs.Aes.Cipher.{IsKeyed, aes256};
ghost use Rattle.rusty_paseto_primitives.specs.Aes.KeySchedule.{round_key};
ghost use Rattle.rusty_paseto_primitives.specs.Aes.State.{add_round_key};

use crate::aes::key_schedule::key_expansion;
use crate::aes::state;

/// AES with a key of 32 bytes, with the key schedule computed once for all blocks.
#[derive(Drop)]
pub struct Aes256 {
    // The round keys of rounds 0 to 14, 16 bytes each.
    schedule: [u8; 240],
}

impl Aes256 {
    /// The cipher for a key (FIPS 197, section 5.2).
    pub fn new(key: &[u8; 32]) -> Aes256
        ensures { IsKeyed result key.now }
    {
        Aes256 {
            schedule: key_expansion(key),
        }
    }

    /// The encryption of the block of 16 bytes (FIPS 197, section 5.1).
    pub fn encrypt_block(&self, block: &[u8; 16]) -> [u8; 16]
        ensures { (key : List ℕ) → IsKeyed self.now key → result ≡ aes256 key block.now }
    {
        let mut state = self.with_round_key(*block, 0);
        'rounds: for round in 1..14usize {
            let mixed = state::mix_columns(state::shift_rows(state::sub_bytes(state)));
            state = self.with_round_key(mixed, round);
        }
        self.with_round_key(state::shift_rows(state::sub_bytes(state)), 14)
    }

    #[inline(always)]
    fn with_round_key(&self, s: [u8; 16], round: usize) -> [u8; 16]
        requires { round < 15 }
        ensures { result ≡ add_round_key s (round_key self.now.schedule round) }
    {
        state::add_round_key(s, &self.schedule[16 * round..16 * round + 16])
    }
}
