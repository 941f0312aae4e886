//! HChaCha20, by which XChaCha20 derives a subkey from a key and the beginning of a nonce.

ghost use Rattle.std.specs.Prelude.{◌≡◌};
ghost use Rattle.rusty_paseto_primitives.specs.ChaCha.Subkey.{hchacha20};

use super::block;
use super::rows::twenty_rounds;

/// HChaCha20: derives a subkey of 32 bytes from a key and 16 bytes of a nonce (draft-irtf-cfrg-xchacha, section 2.2).
pub fn hchacha20(key: &[u8; 32], nonce: &[u8; 16]) -> [u8; 32]
    ensures { result ≡ hchacha20 key.now nonce.now }
{
    let x = twenty_rounds(block::start_of(key, nonce));
    let words = [x[0], x[1], x[2], x[3], x[12], x[13], x[14], x[15]];
    let mut subkey = [0u8; 32];
    block::serialize(&words, &mut subkey);
    subkey
}
