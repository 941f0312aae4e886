//! Laws about the definitions that the contracts of this crate use. A call of one does nothing.

ghost use Rattle.std.specs.Prelude.{◌≡◌};
ghost use Rattle.rusty_paseto_primitives.specs.Keystream.{xored};
ghost use Rattle.rusty_paseto_primitives.specs.Aes.Counter.{aes256_ctr_stream};
ghost use Rattle.rusty_paseto_primitives.specs.ChaCha.Stream.{xchacha20_stream};

/// Applying the keystream of XChaCha20 twice, with the same key and nonce, gives the original data.
pub fn xchacha20_twice(key: &[u8; 32], nonce: &[u8; 24], data: &[u8])
    ensures { let stream = xchacha20_stream key.now nonce.now in xored stream
        (xored stream «data».now) ≡ «data».now }
{}

/// Applying the keystream of AES with a key of 256 bits in counter mode twice, from the same counter block on, gives
/// the original data.
pub fn aes256_ctr_twice(key: &[u8; 32], counter: &[u8; 16], data: &[u8])
    ensures { let stream = aes256_ctr_stream key.now counter.now in xored stream
        (xored stream «data».now) ≡ «data».now }
{}
