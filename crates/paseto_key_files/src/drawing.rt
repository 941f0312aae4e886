//! Bytes that a generator gives.

ghost use Rattle.std.specs.Prelude.{◌≡◌, IfErr, IfOk, length};
ghost use Rattle.paseto_key_files.specs.Password.{IsDrawFault};

use crate::error::KeyFileError;
use rand_core::TryRng;
use rusty_paseto_parts::Key;
use std::alloc::Global;

/// So many bytes, which the generator gives.
pub(crate) fn drawn<G: TryRng>(
    alloc: Global,
    generator: &mut G,
    count: usize,
) -> Result<Vec<u8>, KeyFileError>
    ensures ok { IfOk result (λ bytes. (length bytes.items ≡ count)
        × G.may_fill generator.old bytes.items generator.new) }
    ensures err { IfErr result (IsDrawFault G.Error) }
{
    let mut bytes = vec![in alloc; 0u8; count]?;
    match generator.try_fill_bytes(&mut bytes) {
        Ok(()) => Ok(bytes),
        Err(_) => Err(KeyFileError::Random),
    }
}

/// A key of so many bytes, which the generator gives.
pub(crate) fn drawn_key<const N: usize, G: TryRng>(
    generator: &mut G,
) -> Result<Key<N>, KeyFileError>
    ensures ok { IfOk result (λ key. G.may_fill generator.old key generator.new) }
    ensures err { IfErr result (λ error. (error ≡ KeyFileError.Random) × G.Error) }
{
    let mut bytes = [0u8; N];
    match generator.try_fill_bytes(&mut bytes) {
        Ok(()) => Ok(Key::from(bytes)),
        Err(_) => Err(KeyFileError::Random),
    }
}
