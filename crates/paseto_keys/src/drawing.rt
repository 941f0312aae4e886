//! Random bytes for a token.

ghost use Rattle.std.specs.Prelude.{◌≡◌, IfErr, IfOk};
ghost use Rattle.paseto_keys.specs.Drawing.{IsDraw, IsDrawFault};

use crate::error::KeyError;
use rand_core::TryRng;
use std::alloc::Global;

/// So many bytes from the generator, which is not called for none.
pub(crate) fn drawn<G: TryRng>(
    alloc: Global,
    generator: &mut G,
    count: usize,
) -> Result<Vec<u8>, KeyError>
    ensures ok { IfOk result (λ bytes. IsDraw count
        (λ given. G.may_fill generator.old given generator.new)
        (generator.new ≡ generator.old) bytes.items) }
    ensures err { IfErr result (IsDrawFault G.Error count) }
{
    let mut bytes = vec![in alloc; 0u8; count]?;
    if count == 0 {
        return Ok(bytes);
    }
    match generator.try_fill_bytes(&mut bytes) {
        Ok(()) => Ok(bytes),
        Err(_) => Err(KeyError::Random),
    }
}
