//! What a ring returns for what its key opened.

ghost use Rattle.rusty_paseto.specs.KeyRing.{IsOpenedUnder};

use crate::error::KeyRingError;
use rusty_paseto_core::PasetoError;

/// The id with the text that was opened or verified under its key, or why it was not.
pub(super) fn answer(
    id: String,
    opened: Result<String, PasetoError>,
) -> Result<(String, String), KeyRingError>
    ensures { IsOpenedUnder id opened result }
{
    match opened {
        Ok(text) => Ok((id, text)),
        Err(PasetoError::Memory(refused)) => Err(KeyRingError::Memory(refused)),
        Err(source) => Err(KeyRingError::Token(source)),
    }
}
