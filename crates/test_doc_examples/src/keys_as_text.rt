//! Of `rusty_paseto_paserk`.

use rusty_paseto_parts::{Local, PasetoSymmetricKey, V4};
use rusty_paseto_paserk::{PaserkError, local_from_paserk, local_id, local_to_paserk};
use std::alloc::Global;

/// Writes a key as a text, `k4.local...`, reads it again, and answers its id, `k4.lid...`.
pub fn write_and_read(
    alloc: Global,
    key: &PasetoSymmetricKey<V4, Local>,
) -> Result<String, PaserkError> {
    let text = local_to_paserk(alloc, key)?;
    let again = local_from_paserk::<V4>(alloc, text.as_str())?;
    local_id(alloc, &again)
}
