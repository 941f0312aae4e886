//! The fields of a row.

ghost use Rattle.std.specs.Prelude.{◌≡◌, ◌↔◌, Ok, IfOk, IsOk};
ghost use Rattle.std.specs.String.{string_bytes};
ghost use Rattle.hex.specs.Hex.{decode_of};
ghost use Rattle.test_rows.specs.Fields.{Says};

use crate::error::RowError;
use hex::FromHex;
use std::alloc::Global;

/// The bytes of a field: none for `-`, or else those of its hexadecimal digits.
pub fn bytes_of(alloc: Global, field: &str) -> Result<Vec<u8>, RowError>
    ensures { IfOk result (λ bytes. Says field.now bytes.items) }
{
    if field == "-" {
        return Ok(Vec::new(alloc));
    }
    Ok(hex::decode(alloc, field)?)
}

/// The `N` bytes of a field of `2 * N` hexadecimal digits.
pub fn array_of<const N: usize>(field: &str) -> Result<[u8; N], RowError>
    ensures { IfOk result (λ bytes. decode_of field.now ≡ Ok bytes) }
{
    Ok(<[u8; N] as FromHex>::from_hex(field)?)
}

/// The text of a field, whose bytes are written as those of `bytes_of`.
pub fn text_of(alloc: Global, field: &str) -> Result<String, RowError>
    ensures { IfOk result (λ text. Says field.now (string_bytes text)) }
{
    match String::from_utf8(bytes_of(alloc, field)?) {
        Ok(text) => Ok(text),
        Err(_) => Err(RowError::Utf8),
    }
}

/// Agrees where the answer is the expected one.
pub fn compare(answer: &[u8], expected: &[u8]) -> Result<(), RowError>
    ensures { IsOk result ↔ (answer.now ≡ expected.now) }
{
    if answer != expected {
        return Err(RowError::Differs);
    }
    Ok(())
}
