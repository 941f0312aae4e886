//! Writing the whole output.

ghost use Rattle.std.specs.Prelude.{◌≡◌, ℕ, List, IfErr, OnErr, OnOk};
ghost use Rattle.std.specs.Io.KnownBytes.{Appends};
ghost use Rattle.paseto_streams.specs.Output.{IsCutShort};

use crate::error::StreamError;
use std::io::Write;

/// Writes all the bytes. If a write fails or accepts no bytes, this returns `InputOrOutput`, and
/// the writer has a proper prefix of the bytes. This does not allocate.
pub fn write_whole<W: Write>(output: &mut W, bytes: &[u8]) -> Result<(), StreamError>
    ensures whole { OnOk result (Appends (W.contents output.old)
        (W.contents output.new) bytes.now) }
    ensures beginning { OnErr result ((written : List ℕ) × IsCutShort bytes.now written
        × Appends (W.contents output.old) (W.contents output.new) written) }
    ensures failed { IfErr result (λ error. error ≡ StreamError.InputOrOutput) }
{
    let mut rest = bytes;
    'writes: while !rest.is_empty() {
        let count = output.write(rest)?;
        if count == 0 {
            return Err(StreamError::InputOrOutput);
        }
        rest = &rest[count..];
    }
    Ok(())
}
