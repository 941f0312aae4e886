//! Writing the whole output.

ghost use Rattle.std.specs.Prelude.{◌≡◌, ℕ, List, IfErr, OnErr, OnOk};
ghost use Rattle.std.specs.Io.KnownBytes.{Appends};
ghost use Rattle.paseto_streams.specs.Output.{IsCutShort};

use crate::error::ToolError;
use std::io::Write;

/// Writes all the bytes. If a write fails or accepts no bytes, this returns `InputOrOutput`, and
/// the writer has a proper prefix of the bytes.
pub fn write_whole<W: Write>(output: &mut W, bytes: &[u8]) -> Result<(), ToolError>
    ensures whole { OnOk result (Appends (W.contents output.old)
        (W.contents output.new) bytes.now) }
    ensures beginning { OnErr result ((written : List ℕ) × IsCutShort bytes.now written
        × Appends (W.contents output.old) (W.contents output.new) written) }
    ensures failed { IfErr result (λ error. error ≡ ToolError.InputOrOutput) }
{
    match paseto_streams::write_whole(output, bytes) {
        Ok(()) => Ok(()),
        Err(_) => Err(ToolError::InputOrOutput),
    }
}
