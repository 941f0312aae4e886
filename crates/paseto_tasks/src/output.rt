//! The output: its line, and writing the whole of it.

ghost use Rattle.std.specs.Prelude.{◌≡◌, ℕ, List, IfErr, IfOk, OnErr, OnOk, string_bytes};
ghost use Rattle.std.specs.Io.KnownBytes.{Appends};
ghost use Rattle.paseto_tasks.specs.Error.{IsMemory, IsOutside, IsPlain};
ghost use Rattle.paseto_tasks.specs.Output.{IsLineOf};
ghost use Rattle.paseto_streams.specs.Output.{IsCutShort};

use crate::error::{ProgramError, SystemError};
use std::io::Write;

/// Writes all the bytes. If a write fails or accepts no bytes, this returns `InputOrOutput`, and
/// the writer has a proper prefix of the bytes.
pub fn write_whole<W: Write>(output: &mut W, bytes: &[u8]) -> Result<(), ProgramError>
    ensures whole { OnOk result (Appends (W.contents output.old)
        (W.contents output.new) bytes.now) }
    ensures beginning { OnErr result ((written : List ℕ) × IsCutShort bytes.now written
        × Appends (W.contents output.old) (W.contents output.new) written) }
    ensures failed { IfErr result (λ error. error ≡ ProgramError.System SystemError.InputOrOutput) }
{
    match paseto_streams::write_whole(output, bytes) {
        Ok(()) => Ok(()),
        Err(_) => Err(ProgramError::System(SystemError::InputOrOutput)),
    }
}

/// A text and a line feed.
pub fn with_line_feed(text: String) -> Result<String, ProgramError>
    ensures line { IfOk result (λ line. IsLineOf (string_bytes text) (string_bytes line)) }
    ensures memory { IfErr result IsOutside }
    ensures only_memory { IfErr result IsMemory }
    ensures plain { IfErr result IsPlain }
{
    let mut line = text;
    line.push('\n')?;
    Ok(line)
}
