//! The program, over any input and outputs.

ghost use Rattle.std.specs.Prelude.{◌≡◌, ◌≢◌, ◌≤◌, ◌==◌, ◌↔◌, ◌⊎◌, ℕ, List, IfOk, IfErr, IfSome, IsErr, Err, is_ok, string_bytes};
ghost use Rattle.std.specs.Io.KnownBytes.{Appends};
ghost use Rattle.paseto_tool.specs.Arguments.{words_of, AsksToInspect, IsUsageFault};
ghost use Rattle.std.specs.Io.{StartsWith};
ghost use Rattle.paseto_tool.specs.Error.{line_of, status_of};
ghost use Rattle.paseto_tool.specs.declared.error.ToolError.{ToolError};
ghost use Rattle.paseto_tool.specs.Run.{Prints, PrintsNothing, HasBadKey, IsReason, Writes};

use crate::arguments::Command;
use crate::error::ToolError;
use crate::output::write_whole;
use std::alloc::Global;
use std::io::{Read, Write};

/// Runs the command that the arguments after the program's name give, and returns the status.
///
/// The status is 0 if the whole output was written, 2 if the arguments are not a command of the
/// program, and 1 if something was refused, an allocation failed, or a read or a write failed. If
/// it is not 0, the error's text and a line feed are written to `errors`; if a write fails there, a
/// prefix of them is, and the status stays the same. The checks are, in this order: the arguments
/// (their number, the command, the version), KEY, NONCE, and the input. The input is read whole,
/// except that `inspect` reads none of it. A refusal writes nothing to `output`, and a write that
/// fails leaves a prefix of the output there.
pub fn run<R: Read, W: Write, E: Write>(
    alloc: Global,
    args: &[String],
    input: &mut R,
    output: &mut W,
    errors: &mut E,
) -> u8
    ensures status { result ≤ 2 }
    ensures usage { (result ≡ 2) ↔ IsUsageFault (words_of args.now) }
    ensures written { (written : List ℕ)
        × Appends (W.contents output.old) (W.contents output.new) written
        × IfSome (R.remaining input.old)
        (λ bytes. Writes (words_of args.now) bytes (result == 0) written) }
    ensures refused { IfSome (R.remaining input.old)
        (λ bytes. PrintsNothing (words_of args.now) bytes
        → (result ≢ 0) × (output.new ≡ output.old)) }
    ensures bad_key { HasBadKey (words_of args.now) → result ≡ 1 }
    ensures unread { IsUsageFault (words_of args.now) ⊎ HasBadKey (words_of args.now)
        → (input.new ≡ input.old) × (output.new ≡ output.old) }
    ensures untouched { (token : List ℕ) → AsksToInspect (words_of args.now) token → input.new
        ≡ input.old }
    ensures quiet { result ≡ 0 → errors.new ≡ errors.old }
    ensures said { result ≢ 0 → (error : ToolError) × (status_of error ≡ result) × IfSome
        (R.remaining input.old) (λ bytes. IsReason (words_of args.now) bytes error)
        × ((said : List ℕ) × StartsWith (line_of error) said × Appends (E.contents errors.old)
        (E.contents errors.new) said) }
{
    match print(alloc, args, input, output) {
        Ok(()) => 0,
        Err(error) => {
            error.say(errors);
            error.status()
        }
    }
}

/// Writes the output, which is complete before its first byte is written.
fn print<R: Read, W: Write>(
    alloc: Global,
    args: &[String],
    input: &mut R,
    output: &mut W,
) -> Result<(), ToolError>
    ensures written { (written : List ℕ)
        × Appends (W.contents output.old) (W.contents output.new) written
        × IfSome (R.remaining input.old)
        (λ bytes. Writes (words_of args.now) bytes (is_ok result) written) }
    ensures reason { IfErr result (λ error. IfSome (R.remaining input.old) (λ bytes.
        IsReason (words_of args.now) bytes error)) }
    ensures refused { IfSome (R.remaining input.old)
        (λ bytes. PrintsNothing (words_of args.now) bytes
        → IsErr result × (output.new ≡ output.old)) }
    ensures usage { (result ≡ Err ToolError.Usage) ↔ IsUsageFault (words_of args.now) }
    ensures bad_key { HasBadKey (words_of args.now) → IsErr result }
    ensures unread { IsUsageFault (words_of args.now) ⊎ HasBadKey (words_of args.now)
        → (input.new ≡ input.old) × (output.new ≡ output.old) }
    ensures untouched { (token : List ℕ) → AsksToInspect (words_of args.now) token → input.new
        ≡ input.old }
{
    let made = make(alloc, args, input)?;
    write_whole(output, made.as_str().as_bytes())
}

/// The output for the arguments and the input.
fn make<R: Read>(alloc: Global, args: &[String], input: &mut R) -> Result<String, ToolError>
    ensures printed { IfOk result (λ made. IfSome (R.remaining input.old) (λ bytes.
        Prints (words_of args.now) bytes (string_bytes made))) }
    ensures reason { IfErr result (λ error. IfSome (R.remaining input.old) (λ bytes.
        IsReason (words_of args.now) bytes error)) }
    ensures usage { (result ≡ Err ToolError.Usage) ↔ IsUsageFault (words_of args.now) }
    ensures bad_key { HasBadKey (words_of args.now) → IsErr result }
    ensures unread { IsUsageFault (words_of args.now) ⊎ HasBadKey (words_of args.now)
        → input.new ≡ input.old }
    ensures untouched { (token : List ℕ) → AsksToInspect (words_of args.now) token → input.new
        ≡ input.old }
{
    match Command::parse(args) {
        Some(Command::Inspect(command)) => command.lines(alloc),
        Some(Command::Seal(command)) => command.line(alloc, input),
        Some(Command::Open(command)) => command.text(alloc, input),
        None => Err(ToolError::Usage),
    }
}
