//! The program, over any key, generator, input and outputs.

ghost use Rattle.std.specs.Prelude.{◌≡◌, ◌≢◌, ◌⊎◌, ℕ, List, IfOk, IfErr, IsErrAnd, OnErr, OnOk, string_bytes};
ghost use Rattle.std.specs.Io.KnownBytes.{Appends};
ghost use Rattle.paseto_keys.specs.AnyKey.{parts_of};
ghost use Rattle.paseto_tasks.specs.Error.{Fails, IsCauseOf, nothing, status_of};
ghost use Rattle.paseto_tasks.specs.Explain.{Explains, RefusesExplaining, TellsForged, TellsIssued};
ghost use Rattle.paseto_tasks.specs.Half.{HasHalf, HasNoHalf};
ghost use Rattle.paseto_tasks.specs.Id.{HasId, HasNoId};
ghost use Rattle.paseto_tasks.specs.Input.{IsNoText, OfInput, inspected_text, reading, token_of_input};
ghost use Rattle.paseto_tasks.specs.Inspect.{Inspects, RefusesInspecting};
ghost use Rattle.paseto_tasks.specs.Output.{IsLeftOf, IsTextOf, Makes};
ghost use Rattle.paseto_tasks.specs.Run.{Ends, FailsOf, IsRefusal, Leaves, PrintsOf, RefusesOf, Tells, Told, forged_status};
ghost use Rattle.paseto_tasks.specs.Tokens.{Fits, RefusesKey, drawn_by, type_for};

use crate::arguments::{Options, Task};
use crate::error::{Names, ProgramError};
use crate::explain::{Explanation, explain};
use crate::half::public;
use crate::id::id;
use crate::input::{read_inspected, read_token};
use crate::inspect::inspect;
use crate::output::write_whole;
use crate::tokens::{fits, read, write};
use paseto_keys::AnyKey;
use rand_core::TryRng;
use rusty_paseto_paserk::PaserkType;
use std::alloc::Global;
use std::io::{Read, Write};

/// Does a task with a key, and returns the status.
///
/// The status is 0 if the whole output was written, 1 if the text or the token was refused, 3 if the key
/// was, and 4 if an allocation failed, the generator failed, or a read or a write failed. If it is not 0, the error's text and a line feed are written to `errors`; if a write fails there, a
/// prefix of them is, and the status stays the same. The text contains nothing of the key or the
/// input. A refusal writes nothing to `output`, and a write that fails leaves a prefix of the
/// output there. A key that is refused is refused before the input is read.
pub fn run<G: TryRng, R: Read, W: Write, E: Write>(
    alloc: Global,
    task: Task,
    options: &Options<'_>,
    names: &Names<'_>,
    key: &AnyKey,
    generator: &mut G,
    input: &mut R,
    output: &mut W,
    errors: &mut E,
) -> u8
    ensures no_usage { result ≢ 2 }
    ensures output { let IsDrawn = drawn_by (λ given. G.may_fill generator.old given generator.new)
        (generator.new ≡ generator.old) in Leaves W.contents (PrintsOf task options.now IsDrawn (parts_of key.now) (R.remaining input.old))
        (IsRefusal (RefusesOf task options.now IsDrawn (parts_of key.now) (R.remaining input.old)) result)
        result output.old output.new }
    ensures errors { let IsDrawn = drawn_by (λ given. G.may_fill generator.old given generator.new)
        (generator.new ≡ generator.old) in Tells E.contents names.now
        (Ends (PrintsOf task options.now IsDrawn (parts_of key.now) (R.remaining input.old))
        (RefusesOf task options.now IsDrawn (parts_of key.now) (R.remaining input.old))
        (FailsOf task options.now G.Error (parts_of key.now))) result errors.old errors.new }
{
    let made = make(alloc, task, options, key, generator, input);
    finish(made, names, output, errors)
}

/// The output of a task.
fn make<G: TryRng, R: Read>(
    alloc: Global,
    task: Task,
    options: &Options<'_>,
    key: &AnyKey,
    generator: &mut G,
    input: &mut R,
) -> Result<String, ProgramError>
    ensures { let IsDrawn = drawn_by (λ given. G.may_fill generator.old given generator.new)
        (generator.new ≡ generator.old) in Makes (PrintsOf task options.now IsDrawn (parts_of key.now) (R.remaining input.old))
        (RefusesOf task options.now IsDrawn (parts_of key.now) (R.remaining input.old))
        (FailsOf task options.now G.Error (parts_of key.now)) result }
{
    suits(key, task, options)?;
    match task {
        Task::Encrypt | Task::Sign => write(alloc, key, options, generator, input),
        Task::Decrypt | Task::Verify => read(alloc, key, options, input),
    }
}

/// Refuses a key that does not fit a task: one of another type, and one whose version does not take the
/// assertion.
pub fn suits(key: &AnyKey, task: Task, options: &Options<'_>) -> Result<(), ProgramError>
    ensures fits { OnOk result (Fits (type_for task) options.now (parts_of key.now)) }
    ensures refused { IfErr result (RefusesKey (type_for task) options.now (parts_of key.now)) }
{
    fits(key, type_for(task), options)
}

/// The type of the keys that a task takes.
fn type_for(task: Task) -> PaserkType
    ensures { result ≡ type_for task }
{
    match task {
        Task::Encrypt | Task::Decrypt => PaserkType::Local,
        Task::Sign => PaserkType::Secret,
        Task::Verify => PaserkType::Public,
    }
}

/// Prints what a token says about itself, and returns the status, as `run` does.
pub fn run_inspect<R: Read, W: Write, E: Write>(
    alloc: Global,
    names: &Names<'_>,
    input: &mut R,
    output: &mut W,
    errors: &mut E,
) -> u8
    ensures no_usage { result ≢ 2 }
    ensures output { Leaves W.contents
        (λ lines. OfInput (R.remaining input.old) (λ bytes. Inspects (inspected_text bytes) lines))
        (IsRefusal (λ error. OfInput (R.remaining input.old)
        (λ bytes. RefusesInspecting bytes error)) result)
        result output.old output.new }
    ensures errors { Tells E.contents names.now (Ends
        (λ lines. OfInput (R.remaining input.old) (λ bytes. Inspects (inspected_text bytes) lines))
        (λ error. OfInput (R.remaining input.old) (λ bytes. RefusesInspecting bytes error))
        (Fails reading)) result errors.old errors.new }
{
    finish(inspected(alloc, input), names, output, errors)
}

/// What the token in the input says about itself.
fn inspected<R: Read>(alloc: Global, input: &mut R) -> Result<String, ProgramError>
    ensures { Makes
        (λ lines. OfInput (R.remaining input.old) (λ bytes. Inspects (inspected_text bytes) lines))
        (λ error. OfInput (R.remaining input.old) (λ bytes. RefusesInspecting bytes error))
        (Fails reading) result }
{
    let text = read_inspected(alloc, input)?;
    inspect(alloc, text.as_str())
}

/// Prints which issued token a token is, or that it is a forgery, and returns the status: 0 where it was issued, 1 where it
/// is a forgery, and else that of the error, as `run` does.
pub fn run_explain<R: Read, W: Write, E: Write>(
    alloc: Global,
    names: &Names<'_>,
    key: &AnyKey,
    options: &Options<'_>,
    issued: &str,
    input: &mut R,
    output: &mut W,
    errors: &mut E,
) -> u8
    ensures no_usage { result ≢ 2 }
    ensures told { Told W.contents E.contents names.now
        (λ lines. OfInput (R.remaining input.old) (λ bytes.
        TellsIssued (parts_of key.now) options.now issued.now (token_of_input bytes) lines))
        (λ lines. OfInput (R.remaining input.old) (λ bytes.
        TellsForged (parts_of key.now) options.now issued.now (token_of_input bytes) lines))
        (λ error. OfInput (R.remaining input.old) (λ bytes.
        RefusesExplaining (parts_of key.now) options.now bytes error))
        (Fails reading) result output.old output.new errors.old errors.new }
{
    match explained(alloc, key, options, issued, input) {
        Ok(Explanation::Issued(lines)) => finish(Ok(lines), names, output, errors),
        Ok(Explanation::Forged(lines)) => {
            forged_status(finish(Ok(lines), names, output, errors))
        }
        Err(error) => finish(Err(error), names, output, errors),
    }
}

/// The status of a forgery, from the status with which it was written.
fn forged_status(written: u8) -> u8
    ensures status { result ≡ forged_status written }
    ensures no_usage { written ≢ 2 → result ≢ 2 }
{
    if written == 0 { 1 } else { written }
}

/// What the token in the input is.
fn explained<R: Read>(
    alloc: Global,
    key: &AnyKey,
    options: &Options<'_>,
    issued: &str,
    input: &mut R,
) -> Result<Explanation, ProgramError>
    ensures told { IfOk result (λ told. OfInput (R.remaining input.old)
        (λ bytes. Explains (parts_of key.now) options.now issued.now (token_of_input bytes) told)) }
    ensures refused { IfErr result (λ error. OfInput (R.remaining input.old)
        (λ bytes. RefusesExplaining (parts_of key.now) options.now bytes error)
        ⊎ Fails reading error) }
{
    let token = read_token(alloc, input)?;
    explain(alloc, key, options, issued, token.as_str())
}

/// Prints the id of a key, and returns the status, as `run` does.
pub fn run_id<W: Write, E: Write>(
    alloc: Global,
    names: &Names<'_>,
    key: &AnyKey,
    output: &mut W,
    errors: &mut E,
) -> u8
    ensures no_usage { result ≢ 2 }
    ensures output { Leaves W.contents (HasId (parts_of key.now))
        (IsRefusal (HasNoId (parts_of key.now)) result) result output.old output.new }
    ensures errors { Tells E.contents names.now
        (Ends (HasId (parts_of key.now)) (HasNoId (parts_of key.now)) (Fails nothing))
        result errors.old errors.new }
{
    finish(id(alloc, key), names, output, errors)
}

/// Prints the public half of a private key, and returns the status, as `run` does.
pub fn run_public<W: Write, E: Write>(
    alloc: Global,
    names: &Names<'_>,
    key: &AnyKey,
    output: &mut W,
    errors: &mut E,
) -> u8
    ensures no_usage { result ≢ 2 }
    ensures output { Leaves W.contents (HasHalf (parts_of key.now))
        (IsRefusal (HasNoHalf (parts_of key.now)) result) result output.old output.new }
    ensures errors { Tells E.contents names.now
        (Ends (HasHalf (parts_of key.now)) (HasNoHalf (parts_of key.now)) (Fails nothing))
        result errors.old errors.new }
{
    finish(public(alloc, key), names, output, errors)
}

/// Writes the result, or reports the error, and returns the status, as `run` does.
pub fn finish<W: Write, E: Write>(
    made: Result<String, ProgramError>,
    names: &Names<'_>,
    output: &mut W,
    errors: &mut E,
) -> u8
    ensures output { Leaves W.contents (IsTextOf made)
        (IsErrAnd made (λ error. status_of error ≡ result)) result output.old output.new }
    ensures errors { Tells E.contents names.now (IsCauseOf made) result errors.old errors.new }
{
    match written(made, output) {
        Ok(()) => 0,
        Err(error) => {
            error.say(names, errors);
            error.status()
        }
    }
}

/// Writes the result.
fn written<W: Write>(made: Result<String, ProgramError>, output: &mut W) -> Result<(), ProgramError>
    ensures whole { OnOk result ((whole : List ℕ)
        × Appends (W.contents output.old) (W.contents output.new) whole × IsTextOf made whole) }
    ensures cut { OnErr result ((left : List ℕ)
        × Appends (W.contents output.old) (W.contents output.new) left
        × IsLeftOf (IsTextOf made) left) }
    ensures refused { IfErr result (λ error. (status_of error ≡ 4)
        ⊎ ((output.new ≡ output.old) × IsErrAnd made (λ cause. cause ≡ error))) }
    ensures cause { IfErr result (λ error. IsCauseOf made error) }
{
    write_whole(output, made?.as_str().as_bytes())
}
