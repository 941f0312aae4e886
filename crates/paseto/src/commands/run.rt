//! The commands on claims, over any generator, input and outputs.

ghost use Rattle.std.specs.Prelude.{◌≡◌, IfErr, IfOk};
ghost use Rattle.paseto_keys.specs.AnyKey.{parts_of};
ghost use Rattle.paseto_keys.specs.Drawing.{IsDraw};
ghost use Rattle.paseto_tasks.specs.Arguments.{texts};
ghost use Rattle.paseto_tasks.specs.Error.{Fails};
ghost use Rattle.paseto_tasks.specs.Input.{OfInput, reading, token_of_input};
ghost use Rattle.paseto_tasks.specs.Output.{Makes};
ghost use Rattle.paseto.specs.Checked.{ChecksFor, RefusesCheck};
ghost use Rattle.paseto.specs.Each.{ChecksAllFor, ChecksEach, StopsFor};
ghost use Rattle.paseto.specs.Issue.{IssuesFor, RefusesIssue, draws, issuing};
ghost use Rattle.paseto.specs.Run.{ChecksToken, IssuesToken};

use crate::commands::check::{Demands, Keys, admitted_by, line_of};
use crate::commands::each::{LineChecker, ready};
use crate::commands::issue::{Order, issue};
use crate::files::name_of;
use crate::keys::key_name;
use crate::options::{check_options, issue_options};
use jiff::Timestamp;
use paseto_keys::AnyKey;
use paseto_tasks::run::finish;
use paseto_tasks::{Names, Options, ProgramError, read_token};
use paseto_words::{Check, Issue};
use rand_core::TryRng;
use std::alloc::Global;
use std::io::{Read, Write};

/// Prints the requested token of claims, and returns the status, as `run` does. The status is 2 only
/// if nothing can be ordered by the arguments.
pub fn run_issue<G: TryRng, W: Write, E: Write>(
    alloc: Global,
    words: &Issue<'_>,
    key: &AnyKey,
    now: Timestamp,
    generator: &mut G,
    output: &mut W,
    errors: &mut E,
) -> u8
    ensures { IssuesToken words.now (parts_of key.now) now
        (λ given. G.may_fill generator.old given generator.new) (generator.new ≡ generator.old)
        G.Error W.contents E.contents result output.old output.new errors.old errors.new }
{
    let names = Names {
        key: key_name(words.key.file),
        input: "",
    };
    let made = token_of(
        alloc,
        &words.claims,
        &issue_options(words),
        key,
        now,
        generator,
    );
    finish(made, &names, output, errors)
}

/// The line of the requested token of claims.
fn token_of<G: TryRng>(
    alloc: Global,
    claims: &[&str],
    options: &Options<'_>,
    key: &AnyKey,
    now: Timestamp,
    generator: &mut G,
) -> Result<String, ProgramError>
    ensures { Makes (IssuesFor (texts claims.now) options.now now (parts_of key.now)
        (IsDraw (draws (parts_of key.now)) (λ given. G.may_fill generator.old given generator.new)
        (generator.new ≡ generator.old)))
        (RefusesIssue (texts claims.now) options.now now (parts_of key.now))
        (Fails (issuing (parts_of key.now) G.Error now)) result }
{
    let order = Order::parse(alloc, claims, options, now)?;
    issue(alloc, key, &order, generator)
}

/// Prints the claims of a token, and returns the status, as `run` does. The status is 2 only if nothing
/// can be demanded by the arguments.
pub fn run_check<R: Read, W: Write, E: Write>(
    alloc: Global,
    words: &Check<'_>,
    name: &str,
    keys: &Keys,
    now: Timestamp,
    input: &mut R,
    output: &mut W,
    errors: &mut E,
) -> u8
    ensures { ChecksToken words.now name.now keys.now now (R.remaining input.old) W.contents
        E.contents result output.old output.new errors.old errors.new }
{
    let names = Names {
        key: name,
        input: name_of(words.input),
    };
    let made = claims_line(
        alloc,
        &words.claims,
        &check_options(words),
        keys,
        now,
        input,
    );
    finish(made, &names, output, errors)
}

/// The line of the claims of a token.
fn claims_line<R: Read>(
    alloc: Global,
    claims: &[&str],
    options: &Options<'_>,
    keys: &Keys,
    now: Timestamp,
    input: &mut R,
) -> Result<String, ProgramError>
    ensures { Makes (λ line. OfInput (R.remaining input.old) (λ bytes. ChecksFor (texts claims.now)
        options.now now keys.now (token_of_input bytes) line))
        (RefusesCheck (texts claims.now) options.now now keys.now (R.remaining input.old))
        (Fails reading) result }
{
    let demands = Demands::parse(alloc, claims, options, now)?;
    let token = read_token(alloc, input)?;
    line_of(alloc, admitted_by(alloc, keys, &demands, token.as_str()))
}

/// Prints a row for the token of each line of an input, of which none has more bytes than that, and returns the status: 0 where
/// all were admitted, 1 where not, and else that of the error, as `run` does.
pub fn run_each<R: Read, W: Write, E: Write>(
    alloc: Global,
    words: &Check<'_>,
    name: &str,
    keys: &Keys,
    longest: usize,
    now: Timestamp,
    input: &mut R,
    output: &mut W,
    errors: &mut E,
) -> u8
    ensures { ChecksEach words.now name.now keys.now longest now (R.remaining input.old) W.contents
        E.contents result output.old output.new errors.old errors.new }
{
    let names = Names {
        key: name,
        input: name_of(words.input),
    };
    match each(
        alloc,
        &words.claims,
        &check_options(words),
        keys,
        longest,
        now,
        input,
        output,
    ) {
        Ok(all) => if all { 0 } else { 1 },
        Err(error) => {
            error.say(&names, errors);
            error.status()
        }
    }
}

/// Writes a row for the token of each line, and returns whether all were admitted.
fn each<R: Read, W: Write>(
    alloc: Global,
    claims: &[&str],
    options: &Options<'_>,
    keys: &Keys,
    longest: usize,
    now: Timestamp,
    input: &mut R,
    output: &mut W,
) -> Result<bool, ProgramError>
    ensures all { IfOk result (ChecksAllFor (texts claims.now) options.now now keys.now longest
        (R.remaining input.old) (W.contents output.old) (W.contents output.new)) }
    ensures stops { IfErr result (StopsFor (texts claims.now) options.now now keys.now longest
        (R.remaining input.old) (W.contents output.old) (W.contents output.new)
        (output.new ≡ output.old)) }
{
    let demands = Demands::parse(alloc, claims, options, now)?;
    ready(keys, &demands)?;
    let checker = LineChecker {
        alloc,
        keys,
        demands: &demands,
        longest,
    };
    checker.check(input, output)
}
