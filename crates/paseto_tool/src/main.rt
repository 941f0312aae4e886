//! Inspects, seals and opens PASETO tokens.
#![tactic(auto)]

ghost use Rattle.std.specs.Prelude.{◌≡◌, drop};

mod arguments;
mod error;
mod inspect;
mod local_tokens;
mod open;
mod output;
mod run;
mod seal;
mod version;

use error::ToolError;
use run::run;
use std::env;
use std::process::ExitCode;

fn main(rt: HostRuntime) -> ExitCode {
    let mut errors = rt.stderr();
    match words(&rt) {
        Ok(words) => {
            let (mut input, mut output) = (rt.stdin(), rt.stdout());
            let status = run(rt.alloc(), &words, &mut input, &mut output, &mut errors);
            ExitCode::from(status)
        }
        Err(error) => {
            error.say(&mut errors);
            ExitCode::from(error.status())
        }
    }
}

/// The arguments after the program's name.
fn words(rt: &HostRuntime) -> Result<Vec<String>, ToolError> {
    match env::args(rt) {
        Ok(words) => Ok(after_name(words.collect(rt.alloc())?)),
        Err(error) => Err(ToolError::of_words(&error)),
    }
}

/// The arguments without the first, which is the program's name.
fn after_name(words: Vec<String>) -> Vec<String>
    ensures { result.items ≡ drop 1 words.items }
{
    let mut words = words;
    if !words.is_empty() {
        drop(words.remove(0));
    }
    words
}
