//! Asks each public call that takes memory, so that `tests/memory.sh` can refuse it: what a call answers
//! then, and what the same object answers after it.
#![tactic(auto)]

mod any_key;
mod builders;
mod claims;
mod defaults;
mod encoding;
mod key_rings;
mod kinds;
mod no_memory;
mod parsers;
mod paserk;
mod passwords;
mod pem;
mod primitives;
mod rsa_key;
mod run;
mod schemes;
mod tokens;
mod validators;
mod wrapping;

use anyhow::{Result, ensure};
use run::Run;
use std::env;

/// How long the text is that the calls are about, where no word says so.
const LENGTH: usize = 100;

/// How long it is at most.
const LONGEST: usize = 1_100_000;

/// `test_memory [CASE [LENGTH]]`. Without a case, or where it is `all`, all cases are asked, with no marks.
fn main(rt: HostRuntime) -> Result<()> {
    let alloc = rt.alloc();
    let words: Vec<String> = env::args(&rt)?.skip(1).collect(alloc)?;
    let (asked, marks) = match words.first() {
        Some(name) if name.as_str() != "all" => (Some(name.as_str()), Some(rt.stdout())),
        _ => (None, None),
    };
    let length = match words.get(1) {
        Some(length) => length.as_str().parse::<usize>()?,
        None => LENGTH,
    };
    ensure!(length <= LONGEST, "the text is too long");
    let text = "a".repeat(alloc, length)?;
    let mut run = Run {
        alloc,
        text: text.as_str(),
        output: rt.stdout(),
        asked,
        marks,
        found: false,
    };
    ask(&mut run)?;
    ensure!(run.found, "no case has this name");
    Ok(())
}

fn ask(run: &mut Run<'_>) -> Result<()> {
    encoding::ask(run)?;
    claims::ask(run)?;
    tokens::ask(run)?;
    builders::ask(run)?;
    parsers::ask(run)?;
    defaults::ask(run)?;
    key_rings::ask(run)?;
    schemes::ask(run)?;
    paserk::ask(run)?;
    passwords::ask(run)?;
    wrapping::ask(run)?;
    pem::ask(run)?;
    any_key::ask(run)?;
    no_memory::ask(run)
}
