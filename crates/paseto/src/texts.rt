//! The commands `encrypt`, `decrypt`, `sign` and `verify`.

ghost use Rattle.std.specs.Prelude.{◌≡◌};
ghost use Rattle.paseto_keys.specs.AnyKey.{parts_of};
ghost use Rattle.paseto.specs.Texts.{DoesTask};

use crate::commands::answers::ring_error;
use crate::fault::Fault;
use crate::files::{input_file, input_of, name_of, once};
use crate::folder::{Folder, folder_of};
use crate::keys::{Held, key_name, key_of};
use crate::named::named_in;
use crate::new_file::{free, put_secret};
use crate::options::{longest_of, text_options};
use crate::warning::line_of_text;
use jiff::Timestamp;
use paseto_keys::AnyKey;
use paseto_tasks::run::{run, suits};
use paseto_tasks::{Names, ProgramError, Task, read_token};
use paseto_words::{KeyFile, Keyed};
use rand::rngs::SysRng;
use rand_core::TryRng;
use rusty_paseto::KeyRingError;
use std::alloc::Global;
use std::io::{Read, Write};
use std::str;

/// Does a task with the key that the arguments name: in a file, on standard input or in the
/// environment.
pub fn keyed<'a>(rt: &HostRuntime, task: Task, words: &Keyed<'a>) -> Result<u8, Fault<'a>> {
    let openers = words.key.openers;
    once(&[
        words.key.file,
        openers.password,
        openers.key,
        input_file(words.input),
    ])?;
    let longest = longest_of(words.longest)?;
    free(rt, words.out)?;
    if let Some(folder) = words.ring {
        return by_ring(rt, task, words, folder, longest);
    }
    let key = key_of(rt, &words.key)?;
    if let Err(error) = suits(&key, task, &text_options(words.footer, words.assertion)) {
        return Err(Fault::about(key_name(words.key.file), error));
    }
    let input = input_of(rt, words.input, longest)?;
    let mut made = Vec::new(rt.alloc());
    let status = make(rt, task, words, &key, &input, &mut made);
    put(rt, task, words, status, &made)
}

/// Does a task with the key of a folder that the footer of the token names, and under that footer if
/// none is given. If it names none of them, a key file that cannot be used is at fault.
fn by_ring<'a>(
    rt: &HostRuntime,
    task: Task,
    words: &Keyed<'a>,
    path: &'a str,
    longest: usize,
) -> Result<u8, Fault<'a>> {
    let Folder { keys, broken } = folder_of(rt, path, &Held::of(rt, &words.key.openers)?)?;
    let input = input_of(rt, words.input, longest)?;
    let token = match read_token(rt.alloc(), &mut input.as_slice()) {
        Ok(token) => token,
        Err(error) => return Err(Fault::about(name_of(words.input), error)),
    };
    let (footer, key) = match (named_in(rt.alloc(), &keys, token.as_str()), &broken) {
        (Ok(found), _) => found,
        (Err(KeyRingError::UnknownKey(_)), Some(broken)) => return Ok(broken.report(rt)),
        (Err(source), _) => {
            let error = ring_error(rt.alloc(), source);
            return Err(Fault::about(name_of(words.input), error));
        }
    };
    let named = Keyed {
        key: KeyFile {
            file: Some(path),
            openers: words.key.openers,
        },
        footer: Some(words.footer.unwrap_or(footer.as_str())),
        ..*words
    };
    let mut made = Vec::new(rt.alloc());
    let status = make(rt, task, &named, key, &input, &mut made);
    put(rt, task, words, status, &made)
}

fn make(
    rt: &HostRuntime,
    task: Task,
    words: &Keyed<'_>,
    key: &AnyKey,
    input: &[u8],
    made: &mut Vec<u8>,
) -> u8 {
    let mut input = input;
    done(
        rt.alloc(),
        task,
        words,
        key,
        &mut SysRng::new(rt),
        &mut input,
        made,
        &mut rt.stderr(),
    )
}

/// Writes what was made to a new file or to standard output, if the status is 0, and returns the status.
fn put<'a>(
    rt: &HostRuntime,
    task: Task,
    words: &Keyed<'a>,
    status: u8,
    made: &[u8],
) -> Result<u8, Fault<'a>> {
    if status == 0 {
        if matches!(task, Task::Decrypt | Task::Verify) {
            warn_of_times(rt, name_of(words.input), made)?;
        }
        put_secret(rt, words.out, made)?;
    }
    Ok(status)
}

/// Warns if a text is an object of claims that has expired, or that may not be used yet.
fn warn_of_times(rt: &HostRuntime, name: &str, text: &[u8]) -> Result<(), ProgramError> {
    let (Ok(text), Ok(now)) = (str::from_utf8(text), Timestamp::now(rt)) else {
        return Ok(());
    };
    if let Some(line) = line_of_text(rt.alloc(), text, now)? {
        let line = format!(in rt.alloc();
            "paseto: {name}: warning: {line}: only paseto check refuses that"
        )?;
        rt.eprintln(&line)?;
    }
    Ok(())
}

/// Does a task with the footer and the implicit assertion of the arguments, and returns the status.
fn done<G: TryRng, R: Read, W: Write, E: Write>(
    alloc: Global,
    task: Task,
    words: &Keyed<'_>,
    key: &AnyKey,
    generator: &mut G,
    input: &mut R,
    output: &mut W,
    errors: &mut E,
) -> u8
    ensures { DoesTask task words.now (parts_of key.now)
        (λ given. G.may_fill generator.old given generator.new) (generator.new ≡ generator.old)
        G.Error (R.remaining input.old) W.contents E.contents result output.old output.new
        errors.old errors.new }
{
    let names = Names {
        key: key_name(words.key.file),
        input: name_of(words.input),
    };
    let options = text_options(words.footer, words.assertion);
    run(
        alloc, task, &options, &names, key, generator, input, output, errors,
    )
}
