//! The command `explain`.

use crate::fault::Fault;
use crate::files::{input_file, input_of, name_of, once};
use crate::keys::{key_name, key_of};
use crate::options::{longest_of, text_options};
use paseto_keys::AnyKey;
use paseto_tasks::run::run_explain;
use paseto_tasks::{Names, ProgramError};
use paseto_words::Explain;

/// Looks for a token among those that were issued, with the key that the arguments name.
pub fn explain<'a>(rt: &HostRuntime, words: &Explain<'a>) -> Result<u8, Fault<'a>> {
    let openers = words.key.openers;
    once(&[
        words.key.file,
        openers.password,
        openers.key,
        Some(words.issued),
        input_file(words.input),
    ])?;
    let longest = longest_of(words.longest)?;
    let key = key_of(rt, &words.key)?;
    let issued = issued_text(rt, words.issued, longest)?;
    let input = input_of(rt, words.input, longest)?;
    Ok(explained(rt, words, &key, issued.as_str(), &input))
}

/// The text of the file of the tokens that were issued.
fn issued_text<'a>(rt: &HostRuntime, path: &'a str, longest: usize) -> Result<String, Fault<'a>> {
    let bytes = input_of(rt, Some(path), longest)?;
    match String::from_utf8(bytes) {
        Ok(text) => Ok(text),
        Err(error) => Err(Fault::about(
            name_of(Some(path)),
            ProgramError::from(error.utf8_error()),
        )),
    }
}

fn explained(
    rt: &HostRuntime,
    words: &Explain<'_>,
    key: &AnyKey,
    issued: &str,
    input: &[u8],
) -> u8 {
    let mut input = input;
    let names = Names {
        key: key_name(words.key.file),
        input: name_of(words.input),
    };
    let options = text_options(words.footer, words.assertion);
    let (output, errors) = (&mut rt.stdout(), &mut rt.stderr());
    run_explain(
        rt.alloc(),
        &names,
        key,
        &options,
        issued,
        &mut input,
        output,
        errors,
    )
}
