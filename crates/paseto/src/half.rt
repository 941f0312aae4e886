//! The command `public`.

ghost use Rattle.std.specs.Prelude.{IfErr, IfOk, string_bytes};
ghost use Rattle.paseto_keys.specs.AnyKey.{parts_of};
ghost use Rattle.paseto.specs.Half.{IsHalfFault, IsHalfIn};

use crate::fault::Fault;
use crate::forms::{format_of, formed};
use crate::keys::{key_name, key_of};
use crate::new_file::{free, put_public};
use paseto_keys::AnyKey;
use paseto_tasks::{Format, ProgramError};
use paseto_words::Written;
use std::alloc::Global;

/// Writes the public half of a private key to standard output, or to a new file that everyone may
/// read.
pub fn tell<'a>(rt: &HostRuntime, words: &Written<'a>) -> Result<u8, Fault<'a>> {
    let format = format_of(words.format)?;
    free(rt, words.out)?;
    let key = key_of(rt, &words.key)?;
    let half = half_of(rt.alloc(), key_name(words.key.file), &key, format)?;
    put_public(rt, words.out, half.as_str().as_bytes())?;
    Ok(0)
}

/// The text of the public half of a key in a format, with a line feed at its end.
pub fn half_of<'a>(
    alloc: Global,
    name: &'a str,
    key: &AnyKey,
    format: Format,
) -> Result<String, Fault<'a>>
    ensures half { IfOk result (λ text. IsHalfIn format (parts_of key.now) (string_bytes text)) }
    ensures refused { IfErr result (IsHalfFault name.now format (parts_of key.now)) }
{
    match key.public_half(alloc) {
        Ok(half) => formed(alloc, name, &half, format),
        Err(error) => Err(Fault::about(name, ProgramError::from(error))),
    }
}
