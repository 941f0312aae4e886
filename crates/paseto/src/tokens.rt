//! The commands `issue` and `check`.

ghost use Rattle.std.specs.Prelude.{◌≡◌, ◌*ℤ◌, IfErr, IfOk, IsErr, IsTrue, Ok, Some, false, int_le, option_map, pos, true};
ghost use Rattle.jiff.specs.Words.{IsTimestampNanos};
ghost use Rattle.jiff.specs.Types.{Timestamp as Moment};
ghost use Rattle.paseto.specs.Answers.{second_of};
ghost use Rattle.paseto.specs.Issue.{IsSignedBy};
ghost use Rattle.paseto.specs.Named.{AsksUnknown};
ghost use Rattle.paseto.specs.Times.{IsOpenEnd, SaysTime};
ghost use Rattle.paseto_tasks.specs.Error.{IsMemory, IsOutside};

use crate::commands::check::Keys;
use crate::commands::run::{run_check, run_each, run_issue};
use crate::commands::times::moment_of;
use crate::fault::Fault;
use crate::files::{input_file, input_of, is_standard, name_of, once, opened};
use crate::folder::{Broken, Folder, folder_of, last_private};
use crate::keys::{Held, key_name, key_of};
use crate::named::{is_unknown, public_id};
use crate::new_file::{free, put_secret};
use crate::options::longest_of;
use crate::warning::is_over;
use jiff::Timestamp;
use paseto_keys::AnyKey;
use paseto_tasks::{FileError, ProgramError, SystemError, UsageError};
use paseto_words::{Check, Foot, Issue, KeyFile, Keys as KeyWords};
use rand::rngs::SysRng;
use std::alloc::Global;

/// Issues a token at the current second.
pub fn issue<'a>(rt: &HostRuntime, words: &Issue<'a>) -> Result<u8, Fault<'a>> {
    free(rt, words.out)?;
    let mut made = Vec::new(rt.alloc());
    let now = second_of(clock(rt)?)?;
    let status = match words.ring {
        Some(folder) => issue_by_ring(rt, words, folder, now, &mut made)?,
        None => {
            let key = key_of(rt, &words.key)?;
            issue_by(rt, words, &key, now, &mut made)
        }
    };
    if status == 0 {
        put_secret(rt, words.out, &made)?;
        warn_of_end(rt, words.expires, now)?;
    }
    Ok(status)
}

fn issue_by(
    rt: &HostRuntime,
    words: &Issue<'_>,
    key: &AnyKey,
    now: Timestamp,
    made: &mut Vec<u8>,
) -> u8 {
    let (mut generator, mut errors) = (SysRng::new(rt), rt.stderr());
    run_issue(
        rt.alloc(),
        words,
        key,
        now,
        &mut generator,
        made,
        &mut errors,
    )
}

/// Issues a token with the last private key of a folder, whose public id is in the footer.
fn issue_by_ring<'a>(
    rt: &HostRuntime,
    words: &Issue<'a>,
    path: &'a str,
    now: Timestamp,
    made: &mut Vec<u8>,
) -> Result<u8, Fault<'a>> {
    let Foot::Unsaid = words.foot else {
        return Err(Fault::from(ProgramError::Usage(UsageError::RingFooter)));
    };
    let folder = folder_of(rt, path, &Held::of(rt, &words.key.openers)?)?;
    if let Some(broken) = &folder.broken {
        return Ok(broken.report(rt));
    }
    let Some(key) = last_private(&folder.keys) else {
        return Err(Fault::about(path, ProgramError::File(FileError::NoSigner)));
    };
    let id = match public_id(rt.alloc(), key) {
        Ok(id) => id,
        Err(error) => return Err(Fault::about(path, ProgramError::from(error))),
    };
    let words = signed_by(rt.alloc(), words, path, id.as_str())?;
    Ok(issue_by(rt, &words, key, now, made))
}

/// The arguments with a folder in place of the key file, and the id of a key in the footer.
fn signed_by<'w>(
    alloc: Global,
    words: &Issue<'w>,
    path: &'w str,
    id: &'w str,
) -> Result<Issue<'w>, ProgramError>
    ensures made { IfOk result (IsSignedBy words.now path.now id.now) }
    ensures memory { IfErr result IsOutside }
{
    Ok(Issue {
        key: KeyFile {
            file: Some(path),
            openers: words.key.openers,
        },
        ring: None,
        claims: Vec::from_slice(alloc, &words.claims)?,
        expires: words.expires,
        not_before: words.not_before,
        foot: Foot::Kid(id),
        assertion: words.assertion,
        out: words.out,
    })
}

/// Warns of a token that has expired when it is issued.
fn warn_of_end(rt: &HostRuntime, word: Option<&str>, now: Timestamp) -> Result<(), ProgramError> {
    if has_ended(word, now) {
        rt.eprintln("paseto: warning: --expires: the token has already expired")?;
    }
    Ok(())
}

/// Whether an option says a moment that has passed.
fn has_ended(word: Option<&str>, now: Timestamp) -> bool
    ensures ended { IsTrue result → (moment : Moment)
        × SaysTime (option_map (λ text. text.now) word.entry) now (Some moment)
        × (int_le moment.nanosecond now.nanosecond ≡ true) }
    ensures open { result ≡ false → IsOpenEnd (option_map (λ text. text.now) word.entry) now }
{
    let Some(word) = word else {
        return false;
    };
    match moment_of(word, now) {
        Some(moment) => is_over(moment, now),
        None => false,
    }
}

/// The second that contains a moment.
fn second_of(moment: Timestamp) -> Result<Timestamp, ProgramError>
    ensures second { IfOk result (λ second. second.nanosecond
        ≡ second_of moment.nanosecond *ℤ pos 1_000_000_000) }
    ensures none { IfErr result (λ error. (error ≡ ProgramError.System SystemError.Clock)
        × ¬ IsTimestampNanos (second_of moment.nanosecond *ℤ pos 1_000_000_000)) }
{
    match Timestamp::from_second(moment.as_second()) {
        Ok(second) => Ok(second),
        Err(_) => Err(ProgramError::System(SystemError::Clock)),
    }
}

/// The current moment.
fn clock(rt: &HostRuntime) -> Result<Timestamp, ProgramError> {
    told(Timestamp::now(rt))
}

/// Converts the result of reading the clock.
fn told(read: Result<Timestamp, jiff::Error>) -> Result<Timestamp, ProgramError>
    ensures now { IfOk result (λ now. read ≡ Ok now) }
    ensures none { IfErr result (λ error. (error ≡ ProgramError.System SystemError.Clock) × IsErr read) }
{
    match read {
        Ok(now) => Ok(now),
        Err(_) => Err(ProgramError::System(SystemError::Clock)),
    }
}

/// The keys that check tokens.
#[derive(Drop)]
struct Checking<'a> {
    /// What errors name them.
    name: &'a str,
    keys: Keys,
    /// The first key file of a ring that cannot be used.
    broken: Option<Broken>,
}

/// Checks a token, or that of each line, at the current moment. If a token names no key of a ring, a key
/// file that cannot be used is at fault; of many tokens, it is at fault before any is read.
pub fn check<'a>(rt: &HostRuntime, words: &Check<'a>) -> Result<u8, Fault<'a>> {
    let file = match words.keys {
        KeyWords::File(path) => Some(path),
        KeyWords::Unsaid | KeyWords::Ring(_) => None,
    };
    let openers = words.openers;
    once(&[file, openers.password, openers.key, input_file(words.input)])?;
    let longest = longest_of(words.longest)?;
    let Checking { name, keys, broken } = keys_of(rt, words, file)?;
    if words.each {
        return match broken {
            Some(broken) => Ok(broken.report(rt)),
            None => check_each(rt, words, name, &keys, longest),
        };
    }
    let input = input_of(rt, words.input, longest)?;
    if let Some(broken) = broken
        && asks_unknown(rt.alloc(), &keys, &input)?
    {
        return Ok(broken.report(rt));
    }
    Ok(run_check(
        rt.alloc(),
        words,
        name,
        &keys,
        clock(rt)?,
        &mut input.as_slice(),
        &mut rt.stdout(),
        &mut rt.stderr(),
    ))
}

/// The keys of a folder, or else the key of a file.
fn keys_of<'a>(
    rt: &HostRuntime,
    words: &Check<'a>,
    file: Option<&'a str>,
) -> Result<Checking<'a>, Fault<'a>> {
    let openers = words.openers;
    if let KeyWords::Ring(path) = words.keys {
        let Folder { keys, broken } = folder_of(rt, path, &Held::of(rt, &openers)?)?;
        return Ok(Checking {
            name: path,
            keys: Keys::Ring(keys),
            broken,
        });
    }
    Ok(Checking {
        name: key_name(file),
        keys: Keys::One(key_of(rt, &KeyFile { file, openers })?),
        broken: None,
    })
}

/// Whether the footer of a token names a key that is not in the ring. One key needs no name.
fn asks_unknown(alloc: Global, keys: &Keys, input: &[u8]) -> Result<bool, ProgramError>
    ensures asks { IfOk result (AsksUnknown keys.now input.now) }
    ensures fault { IfErr result IsMemory }
{
    match keys {
        Keys::One(_) => Ok(false),
        Keys::Ring(keys) => Ok(is_unknown(alloc, keys, input)?),
    }
}

/// Checks the token of each line at the moment of the start, and writes a row for each.
fn check_each<'a>(
    rt: &HostRuntime,
    words: &Check<'a>,
    name: &str,
    keys: &Keys,
    longest: usize,
) -> Result<u8, Fault<'a>> {
    let (alloc, now) = (rt.alloc(), clock(rt)?);
    let (mut output, mut errors) = (rt.stdout(), rt.stderr());
    let status = if is_standard(words.input) {
        run_each(
            alloc,
            words,
            name,
            keys,
            longest,
            now,
            &mut rt.stdin(),
            &mut output,
            &mut errors,
        )
    } else {
        let mut file = opened(rt, name_of(words.input))?;
        run_each(
            alloc,
            words,
            name,
            keys,
            longest,
            now,
            &mut file,
            &mut output,
            &mut errors,
        )
    };
    Ok(status)
}
