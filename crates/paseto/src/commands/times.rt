//! Moments and lengths of time, as the arguments give them.

ghost use Rattle.std.specs.Prelude.{◌≡◌, ◌≢◌, ◌≤◌, ◌*◌, ◌++◌, ◌+ℤ◌, ◌-ℤ◌, ℕ, List, pos, IfErr, IfOk, IfSome, MatchOption, option_map, string_bytes, unsigned_abs};
ghost use Rattle.std.specs.Char.{is_ascii_digit};
ghost use Rattle.std.specs.List.{list_all};
ghost use Rattle.jiff.specs.Words.{IsTimestampNanos};
ghost use Rattle.paseto.specs.Answers.{between_text, count_text, length_text, second_of};
ghost use Rattle.paseto.specs.Times.{HasUnit, IsLeeway, IsLength, IsNumber, IsSecondBefore, IsTimeError, SaysMoment, SaysNone, are_digits};
ghost use Rattle.paseto_tasks.specs.Error.{IsOfWords, Lacks};

use jiff::Timestamp;
use paseto_tasks::{ProgramError, TimeOption, UsageError};
use std::alloc::{AllocError, Global};

/// The nanoseconds of a second.
const SECOND: i128 = 1_000_000_000;

/// Parses a moment: a moment of RFC 3339, or a length of time after now.
pub fn moment_of(word: &str, now: Timestamp) -> Option<Timestamp>
    ensures { MatchOption result (SaysNone word.now now)
        (λ moment. SaysMoment word.now now moment) }
{
    match word.parse::<Timestamp>() {
        Ok(moment) => Some(moment),
        Err(_) => match seconds_of(word) {
            Some(seconds) => moment_after(seconds, now),
            None => None,
        },
    }
}

/// Parses the number of seconds by which clocks may differ.
#[tactic(auto, using(crate::proofs::SameWords::long_leeway))]
pub fn leeway_of(word: Option<&str>) -> Result<u32, ProgramError>
    ensures found { IfOk result (λ seconds. IsLeeway
        (option_map (λ text. text.now) word.entry) seconds) }
    ensures none { IfErr result (Lacks (λ seconds. IsLeeway
        (option_map (λ text. text.now) word.entry) seconds)) }
    ensures of_words { IfErr result IsOfWords }
{
    let Some(word) = word else {
        return Ok(0);
    };
    let Some(seconds) = seconds_of(word) else {
        return Err(ProgramError::Usage(time_error(TimeOption::Leeway, word)));
    };
    if seconds > u32::MAX as u64 {
        return Err(ProgramError::Usage(time_error(TimeOption::Leeway, word)));
    }
    Ok(seconds as u32)
}

/// Why an argument is neither a moment nor a length of time: it is a negative length, one that is too
/// large, or nothing like one.
#[tactic(auto, using(crate::proofs::SameWords::no_like_length))]
pub fn time_error(option: TimeOption, word: &str) -> UsageError
    ensures { IsTimeError option word.now result }
{
    if word.starts_with('-') {
        return UsageError::Negative(option);
    }
    let Some((front, _)) = unit_of(word) else {
        return UsageError::Time(option);
    };
    if are_digits(front.as_bytes()) {
        UsageError::TooLong(option)
    } else {
        UsageError::Time(option)
    }
}

/// Whether bytes are decimal digits, at least one.
fn are_digits(bytes: &[u8]) -> bool
    ensures { result ≡ are_digits bytes.now }
{
    !bytes.is_empty() && all_digits(bytes)
}

/// Whether all bytes are decimal digits.
fn all_digits(bytes: &[u8]) -> bool
    ensures { result ≡ list_all is_ascii_digit bytes.now }
{
    bytes.iter().all(|byte| byte.is_ascii_digit())
}

/// The moment that many seconds later.
fn moment_after(seconds: u64, now: Timestamp) -> Option<Timestamp>
    ensures { MatchOption result
        (¬ IsTimestampNanos (now.nanosecond +ℤ pos (seconds * 1_000_000_000)))
        (λ moment. moment.nanosecond ≡ now.nanosecond +ℤ pos (seconds * 1_000_000_000)) }
{
    match Timestamp::from_nanosecond(now.as_nanosecond() + seconds as i128 * SECOND) {
        Ok(moment) => Some(moment),
        Err(_) => None,
    }
}

/// The moment a second earlier.
pub fn second_before(now: Timestamp) -> Option<Timestamp>
    ensures { IsSecondBefore now result }
{
    match Timestamp::from_nanosecond(now.as_nanosecond() - SECOND) {
        Ok(moment) => Some(moment),
        Err(_) => None,
    }
}

/// Parses a length of time, a number and `s`, `m`, `h` or `d`, and returns its seconds.
fn seconds_of(word: &str) -> Option<u64>
    ensures { MatchOption result ((seconds : ℕ) → ¬ IsLength word.now seconds)
        (λ seconds. IsLength word.now seconds) }
{
    let Some((front, unit)) = unit_of(word) else {
        return None;
    };
    match number_of(front) {
        Some(number) => Some(unit * number),
        None => None,
    }
}

/// What is in front of the letter of a unit at the end of an argument, and the seconds of that
/// unit.
fn unit_of(word: &str) -> Option<(&str, u64)>
    ensures small { IfSome result (λ found. found.1 ≤ 86_400) }
    ensures unit { MatchOption result
        ((front : List ℕ) (unit : ℕ) → ¬ HasUnit word.now front unit)
        (λ found. HasUnit word.now found.0.now found.1) }
{
    if let Some(front) = before(word, "s") {
        Some((front, 1))
    } else if let Some(front) = before(word, "m") {
        Some((front, 60))
    } else if let Some(front) = before(word, "h") {
        Some((front, 3_600))
    } else if let Some(front) = before(word, "d") {
        Some((front, 86_400))
    } else {
        None
    }
}

/// What is in front of `end`, if the text ends with it.
fn before<'a>(text: &'a str, end: &str) -> Option<&'a str>
    ensures { MatchOption result ((front : List ℕ) → text.now ≢ front ++ end.now)
        (λ front. text.now ≡ front.now ++ end.now) }
{
    text.strip_suffix(end)
}

/// Parses a number.
fn number_of(word: &str) -> Option<u64>
    ensures { MatchOption result ((number : ℕ) → ¬ IsNumber word.now number)
        (λ number. IsNumber word.now number) }
{
    match word.parse::<u32>() {
        Ok(number) => Some(number as u64),
        Err(_) => None,
    }
}

/// The time between two moments, in words: `3 minutes`. It is rounded down.
pub fn between(alloc: Global, one: Timestamp, other: Timestamp) -> Result<String, AllocError>
    ensures { IfOk result (λ text. string_bytes text
        ≡ between_text one.nanosecond other.nanosecond) }
{
    length_of(alloc, seconds_between(one, other))
}

/// The number of whole seconds between two moments, in either order.
fn seconds_between(one: Timestamp, other: Timestamp) -> u64
    ensures { result ≡ unsigned_abs
        (second_of other.nanosecond -ℤ second_of one.nanosecond) }
{
    let (one, other) = (one.as_second(), other.as_second());
    other.abs_diff(one)
}

/// A length of time in words.
fn length_of(alloc: Global, seconds: u64) -> Result<String, AllocError>
    ensures { IfOk result (λ text. string_bytes text ≡ length_text seconds) }
{
    if seconds < 120 {
        count_of(alloc, seconds, "second")
    } else if seconds < 7_200 {
        count_of(alloc, seconds / 60, "minute")
    } else if seconds < 172_800 {
        count_of(alloc, seconds / 3_600, "hour")
    } else {
        count_of(alloc, seconds / 86_400, "day")
    }
}

/// A number and what it counts.
fn count_of(alloc: Global, count: u64, unit: &str) -> Result<String, AllocError>
    ensures { IfOk result (λ text. string_bytes text ≡ count_text count unit.now) }
{
    let ending = if count == 1 { "" } else { "s" };
    format!(in alloc; "{count} {unit}{ending}")
}
