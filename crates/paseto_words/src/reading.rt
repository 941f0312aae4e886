//! What the matches of a command request.

ghost use Rattle.std.specs.Prelude.{◌≡◌, IfOk, [], is_some, option_map, unwrap_or};
ghost use Rattle.clap.specs.Words.{all_of, first_of, subcommand_rows_of};
ghost use Rattle.clap.specs.Walk.{texts};
ghost use Rattle.paseto_words.specs.Action.{footing, key_file_words, keyed_words, keying, text as plain_text, openers_words, plain, underlying, written_words};
ghost use Rattle.paseto_words.specs.Reading.{asked_in, check_in, explain_in, foot_in, found_in, inspect_in, issue_in, key_file_in, keyed_in, keygen_in, keys_in, openers_in, rows_in, says, seal_in, under_in, wrap_in, written_in};

use crate::action::{
    Action, Check, Explain, Foot, Inspect, Issue, KeyFile, Keyed, Keygen, Keys, Openers, Seal,
    Under, Wrap, Written,
};
use clap::ArgMatches;
use std::alloc::{AllocError, Global};

/// What the matches of the program request, or `None` if two options exclude each other.
pub fn found<'a>(alloc: Global, matches: &ArgMatches<'a>) -> Result<Option<Action<'a>>, AllocError>
    ensures { IfOk result (λ action. option_map plain action
        ≡ found_in (subcommand_rows_of matches.now)) }
{
    let Some((name, inner)) = matches.subcommand() else {
        return Ok(None);
    };
    action_of(alloc, name, inner)
}

/// The first value of an option or a positional argument.
fn text<'a>(matches: &ArgMatches<'a>, id: &str) -> Option<&'a str>
    ensures { option_map (λ s. s.now) result ≡ first_of id.now (rows_in matches.now) }
{
    matches.get_str(id)
}

/// Whether an option is given.
pub fn has(matches: &ArgMatches<'_>, id: &str) -> bool
    ensures { result ≡ is_some (first_of id.now (rows_in matches.now)) }
{
    text(matches, id).is_some()
}

/// Whether a flag is set.
fn is_set(matches: &ArgMatches<'_>, id: &str) -> bool
    ensures { result ≡ says (first_of id.now (rows_in matches.now)) }
{
    match text(matches, id) {
        Some(value) => value == "true",
        None => false,
    }
}

/// The values of an option that may be given many times, in order.
fn values<'a>(alloc: Global, matches: &ArgMatches<'a>, id: &str) -> Result<Vec<&'a str>, AllocError>
    ensures { IfOk result (λ v. texts v.items ≡ unwrap_or (all_of id.now (rows_in matches.now)) []) }
{
    match matches.get_strs(id) {
        Some(values) => Vec::from_slice(alloc, values),
        None => Ok(Vec::new(alloc)),
    }
}

fn action_of<'a>(
    alloc: Global,
    name: &str,
    matches: &ArgMatches<'a>,
) -> Result<Option<Action<'a>>, AllocError>
    ensures { IfOk result (λ action. option_map plain action
        ≡ asked_in name.now (rows_in matches.now)) }
{
    match name {
        "keygen" => Ok(keygen_of(matches)),
        "public" => Ok(Some(Action::Public(written_of(matches)))),
        "id" => Ok(Some(Action::Id(key_file_of(matches)))),
        "wrap" => Ok(wrap_of(matches)),
        "unwrap" => Ok(Some(Action::Unwrap(written_of(matches)))),
        "seal" => Ok(seal_of(matches)),
        "unseal" => Ok(Some(Action::Unseal(written_of(matches)))),
        "issue" => issue_of(alloc, matches),
        "check" => check_of(alloc, matches),
        "encrypt" => Ok(keyed_of(matches).map(Action::Encrypt)),
        "decrypt" => Ok(keyed_of(matches).map(Action::Decrypt)),
        "sign" => Ok(keyed_of(matches).map(Action::Sign)),
        "verify" => Ok(keyed_of(matches).map(Action::Verify)),
        "explain" => Ok(explain_of(matches)),
        "inspect" => Ok(Some(inspect_of(matches))),
        _ => Ok(None),
    }
}

fn keygen_of<'a>(matches: &ArgMatches<'a>) -> Option<Action<'a>>
    ensures { option_map plain result ≡ keygen_in (rows_in matches.now) }
{
    let kind = text(matches, "kind")?;
    let password = text(matches, "password-file");
    let format = text(matches, "format");
    let out = text(matches, "out");
    let public = text(matches, "public");
    let quiet = is_set(matches, "quiet");
    Some(Action::Keygen(Keygen {
        kind,
        password,
        format,
        out,
        public,
        quiet,
    }))
}

fn openers_of<'a>(matches: &ArgMatches<'a>) -> Openers<'a>
    ensures { openers_words result ≡ openers_in (rows_in matches.now) }
{
    let password = text(matches, "password-file");
    let key = text(matches, "unlock-key");
    Openers { password, key }
}

fn key_file_of<'a>(matches: &ArgMatches<'a>) -> KeyFile<'a>
    ensures { key_file_words result ≡ key_file_in (rows_in matches.now) }
{
    let file = text(matches, "key");
    let openers = openers_of(matches);
    KeyFile { file, openers }
}

fn written_of<'a>(matches: &ArgMatches<'a>) -> Written<'a>
    ensures { written_words result ≡ written_in (rows_in matches.now) }
{
    let key = key_file_of(matches);
    let format = text(matches, "format");
    let out = text(matches, "out");
    Written { key, format, out }
}

fn under_of<'a>(matches: &ArgMatches<'a>) -> Option<Under<'a>>
    ensures { option_map underlying result ≡ under_in (rows_in matches.now) }
{
    match (
        text(matches, "wrapping-key"),
        text(matches, "password-file"),
    ) {
        (Some(_), Some(_)) => None,
        (Some(file), None) => Some(Under::Key(file)),
        (None, Some(file)) => Some(Under::Password(file)),
        (None, None) => Some(Under::Unsaid),
    }
}

fn wrap_of<'a>(matches: &ArgMatches<'a>) -> Option<Action<'a>>
    ensures { option_map plain result ≡ wrap_in (rows_in matches.now) }
{
    let under = under_of(matches)?;
    let key = text(matches, "key");
    let out = text(matches, "out");
    Some(Action::Wrap(Wrap { key, under, out }))
}

fn seal_of<'a>(matches: &ArgMatches<'a>) -> Option<Action<'a>>
    ensures { option_map plain result ≡ seal_in (rows_in matches.now) }
{
    let to = text(matches, "to")?;
    let key = key_file_of(matches);
    let out = text(matches, "out");
    Some(Action::Seal(Seal { key, to, out }))
}

fn keyed_of<'a>(matches: &ArgMatches<'a>) -> Option<Keyed<'a>>
    ensures { option_map keyed_words result ≡ keyed_in (rows_in matches.now) }
{
    let ring = ring_of(matches)?;
    let key = key_file_of(matches);
    let footer = text(matches, "footer");
    let assertion = text(matches, "assertion");
    let longest = text(matches, "longest");
    let input = text(matches, "input");
    let out = text(matches, "out");
    Some(Keyed {
        key,
        ring,
        footer,
        assertion,
        longest,
        input,
        out,
    })
}

fn inspect_of<'a>(matches: &ArgMatches<'a>) -> Action<'a>
    ensures { plain result ≡ inspect_in (rows_in matches.now) }
{
    let longest = text(matches, "longest");
    let input = text(matches, "input");
    Action::Inspect(Inspect { longest, input })
}

fn explain_of<'a>(matches: &ArgMatches<'a>) -> Option<Action<'a>>
    ensures { option_map plain result ≡ explain_in (rows_in matches.now) }
{
    let issued = text(matches, "issued")?;
    let key = key_file_of(matches);
    let footer = text(matches, "footer");
    let assertion = text(matches, "assertion");
    let longest = text(matches, "longest");
    let input = text(matches, "input");
    Some(Action::Explain(Explain {
        key,
        issued,
        footer,
        assertion,
        longest,
        input,
    }))
}

fn foot_of<'a>(matches: &ArgMatches<'a>) -> Option<Foot<'a>>
    ensures { option_map footing result ≡ foot_in (rows_in matches.now) }
{
    match (text(matches, "footer"), text(matches, "footer-kid")) {
        (Some(_), Some(_)) => None,
        (Some(footer), None) => Some(Foot::Text(footer)),
        (None, Some(kid)) => Some(Foot::Kid(kid)),
        (None, None) => Some(Foot::Unsaid),
    }
}

fn issue_of<'a>(alloc: Global, matches: &ArgMatches<'a>) -> Result<Option<Action<'a>>, AllocError>
    ensures { IfOk result (λ action. option_map plain action ≡ issue_in (rows_in matches.now)) }
{
    let (Some(ring), Some(foot)) = (ring_of(matches), foot_of(matches)) else {
        return Ok(None);
    };
    let key = key_file_of(matches);
    let claims = values(alloc, matches, "claim")?;
    let expires = text(matches, "expires");
    let not_before = text(matches, "not-before");
    let assertion = text(matches, "assertion");
    let out = text(matches, "out");
    Ok(Some(Action::Issue(Issue {
        key,
        ring,
        claims,
        expires,
        not_before,
        foot,
        assertion,
        out,
    })))
}

/// The folder of key files, unless a key file is also named.
fn ring_of<'a>(matches: &ArgMatches<'a>) -> Option<Option<&'a str>>
    ensures { option_map plain_text result ≡ option_map (λ keys. keys.1) (keys_in (rows_in matches.now)) }
{
    match (text(matches, "key"), text(matches, "ring")) {
        (Some(_), Some(_)) => None,
        (_, ring) => Some(ring),
    }
}

fn keys_of<'a>(matches: &ArgMatches<'a>) -> Option<Keys<'a>>
    ensures { option_map keying result ≡ keys_in (rows_in matches.now) }
{
    match (text(matches, "key"), text(matches, "ring")) {
        (Some(_), Some(_)) => None,
        (Some(file), None) => Some(Keys::File(file)),
        (None, Some(folder)) => Some(Keys::Ring(folder)),
        (None, None) => Some(Keys::Unsaid),
    }
}

fn check_of<'a>(alloc: Global, matches: &ArgMatches<'a>) -> Result<Option<Action<'a>>, AllocError>
    ensures { IfOk result (λ action. option_map plain action ≡ check_in (rows_in matches.now)) }
{
    let (Some(keys), Some(foot)) = (keys_of(matches), foot_of(matches)) else {
        return Ok(None);
    };
    let openers = openers_of(matches);
    let claims = values(alloc, matches, "claim")?;
    let required = values(alloc, matches, "require")?;
    let at = text(matches, "at");
    let leeway = text(matches, "leeway");
    let assertion = text(matches, "assertion");
    let each = is_set(matches, "each");
    let longest = text(matches, "longest");
    let input = text(matches, "input");
    Ok(Some(Action::Check(Check {
        keys,
        openers,
        claims,
        required,
        at,
        leeway,
        foot,
        assertion,
        each,
        longest,
        input,
    })))
}
