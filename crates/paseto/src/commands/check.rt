//! The command `check`: the claims of a token, by the default parser.

ghost use Rattle.std.specs.Prelude.{◌≡◌, ◌⊎◌, None, IfErr, IfOk, IsErrAnd, Ok, OnOk, false, option_map, string_bytes, true};
ghost use Rattle.std.specs.Result.{IsOkAnd};
ghost use Rattle.serde_json.specs.View.{view};
ghost use Rattle.rusty_paseto_parts.specs.Footer.{footer_text};
ghost use Rattle.rusty_paseto_generic.specs.Parsers.Held.{rules_of, verdicts_of, with_times};
ghost use Rattle.rusty_paseto_generic.specs.Parsers.Rules.{AreSame, no_rule};
ghost use Rattle.rusty_paseto_generic.specs.Parsers.Times.{times_at};
ghost use Rattle.paseto_keys.specs.AnyKey.{parts_of};
ghost use Rattle.paseto_tasks.specs.Arguments.{texts};
ghost use Rattle.paseto_tasks.specs.Error.{Fails, IsMemory, IsOfWords, IsOutside, IsPlain, Lacks, nothing, token_error_of};
ghost use Rattle.paseto.specs.Check.{AreDemands, IsCheckedAt, IsTheValueOf, RefusesKey, demanded, demanded_rules};
ghost use Rattle.paseto.specs.Checked.{Admits, IsJsonLine, IsTheValueBy, NamesKinds, RefusesDemands, RefusesKeys};
ghost use Rattle.paseto.specs.Claims.{all_demanded, all_named, all_required, are_whole};
ghost use Rattle.paseto.specs.Gives.{Gives};

use crate::commands::answers::{admitted, checked, demanded as taken};
use crate::commands::claims::{NamedClaim, claims_of};
use crate::commands::footer::{footer_of, lent};
use crate::commands::ring::claims_by_ring;
use crate::commands::times::{leeway_of, moment_of, time_error};
use jiff::Timestamp;
use paseto_keys::{AnyKey, ClaimsParser, admit};
use paseto_tasks::{Options, ProgramError, TimeOption, TokenError, TokenKind};
use rusty_paseto::DefaultParser;
use rusty_paseto::prelude::{
    CheckSetter, ImplicitAssertion, Local, PasetoError, PasetoParser, PurposeTrait, V4,
    VersionTrait,
};
use serde_json::Value;
use std::alloc::{AllocError, Global};

/// The keys to check a token with: one key, or those of a ring.
#[derive(Drop)]
pub enum Keys {
    /// The key of a key file.
    One(AnyKey),
    /// The keys of a folder's key files.
    Ring(Vec<AnyKey>),
}

/// What is required of a token.
#[derive(Drop)]
pub struct Demands<'w> {
    at: Timestamp,
    leeway: u32,
    claims: Vec<NamedClaim>,
    required: &'w [&'w str],
    footer: Option<String>,
    pub assertion: Option<ImplicitAssertion<'w>>,
}

impl<'w> Demands<'w> {
    /// Parses the requirements in a command's arguments.
    pub fn parse(
        alloc: Global,
        words: &[&str],
        options: &Options<'w>,
        now: Timestamp,
    ) -> Result<Demands<'w>, ProgramError>
        ensures found { IfOk result (λ demands. AreDemands
            (texts words.now) options.now now (demanded demands)) }
        ensures none { IfErr result (Lacks (λ demands. AreDemands
            (texts words.now) options.now now demands)) }
        ensures of_words { IfErr result IsOfWords }
    {
        Ok(Demands {
            at: checked_at(options.at, now)?,
            leeway: leeway_of(options.leeway)?,
            claims: claims_of(alloc, words)?,
            required: options.required,
            footer: footer_of(alloc, options)?,
            assertion: options.assertion,
        })
    }

    /// The parser that reads a token with the required footer and assertion, and checks no claims.
    pub fn reader(&self, alloc: Global) -> ClaimsParser<'_>
        ensures rules { verdicts_of (λ b. verdict b) (times_at result.moment result.leeway)
            result.checks ≡ (λ key. no_rule) }
        ensures footer { option_map footer_text result.footer
            ≡ option_map string_bytes self.now.footer }
        ensures assertion { result.implicit_assertion ≡ self.now.assertion }
        ensures longest { result.longest ≡ None }
    {
        let mut parser = ClaimsParser::new(alloc);
        if let Some(footer) = lent(&self.footer) {
            parser.set_footer(footer);
        }
        if let Some(assertion) = self.assertion {
            parser.set_implicit_assertion(assertion);
        }
        parser
    }

    /// The parser that checks the claims of a token that was read, whatever its version and purpose.
    fn checker(&self, alloc: Global) -> Result<PasetoParser<'static, V4, Local>, ProgramError>
        ensures rules { IfOk result (λ made. verdicts_of (λ b. verdict b)
            (times_at made.parser.moment made.parser.leeway) made.parser.checks
            ≡ demanded_rules (demanded self.now)) }
        ensures whole { OnOk result (are_whole (all_named self.now.claims.items) ≡ true) }
        ensures refused { IfErr result (λ error. IsOutside error
            ⊎ (are_whole (all_named self.now.claims.items) ≡ false)) }
        ensures plain { IfErr result IsPlain }
    {
        let mut parser = timed(alloc, self.at, self.leeway)?;
        put_checks(alloc, &mut parser, &self.claims)?;
        put_requirements(alloc, &mut parser, self.required)?;
        Ok(parser)
    }
}

/// A parser that checks the times at a moment.
fn timed(
    alloc: Global,
    at: Timestamp,
    leeway: u32,
) -> Result<PasetoParser<'static, V4, Local>, ProgramError>
    ensures checks { IfOk result (λ made. AreSame (rules_of made.parser.checks)
        (with_times (λ key. no_rule))) }
    ensures times { IfOk result (λ made. (made.parser.moment ≡ at)
        × (made.parser.leeway ≡ leeway)) }
    ensures refused { IfErr result IsOutside }
    ensures plain { IfErr result IsPlain }
{
    let mut parser = taken(PasetoParser::default(alloc, at))?;
    parser.set_leeway(leeway);
    Ok(parser)
}

/// The moment at which a token is checked.
fn checked_at(word: Option<&str>, now: Timestamp) -> Result<Timestamp, ProgramError>
    ensures found { IfOk result (λ at. IsCheckedAt
        (option_map (λ text. text.now) word.entry) now at) }
    ensures none { IfErr result (Lacks (λ at. IsCheckedAt
        (option_map (λ text. text.now) word.entry) now at)) }
    ensures of_words { IfErr result IsOfWords }
{
    let Some(word) = word else {
        return Ok(now);
    };
    match moment_of(word, now) {
        Some(moment) => Ok(moment),
        None => Err(ProgramError::Usage(time_error(TimeOption::At, word))),
    }
}

fn put_checks<V: VersionTrait, P: PurposeTrait, B: Drop>(
    alloc: Global,
    parser: &mut DefaultParser<'_, V, P, B>,
    claims: &[NamedClaim],
) -> Result<(), ProgramError>
    ensures set { OnOk result (rules_of parser.new.parser.checks
        ≡ all_demanded (all_named claims.now) (rules_of parser.old.parser.checks)) }
    ensures whole { OnOk result (are_whole (all_named claims.now) ≡ true) }
    ensures refused { IfErr result (λ error. IsOutside error
        ⊎ (are_whole (all_named claims.now) ≡ false)) }
    ensures times { (parser.new.parser.moment ≡ parser.old.parser.moment)
        × (parser.new.parser.leeway ≡ parser.old.parser.leeway) }
    ensures footer { parser.new.parser.footer ≡ parser.old.parser.footer }
    ensures assertion { parser.new.parser.implicit_assertion
        ≡ parser.old.parser.implicit_assertion }
    ensures plain { IfErr result IsPlain }
{
    let [claim, rest @ ..] = claims else {
        return Ok(());
    };
    match taken(parser.put_check(claim)) {
        Ok(()) => put_checks(alloc, parser, rest),
        Err(error) => Err(error),
    }
}

fn put_requirements<V: VersionTrait, P: PurposeTrait, B: Drop>(
    alloc: Global,
    parser: &mut DefaultParser<'_, V, P, B>,
    names: &[&str],
) -> Result<(), ProgramError>
    ensures set { OnOk result (rules_of parser.new.parser.checks
        ≡ all_required (texts names.now) (rules_of parser.old.parser.checks)) }
    ensures refused { IfErr result IsOutside }
    ensures plain { IfErr result IsPlain }
    ensures times { (parser.new.parser.moment ≡ parser.old.parser.moment)
        × (parser.new.parser.leeway ≡ parser.old.parser.leeway) }
{
    let [name, rest @ ..] = names else {
        return Ok(());
    };
    match taken(parser.put_required(name)) {
        Ok(()) => put_requirements(alloc, parser, rest),
        Err(error) => Err(error),
    }
}

/// The claims of a token that meets the requirements.
pub fn admitted_by(
    alloc: Global,
    keys: &Keys,
    demands: &Demands<'_>,
    token: &str,
) -> Result<Value, ProgramError>
    ensures { Gives (λ value. Admits keys.now (demanded demands.now) token.now (view value))
        (RefusesDemands keys.now (demanded demands.now) token.now) (Fails nothing) result }
{
    let checker = demands.checker(alloc)?;
    let claims = claims_by(alloc, keys, demands, token)?;
    checked(
        alloc,
        &demands.claims,
        &claims,
        demands.at,
        checker.check(&claims),
    )?;
    Ok(claims)
}

/// The line of claims as JSON, or the error in their place.
pub fn line_of(alloc: Global, claims: Result<Value, ProgramError>) -> Result<String, ProgramError>
    ensures line { IfOk result (λ line. IsOkAnd claims
        (λ value. IsJsonLine (view value) (string_bytes line))) }
    ensures error { IfErr result (λ error. IsErrAnd claims (λ source. source ≡ error)
        ⊎ Fails nothing error) }
{
    match claims {
        Ok(claims) => Ok(json_line(alloc, &claims)?),
        Err(error) => Err(error),
    }
}

/// The line of a value as JSON.
pub fn json_line(alloc: Global, value: &Value) -> Result<String, AllocError>
    ensures { IfOk result (λ line. IsJsonLine (view value.now) (string_bytes line)) }
{
    let mut line = value.to_string(alloc)?;
    line.push('\n')?;
    Ok(line)
}

/// The claims of a token, with one key, or with the one of a ring that its footer names.
fn claims_by(
    alloc: Global,
    keys: &Keys,
    demands: &Demands<'_>,
    token: &str,
) -> Result<Value, ProgramError>
    ensures { Gives (λ value. IsTheValueBy keys.now (demanded demands.now).footer
        (demanded demands.now).assertion token.now (view value))
        (RefusesKeys keys.now (demanded demands.now).footer (demanded demands.now).assertion token.now)
        (Fails nothing) result }
{
    match keys {
        Keys::One(key) => with_kinds(claims_by_key(alloc, key, demands, token), token, key),
        Keys::Ring(keys) => claims_by_ring(alloc, keys, demands, token),
    }
}

/// The result for a token and a key. If the token is of another kind than the key is for, the error
/// names both.
fn with_kinds(
    answer: Result<Value, ProgramError>,
    token: &str,
    key: &AnyKey,
) -> Result<Value, ProgramError>
    ensures value { IfOk result (λ value. answer ≡ Ok value) }
    ensures refused { IfErr result (λ error. IsErrAnd answer (λ source. (source ≡ error)
        ⊎ ((source ≡ token_error_of PasetoError.WrongHeader) × IsPlain error))) }
    ensures told { IfErr result (λ error. IsErrAnd answer (λ source. (source ≡ error)
        ⊎ NamesKinds token.now (parts_of key.now) error)) }
{
    match answer {
        Err(ProgramError::Token(TokenError::Refused(PasetoError::WrongHeader))) => Err(
            ProgramError::Token(TokenError::OtherKind(
                TokenKind::of(token),
                TokenKind::read_by(key.version(), key.kind()),
            )),
        ),
        answer => answer,
    }
}

/// The claims of a token, with a key.
fn claims_by_key(
    alloc: Global,
    key: &AnyKey,
    demands: &Demands<'_>,
    token: &str,
) -> Result<Value, ProgramError>
    ensures { Gives (λ value. IsTheValueOf (parts_of key.now) (demanded demands.now).footer
        (demanded demands.now).assertion token.now (view value))
        (RefusesKey (parts_of key.now) (demanded demands.now).footer (demanded demands.now).assertion
        token.now) (Fails nothing) result }
{
    admitted(admit(alloc, key, &demands.reader(alloc), token))
}
