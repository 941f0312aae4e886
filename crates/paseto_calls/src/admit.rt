//! Admitting tokens: reading them, and checking their claims.

ghost use Rattle.std.specs.Prelude.{◌≡◌, ◌⊎◌, MatchResult, None, Some, IfErr, IfOk, IsErrAnd, IsOkAnd, OnOk, false, true, string_bytes};
ghost use Rattle.jiff.specs.Words.{IsTimestampNanos};
ghost use Rattle.serde_json.specs.View.{items_view, members_view, view};
ghost use Rattle.serde_json.specs.Written.{compact_text, has_float};
ghost use Rattle.rusty_paseto_claims.specs.Whole.{first_odd};
ghost use Rattle.rusty_paseto_generic.specs.Parsers.Held.{rules_of, with_times};
ghost use Rattle.rusty_paseto_generic.specs.Parsers.Rules.{AreSame, no_rule};
ghost use Rattle.paseto_calls.specs.Admit.{IsPrepared, IsReadyFault, IsUnprepared, admit_fault, admitting, demanded};
ghost use Rattle.paseto_calls.specs.Parse.{IsMemberFault, IsNameFault, all_expected, all_required, are_texts, limit_of as limit};
ghost use Rattle.paseto_calls.specs.Request.{IsMade, IsMadeWhole};
ghost use Rattle.paseto_calls.specs.declared.fault.Fault.TheVariants.{Refused};
ghost use Rattle.rusty_paseto_generic.specs.declared.error.GenericParserError.TheVariants.{CipherError};
ghost use Rattle.rusty_paseto_parts.specs.declared.error.PasetoError.TheVariants.{TooLong};

use crate::admit::options::{AdmitOptions, limit_of};
use crate::arguments::{Texts, str_of};
use crate::claims::{names_of, object_of};
use crate::fault::Fault;
use crate::held_key::HeldKey;
use crate::refusal::Refusal;
use crate::wanted::Wanted;
use jiff::Timestamp;
use paseto_keys::{AdmitError, ClaimsParser};
use rusty_paseto_core::{Footer, ImplicitAssertion, PasetoError};
use rusty_paseto_generic::{CheckSetter, GenericParserError};
use rusty_paseto_parts::has_longer_footer;
use serde_json::{Map, Value};
use std::alloc::Global;

pub mod options;

/// Checks the times at a moment in nanoseconds since 1970, or `InvalidMoment`. The parser has nothing yet.
fn begin(parser: &mut ClaimsParser<'_>, now: i64) -> Result<(), Refusal>
    requires { AreSame (rules_of parser.old.checks) (λ key. no_rule) }
    ensures moment { OnOk result (IsTimestampNanos now
        × (parser.new.moment.nanosecond ≡ now)) }
    ensures rules { OnOk result (AreSame (rules_of parser.new.checks)
        (with_times (λ key. no_rule))) }
    ensures footer { parser.new.footer ≡ parser.old.footer }
    ensures assertion { parser.new.implicit_assertion
        ≡ parser.old.implicit_assertion }
    ensures longest { parser.new.longest ≡ parser.old.longest }
    ensures err { IfErr result (λ refusal. (refusal ≡ Refusal.Memory)
        ⊎ ((refusal ≡ Refusal.InvalidMoment) × ¬ IsTimestampNanos now)) }
{
    let Ok(moment) = Timestamp::from_nanosecond(now as i128) else {
        return Err(Refusal::InvalidMoment);
    };
    parser.put_times(moment)?;
    Ok(())
}

/// Expects each member as a claim.
fn expect_members(parser: &mut ClaimsParser<'_>, members: Map<String, Value>) -> Result<(), Refusal>
    ensures rules { OnOk result (AreSame (rules_of parser.new.checks)
        (all_expected (members_view members.entries) (rules_of parser.old.checks))) }
    ensures whole { OnOk result (first_odd (members_view members.entries) ≡ None) }
    ensures moment { OnOk result (parser.new.moment ≡ parser.old.moment) }
    ensures leeway { OnOk result (parser.new.leeway ≡ parser.old.leeway) }
    ensures footer { OnOk result (parser.new.footer ≡ parser.old.footer) }
    ensures assertion { OnOk result
        (parser.new.implicit_assertion ≡ parser.old.implicit_assertion) }
    ensures longest { OnOk result (parser.new.longest ≡ parser.old.longest) }
    ensures err { IfErr result (λ refusal. (refusal ≡ Refusal.Memory)
        ⊎ IsMemberFault (members_view members.entries) refusal) }
{
    for (key, value) in members {
        parser.put_expected(key, value)?;
    }
    Ok(())
}

/// Requires a claim under each name.
fn require_names(parser: &mut ClaimsParser<'_>, names: Vec<Value>) -> Result<(), Refusal>
    ensures rules { OnOk result (AreSame (rules_of parser.new.checks)
        (all_required (items_view names.items) (rules_of parser.old.checks))) }
    ensures texts { OnOk result (are_texts (items_view names.items) ≡ true) }
    ensures moment { OnOk result (parser.new.moment ≡ parser.old.moment) }
    ensures leeway { OnOk result (parser.new.leeway ≡ parser.old.leeway) }
    ensures footer { OnOk result (parser.new.footer ≡ parser.old.footer) }
    ensures assertion { OnOk result
        (parser.new.implicit_assertion ≡ parser.old.implicit_assertion) }
    ensures longest { OnOk result (parser.new.longest ≡ parser.old.longest) }
    ensures err { IfErr result (λ refusal. (refusal ≡ Refusal.Memory)
        ⊎ IsNameFault (items_view names.items) refusal) }
{
    for name in names {
        let Value::String(text) = name else {
            return Err(Refusal::NotNames);
        };
        parser.put_required(text.as_str())?;
    }
    Ok(())
}

/// Sets what is demanded beside claims, and the footer and the implicit assertion, if there are any.
fn demand<'a>(
    parser: &mut ClaimsParser<'a>,
    options: &AdmitOptions<'_>,
    footer: Option<Footer<'a>>,
    assertion: Option<ImplicitAssertion<'a>>,
)
    requires footer { parser.old.footer ≡ None }
    requires assertion { parser.old.implicit_assertion ≡ None }
    requires longest { parser.old.longest ≡ None }
    ensures leeway { parser.new.leeway ≡ options.now.leeway }
    ensures longest { parser.new.longest ≡ limit options.now.longest }
    ensures footer { parser.new.footer ≡ footer.entry }
    ensures assertion { parser.new.implicit_assertion ≡ assertion.entry }
    ensures checks { parser.new.checks ≡ parser.old.checks }
    ensures moment { parser.new.moment ≡ parser.old.moment }
{
    parser.set_leeway(options.leeway);
    if let Some(longest) = limit_of(options.longest) {
        parser.set_longest(longest);
    }
    if let Some(footer) = footer {
        parser.set_footer(footer);
    }
    if let Some(assertion) = assertion {
        parser.set_implicit_assertion(assertion);
    }
}

/// Makes a parser that has nothing yet check at the moment, expect the members and the names, and have the footer and the
/// implicit assertion.
fn ready<'a>(
    parser: &mut ClaimsParser<'a>,
    members: Map<String, Value>,
    names: Vec<Value>,
    now: i64,
    options: &AdmitOptions<'_>,
    footer: Option<Footer<'a>>,
    assertion: Option<ImplicitAssertion<'a>>,
) -> Result<(), Refusal>
    requires new { AreSame (rules_of parser.old.checks) (λ key. no_rule) }
    requires no_footer { parser.old.footer ≡ None }
    requires no_assertion { parser.old.implicit_assertion ≡ None }
    requires no_limit { parser.old.longest ≡ None }
    ensures ok { OnOk result (IsTimestampNanos now
        × (first_odd (members_view members.entries) ≡ None)
        × (are_texts (items_view names.items) ≡ true)
        × (parser.new.moment.nanosecond ≡ now)
        × AreSame (rules_of parser.new.checks) (all_required (items_view names.items)
        (all_expected (members_view members.entries) (with_times (λ key. no_rule))))
        × (parser.new.leeway ≡ options.now.leeway)
        × (parser.new.longest ≡ limit options.now.longest)
        × (parser.new.footer ≡ footer.entry)
        × (parser.new.implicit_assertion ≡ assertion.entry)) }
    ensures err { IfErr result (λ refusal. (refusal ≡ Refusal.Memory)
        ⊎ IsReadyFault (members_view members.entries) (items_view names.items) now refusal) }
{
    begin(parser, now)?;
    expect_members(parser, members)?;
    require_names(parser, names)?;
    demand(parser, options, footer, assertion);
    Ok(())
}

/// The compact JSON of a value that was admitted.
fn text_of(alloc: Global, admitted: Result<Value, AdmitError>) -> Result<String, Fault>
    ensures ok { IfOk result (λ text. IsOkAnd admitted
        (λ value. has_float (view value) ≡ false → string_bytes text ≡ compact_text (view value))) }
    ensures err { IfErr result (λ fault. MatchResult admitted
        (λ value. fault ≡ Refused Refusal.Memory) (λ error. fault ≡ admit_fault error)) }
{
    match admitted {
        Ok(value) => Ok(value.to_string(alloc)?),
        Err(AdmitError::Key(error)) => Err(Fault::from(error)),
        Err(AdmitError::Parser(error)) => Err(Fault::Unparsed(error)),
        Err(AdmitError::Memory(_)) => Err(Fault::Refused(Refusal::Memory)),
    }
}

/// Makes a parser that has nothing yet check what is asked of a token, and returns the token's text.
pub(crate) fn prepare<'a>(
    alloc: Global,
    parser: &mut ClaimsParser<'a>,
    token: &'a [u8],
    expected: &[u8],
    now: i64,
    footer: &'a [u8],
    assertion: &'a [u8],
    options: &AdmitOptions<'_>,
) -> Result<&'a str, Refusal>
    requires new { AreSame (rules_of parser.old.checks) (λ key. no_rule) }
    requires no_footer { parser.old.footer ≡ None }
    requires no_assertion { parser.old.implicit_assertion ≡ None }
    requires no_limit { parser.old.longest ≡ None }
    ensures ok { IfOk result (λ text. (text.now ≡ token.now)
        × IsPrepared expected.now now (demanded options.now) token.now footer.now assertion.now
        parser.new.checks parser.new.moment parser.new.leeway parser.new.longest parser.new.footer
        parser.new.implicit_assertion) }
    ensures err { IfErr result (IsUnprepared expected.now now (demanded options.now) token.now footer.now
        assertion.now) }
{
    let expected = str_of(expected)?;
    let required = str_of(options.required)?;
    let texts = Texts::take(token, footer, assertion)?;
    let members = object_of(alloc, expected)?;
    let names = names_of(alloc, required)?;
    ready(
        parser,
        members,
        names,
        now,
        options,
        texts.footer,
        texts.assertion,
    )?;
    Ok(texts.text)
}

/// The claims of a token, under a key that reads tokens.
pub fn admit(
    alloc: Global,
    key: &HeldKey,
    token: &[u8],
    expected: &[u8],
    now: i64,
    footer: &[u8],
    assertion: &[u8],
    options: &AdmitOptions<'_>,
) -> Result<String, Fault>
    ensures made { IsMade (admitting key.now token.now expected.now now footer.now
        assertion.now options.now) result }
    ensures whole { IsMadeWhole (admitting key.now token.now expected.now now footer.now
        assertion.now options.now) result }
{
    let reader = key.take_bound(alloc, Wanted::Readers, assertion)?;
    options.check()?;
    let mut parser = ClaimsParser::new(alloc);
    let text = prepare(
        alloc,
        &mut parser,
        token,
        expected,
        now,
        footer,
        assertion,
        options,
    )?;
    if has_longer_footer(text, limit_of(options.longest_footer)) {
        return Err(Fault::Unparsed(too_long()));
    }
    text_of(alloc, paseto_keys::admit(alloc, &reader, &parser, text))
}

// The error for a token that is longer than the limit.
pub(crate) fn too_long() -> GenericParserError
    ensures { result ≡ CipherError TooLong }
{
    GenericParserError::CipherError {
        source: PasetoError::TooLong,
    }
}
