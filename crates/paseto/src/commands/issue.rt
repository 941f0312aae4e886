//! The command `issue`: a token of claims, by the default builder.

ghost use Rattle.std.specs.Prelude.{◌≡◌, ◌⊎◌, ◌++◌, ◌∷◌, ℕ, List, [], None, IfErr, IfOk, OnOk, codes, option_map, string_bytes};
ghost use Rattle.rusty_paseto_generic.specs.Builders.Held.{held};
ghost use Rattle.rusty_paseto.specs.Held.{counting};
ghost use Rattle.rusty_paseto.specs.Moment.{FitsDefault};
ghost use Rattle.rusty_paseto.specs.PasetoBuilder.{IsSame};
ghost use Rattle.paseto_keys.specs.AnyKey.{parts_of};
ghost use Rattle.paseto_keys.specs.Drawing.{IsDraw};
ghost use Rattle.paseto_tasks.specs.Arguments.{texts};
ghost use Rattle.paseto.specs.Claims.{AreNeverSet, AreSet, all_counted, all_named};
ghost use Rattle.paseto_tasks.specs.Error.{BlamesNone, BlamesOnly, Fails, IsNoUsage, IsOfWords, IsOutside, Lacks, Says, nothing};
ghost use Rattle.paseto_tasks.specs.Output.{Makes};
ghost use Rattle.paseto.specs.Issue.{AreNever, AreOrdered, IsOrder, IsPayload, Issues, RefusesOrder, RefusesPayload, draws, issuing, keys_set, ordered};
ghost use Rattle.paseto.specs.Times.{BeginsAt, IsNeverSet, IsTimeFault, IsTimeSet, SaysTime, time_counted};

use crate::commands::answers::{built, dated};
use crate::commands::claims::{NamedClaim, claims_of};
use crate::commands::footer::{footer_of, lent};
use crate::commands::times::{moment_of, second_before, time_error};
use jiff::Timestamp;
use paseto_keys::{AnyKey, TokenWriter};
use paseto_tasks::{Options, ProgramError, SystemError, TimeOption, with_line_feed};
use rand_core::TryRng;
use rusty_paseto::prelude::{
    CountingSetter, ExpirationClaim, ImplicitAssertion, Local, NotBeforeClaim, PasetoBuilder,
    PurposeTrait, V4, VersionTrait, fits_default,
};
use rusty_paseto_claims::moment_text;
use std::alloc::Global;

/// The content of a token, apart from what a default builder adds at a moment.
#[derive(Drop)]
pub struct Order<'w> {
    moment: Timestamp,
    claims: Vec<NamedClaim>,
    expires: Option<Timestamp>,
    not_before: Option<Timestamp>,
    footer: Option<String>,
    assertion: Option<ImplicitAssertion<'w>>,
}

impl<'w> Order<'w> {
    /// Parses the content in a command's arguments.
    pub fn parse(
        alloc: Global,
        words: &[&str],
        options: &Options<'w>,
        now: Timestamp,
    ) -> Result<Order<'w>, ProgramError>
        ensures found { IfOk result (λ order. IsOrder
            (texts words.now) options.now now (ordered order)) }
        ensures none { IfErr result (Lacks (λ order. IsOrder
            (texts words.now) options.now now order)) }
        ensures of_words { IfErr result IsOfWords }
    {
        Ok(Order {
            moment: now,
            claims: claims_of(alloc, words)?,
            expires: time_of(TimeOption::Expires, options.expires, now)?,
            not_before: begin_of(options.not_before, now)?,
            footer: footer_of(alloc, options)?,
            assertion: options.assertion,
        })
    }
}

/// The moment that an option gives, if it is given.
fn time_of(
    option: TimeOption,
    word: Option<&str>,
    now: Timestamp,
) -> Result<Option<Timestamp>, ProgramError>
    ensures found { IfOk result (λ moment. SaysTime
        (option_map (λ text. text.now) word.entry) now moment) }
    ensures none { IfErr result (Lacks (λ moment. SaysTime
        (option_map (λ text. text.now) word.entry) now moment)) }
    ensures of_words { IfErr result IsOfWords }
    ensures told { IfErr result (IsTimeFault option
        (option_map (λ text. text.now) word.entry)) }
{
    let Some(word) = word else {
        return Ok(None);
    };
    match moment_of(word, now) {
        Some(moment) => Ok(Some(moment)),
        None => Err(ProgramError::Usage(time_error(option, word))),
    }
}

/// When the token may first be used: as the option says, or a second before now, so that it is good at
/// once for a reader whose clock counts whole seconds.
fn begin_of(word: Option<&str>, now: Timestamp) -> Result<Option<Timestamp>, ProgramError>
    ensures found { IfOk result (λ moment. BeginsAt
        (option_map (λ text. text.now) word.entry) now moment) }
    ensures none { IfErr result (Lacks (λ moment. BeginsAt
        (option_map (λ text. text.now) word.entry) now moment)) }
    ensures of_words { IfErr result IsOfWords }
{
    match word {
        Some(_) => time_of(TimeOption::NotBefore, word, now),
        None => Ok(second_before(now)),
    }
}

/// The line of the requested token, with a key.
pub fn issue<G: TryRng>(
    alloc: Global,
    key: &AnyKey,
    order: &Order<'_>,
    generator: &mut G,
) -> Result<String, ProgramError>
    ensures { Makes (Issues (parts_of key.now) (ordered order.now) (IsDraw (draws (parts_of key.now))
        (λ given. G.may_fill generator.old given generator.new) (generator.new ≡ generator.old)))
        (RefusesOrder (parts_of key.now) (ordered order.now))
        (Fails (issuing (parts_of key.now) G.Error order.now.moment)) result }
{
    let payload = payload_of(alloc, order)?;
    let drawn = key.draw(alloc, generator)?;
    let footer = lent(&order.footer);
    let token = key.write(alloc, &drawn, payload.as_str(), footer, order.assertion)?;
    with_line_feed(token)
}

/// The text of the requested claims.
fn payload_of(alloc: Global, order: &Order<'_>) -> Result<String, ProgramError>
    ensures { Makes (IsPayload (ordered order.now)) (RefusesPayload (ordered order.now))
        (Fails (record nothing { no_moment = ¬ FitsDefault order.now.moment })) result }
{
    let builder = builder_of(alloc, order)?;
    built(alloc, builder.build_payload_from_claims())
}

/// A default builder with the requested claims: of the type parameters nothing is used.
fn builder_of(
    alloc: Global,
    order: &Order<'_>,
) -> Result<PasetoBuilder<'static, V4, Local>, ProgramError>
    ensures claims { IfOk result (λ made. AreOrdered (ordered order.now)
        (held made.builder.claims)) }
    ensures keys { IfOk result (λ made. IsSame (keys_set (ordered order.now))
        (counting made.keys)) }
    ensures never { IfErr result (λ error. IsOutside error ⊎ AreNever (ordered order.now)) }
    ensures usage { IfErr result (λ error. IsNoUsage error ⊎ AreNever (ordered order.now)) }
    ensures said { IfErr result (Says (λ line. ⊥)) }
    ensures blames { IfErr result (BlamesOnly
        (record nothing { no_moment = ¬ FitsDefault order.now.moment })) }
{
    if !fits_default(order.moment) {
        return Err(ProgramError::System(SystemError::Clock));
    }
    let mut builder = built(alloc, PasetoBuilder::default(alloc, order.moment))?;
    set_claims(alloc, &mut builder, &order.claims)?;
    set_expiry(alloc, &mut builder, order.expires)?;
    set_begin(alloc, &mut builder, order.not_before)?;
    Ok(builder)
}

fn set_claims<V: VersionTrait, P: PurposeTrait>(
    alloc: Global,
    builder: &mut PasetoBuilder<'_, V, P>,
    claims: &[NamedClaim],
) -> Result<(), ProgramError>
    ensures set { OnOk result (AreSet (all_named claims.now) (held builder.old.builder.claims)
        (held builder.new.builder.claims)) }
    ensures keys { OnOk result (IsSame
        (all_counted (all_named claims.now) (counting builder.old.keys))
        (counting builder.new.keys)) }
    ensures rest { builder.new.builder.paseto ≡ builder.old.builder.paseto }
    ensures never { IfErr result (λ error. IsOutside error ⊎ AreNeverSet (all_named claims.now)) }
    ensures said { IfErr result (Says (λ line. ⊥)) }
    ensures blames { IfErr result (BlamesNone) }
{
    let [claim, rest @ ..] = claims else {
        return Ok(());
    };
    built(alloc, builder.put_claim(claim))?;
    set_claims(alloc, builder, rest)
}

fn set_expiry<V: VersionTrait, P: PurposeTrait>(
    alloc: Global,
    builder: &mut PasetoBuilder<'_, V, P>,
    moment: Option<Timestamp>,
) -> Result<(), ProgramError>
    ensures set { OnOk result (IsTimeSet (codes "exp") moment (held builder.old.builder.claims)
        (held builder.new.builder.claims)) }
    ensures keys { OnOk result (IsSame
        (time_counted (codes "exp") moment (counting builder.old.keys))
        (counting builder.new.keys)) }
    ensures rest { builder.new.builder.paseto ≡ builder.old.builder.paseto }
    ensures never { IfErr result (λ error. IsOutside error ⊎ IsNeverSet (codes "exp") moment) }
    ensures said { IfErr result (Says (λ line. ⊥)) }
    ensures blames { IfErr result (BlamesNone) }
{
    let Some(moment) = moment else {
        return Ok(());
    };
    match ExpirationClaim::try_from_string(alloc, moment_text(alloc, moment)?) {
        Ok(claim) => built(alloc, builder.put_claim(&claim)),
        Err(source) => Err(dated(TimeOption::Expires, source)),
    }
}

fn set_begin<V: VersionTrait, P: PurposeTrait>(
    alloc: Global,
    builder: &mut PasetoBuilder<'_, V, P>,
    moment: Option<Timestamp>,
) -> Result<(), ProgramError>
    ensures set { OnOk result (IsTimeSet (codes "nbf") moment (held builder.old.builder.claims)
        (held builder.new.builder.claims)) }
    ensures keys { OnOk result (IsSame
        (time_counted (codes "nbf") moment (counting builder.old.keys))
        (counting builder.new.keys)) }
    ensures rest { builder.new.builder.paseto ≡ builder.old.builder.paseto }
    ensures never { IfErr result (λ error. IsOutside error ⊎ IsNeverSet (codes "nbf") moment) }
    ensures said { IfErr result (Says (λ line. ⊥)) }
    ensures blames { IfErr result (BlamesNone) }
{
    let Some(moment) = moment else {
        return Ok(());
    };
    match NotBeforeClaim::try_from_string(alloc, moment_text(alloc, moment)?) {
        Ok(claim) => built(alloc, builder.put_claim(&claim)),
        Err(source) => Err(dated(TimeOption::NotBefore, source)),
    }
}
