//! Admitting tokens by a ring of keys: the token's footer names the key.

ghost use Rattle.std.specs.Prelude.{◌≡◌, ◌⊎◌, IfErr, IfOk, IsOkAnd, MatchResult, None, Some, false, map, string_bytes};
ghost use Rattle.serde_json.specs.View.{view};
ghost use Rattle.serde_json.specs.Written.{compact_text, has_float};
ghost use Rattle.paseto_calls.specs.AdmitBy.{admitting_by, key_in, keys_fault, ring_fault};
ghost use Rattle.paseto_calls.specs.Request.{IsMade, IsMadeWhole};
ghost use Rattle.paseto_calls.specs.declared.fault.Fault.TheVariants.{Refused};

use crate::admit::options::{AdmitOptions, limit_of};
use crate::admit::{prepare, too_long};
use crate::fault::Fault;
use crate::held_key::HeldKey;
use crate::refusal::Refusal;
use crate::wanted::Wanted;
use paseto_keys::{AnyKey, ClaimsParser, RingError, admit_by_ring};
use rusty_paseto_parts::has_longer_footer;
use serde_json::Value;
use std::alloc::{AllocError, Global};

/// The claims of a token, under the key of a ring that its footer names.
pub fn admit_by(
    alloc: Global,
    keys: &[HeldKey],
    token: &[u8],
    expected: &[u8],
    now: i64,
    footer: &[u8],
    assertion: &[u8],
    options: &AdmitOptions<'_>,
) -> Result<String, Fault>
    ensures made { IsMade (admitting_by keys.now token.now expected.now now footer.now assertion.now
        options.now) result }
    ensures whole { IsMadeWhole (admitting_by keys.now token.now expected.now now footer.now
        assertion.now options.now) result }
{
    let ring = ring_of(alloc, keys)?;
    options.check()?;
    let mut parser = ClaimsParser::new(alloc);
    let text = prepare(
        alloc,
        &mut parser,
        token,
        expected,
        now,
        footer,
        assertion,
        options,
    )?;
    if has_longer_footer(text, limit_of(options.longest_footer)) {
        return Err(Fault::Unparsed(too_long()));
    }
    text_of(alloc, admit_by_ring(alloc, &ring, &parser, text))
}

// The keys, or the refusal for the first that is none.
fn ring_of(alloc: Global, keys: &[HeldKey]) -> Result<Vec<AnyKey>, Refusal>
    ensures { MatchResult result
        (λ ring. (ring.items ≡ map key_in keys.now) × (keys_fault keys.now ≡ None))
        (λ refusal. (refusal ≡ Refusal.Memory) ⊎ (keys_fault keys.now ≡ Some refusal)) }
{
    let mut ring = Vec::new(alloc);
    for key in keys {
        let taken = key.take(alloc, Wanted::AllKeys)?;
        if let Err(refused) = ring.push(taken) {
            return Err(Refusal::from(AllocError::from(refused)));
        }
    }
    Ok(ring)
}

// The compact JSON of a value that was admitted.
fn text_of(alloc: Global, admitted: Result<(String, Value), RingError>) -> Result<String, Fault>
    ensures ok { IfOk result (λ text. IsOkAnd admitted
        (λ found. has_float (view found.1) ≡ false → string_bytes text ≡ compact_text (view found.1))) }
    ensures err { IfErr result (λ fault. MatchResult admitted
        (λ found. fault ≡ Refused Refusal.Memory) (λ error. fault ≡ ring_fault error)) }
{
    match admitted {
        Ok((_, value)) => Ok(value.to_string(alloc)?),
        Err(RingError::NoAssertion) => Err(Fault::Refused(Refusal::NoAssertion)),
        Err(RingError::Ring(error)) => Err(Fault::Refused(Refusal::of_ring(&error))),
        Err(RingError::Parser(error)) => Err(Fault::Unparsed(error)),
        Err(RingError::Memory(_)) => Err(Fault::Refused(Refusal::Memory)),
    }
}
