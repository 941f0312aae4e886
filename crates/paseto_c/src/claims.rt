//! Tokens that hold claims, under keys that know their version and type.

ghost use Rattle.paseto_calls.specs.Admit.{admitting};
ghost use Rattle.paseto_calls.specs.AdmitBy.{admitting_by};
ghost use Rattle.paseto_calls.specs.Issue.{IsIssued, issuing};
ghost use Rattle.paseto_calls.specs.Request.{IsReply, IsWhole, IsWholeWhere};
ghost use Rattle.paseto_calls.specs.Tokens.{HasToken};

use paseto_calls::admit::admit;
use paseto_calls::admit::options::AdmitOptions;
use paseto_calls::admit_by::admit_by;
use paseto_calls::answer::hand_over_telling;
use paseto_calls::held_key::HeldKey;
use paseto_calls::issue::issue;
use std::alloc::Global;

/// Issues a token of the members of a JSON object as claims, at a moment in nanoseconds since 1970-01-01T00:00:00Z, with
/// the first of the random bytes that were drawn for it.
///
/// Source: PASETO specification, "Version 1" to "Version 4", and "Algorithm Lucidity".
#[unsafe(no_mangle)]
pub extern "C" fn paseto_issue_with(
    alloc: Global,
    key: &HeldKey,
    drawn: &[u8],
    claims: &[u8],
    now: i64,
    footer: &[u8],
    assertion: &[u8],
    room: &mut [u8],
    written: &mut usize,
    line: &mut [u8],
    told: &mut usize,
) -> u8
    ensures answer { IsReply (issuing key.now drawn.now claims.now now footer.now assertion.now) room.old room.new
        written.new result line.old line.new told.new }
    ensures whole { IsWholeWhere (IsIssued claims.now now (HasToken key.now drawn.now footer.now assertion.now))
        (issuing key.now drawn.now claims.now now footer.now assertion.now) result }
{
    hand_over_telling(
        alloc,
        issue(alloc, key, drawn, claims, now, footer, assertion),
        room,
        written,
        line,
        told,
    )
}

/// Reads a token, checks its claims at a moment in nanoseconds since 1970-01-01T00:00:00Z, and returns them as compact
/// JSON. Each member of the JSON object `expected` must be among them.
///
/// Source: PASETO specification, "Version 1" to "Version 4", and "Algorithm Lucidity".
#[unsafe(no_mangle)]
pub extern "C" fn paseto_admit(
    alloc: Global,
    key: &HeldKey,
    token: &[u8],
    expected: &[u8],
    now: i64,
    footer: &[u8],
    assertion: &[u8],
    options: &AdmitOptions<'_>,
    room: &mut [u8],
    written: &mut usize,
    line: &mut [u8],
    told: &mut usize,
) -> u8
    ensures answer { IsReply (admitting key.now token.now expected.now now footer.now assertion.now options.now) room.old room.new
        written.new result line.old line.new told.new }
    ensures whole { IsWhole (admitting key.now token.now expected.now now footer.now assertion.now options.now) result }
{
    hand_over_telling(
        alloc,
        admit(alloc, key, token, expected, now, footer, assertion, options),
        room,
        written,
        line,
        told,
    )
}

/// The same with the key of an array whose id the token's footer names.
///
/// Source: PASETO specification, "Version 1" to "Version 4", and "Algorithm Lucidity".
#[unsafe(no_mangle)]
pub extern "C" fn paseto_admit_by(
    alloc: Global,
    keys: &[HeldKey],
    token: &[u8],
    expected: &[u8],
    now: i64,
    footer: &[u8],
    assertion: &[u8],
    options: &AdmitOptions<'_>,
    room: &mut [u8],
    written: &mut usize,
    line: &mut [u8],
    told: &mut usize,
) -> u8
    ensures answer { IsReply (admitting_by keys.now token.now expected.now now footer.now assertion.now options.now) room.old room.new
        written.new result line.old line.new told.new }
    ensures whole { IsWhole (admitting_by keys.now token.now expected.now now footer.now assertion.now options.now) result }
{
    hand_over_telling(
        alloc,
        admit_by(
            alloc, keys, token, expected, now, footer, assertion, options,
        ),
        room,
        written,
        line,
        told,
    )
}
