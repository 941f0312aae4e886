//! Keys that know their version and type: from texts, to texts, and new ones.

ghost use Rattle.std.specs.Prelude.{◌≡◌, replicate};
ghost use Rattle.paseto_calls.specs.KeyCalls.{generating, halving, key_reading, line_writing, naming, pem_writing, protecting, sealing, unlocking, unwrapping, wrapping};
ghost use Rattle.paseto_calls.specs.Request.{IsKeyReply, IsKeyWhole, IsReply, IsWhole};

use paseto_calls::answer::{hand_over_held, hand_over_telling};
use paseto_calls::held_key::HeldKey;
use paseto_calls::key_calls::{
    generate, id, pem, protect, public_half, read_key, seal, text, unlock, unwrap, wrap,
};
use std::alloc::Global;

/// Overwrites a key with zeros.
#[unsafe(no_mangle)]
pub extern "C" fn paseto_key_wipe(key: &mut HeldKey)
    ensures { key.new ≡ record { version = 0; kind = 0; length = 0; bytes = replicate 1244 0 } }
{
    *key = HeldKey::nothing();
}

/// The key of a text in PASERK or PEM.
///
/// Source: PASERK specification; RFC 7468.
#[unsafe(no_mangle)]
pub extern "C" fn paseto_key_read(
    alloc: Global,
    text_of_key: &[u8],
    made: &mut HeldKey,
    line: &mut [u8],
    told: &mut usize,
) -> u8
    ensures answer { IsKeyReply (key_reading text_of_key.now) made.old made.new result line.old
        line.new told.new }
    ensures whole { IsKeyWhole (key_reading text_of_key.now) result }
{
    hand_over_held(read_key(alloc, text_of_key), made, line, told)
}

/// The key of a text that may be under a password.
///
/// Source: PASERK specification; RFC 7468.
#[unsafe(no_mangle)]
pub extern "C" fn paseto_key_unlock(
    alloc: Global,
    text_of_key: &[u8],
    password: &[u8],
    made: &mut HeldKey,
    line: &mut [u8],
    told: &mut usize,
) -> u8
    ensures answer { IsKeyReply (unlocking text_of_key.now password.now) made.old made.new result line.old
        line.new told.new }
    ensures whole { IsKeyWhole (unlocking text_of_key.now password.now) result }
{
    hand_over_held(unlock(alloc, text_of_key, password), made, line, told)
}

/// The key of a text that may be wrapped or sealed by another key.
///
/// Source: PASERK specification; RFC 7468.
#[unsafe(no_mangle)]
pub extern "C" fn paseto_key_unwrap(
    alloc: Global,
    text_of_key: &[u8],
    opener: &HeldKey,
    made: &mut HeldKey,
    line: &mut [u8],
    told: &mut usize,
) -> u8
    ensures answer { IsKeyReply (unwrapping text_of_key.now opener.now) made.old made.new result line.old
        line.new told.new }
    ensures whole { IsKeyWhole (unwrapping text_of_key.now opener.now) result }
{
    hand_over_held(unwrap(alloc, text_of_key, opener), made, line, told)
}

/// The public key of a private one.
///
/// Source: RFC 8032, section 5.1.5; FIPS 186-5, appendix A.2.2.
#[unsafe(no_mangle)]
pub extern "C" fn paseto_key_public(
    alloc: Global,
    key: &HeldKey,
    made: &mut HeldKey,
    line: &mut [u8],
    told: &mut usize,
) -> u8
    ensures answer { IsKeyReply (halving key.now) made.old made.new result line.old
        line.new told.new }
    ensures whole { IsKeyWhole (halving key.now) result }
{
    hand_over_held(public_half(alloc, key), made, line, told)
}

/// A new key of a version and a type, of the first of the random bytes that were drawn for it.
///
/// Source: RFC 8032, section 5.1.5; FIPS 186-5, appendix A.2.2.
#[unsafe(no_mangle)]
pub extern "C" fn paseto_key_generate_with(
    alloc: Global,
    version: u8,
    kind: u8,
    drawn: &[u8],
    made: &mut HeldKey,
    line: &mut [u8],
    told: &mut usize,
) -> u8
    ensures answer { IsKeyReply (generating version kind drawn.now) made.old made.new result line.old
        line.new told.new }
    ensures whole { IsKeyWhole (generating version kind drawn.now) result }
{
    hand_over_held(generate(alloc, version, kind, drawn), made, line, told)
}

/// The text of a key in PASERK.
///
/// Source: PASERK specification; RFC 7468.
#[unsafe(no_mangle)]
pub extern "C" fn paseto_key_text(
    alloc: Global,
    key: &HeldKey,
    room: &mut [u8],
    written: &mut usize,
    line: &mut [u8],
    told: &mut usize,
) -> u8
    ensures answer { IsReply (line_writing key.now) room.old room.new
        written.new result line.old line.new told.new }
    ensures whole { IsWhole (line_writing key.now) result }
{
    hand_over_telling(alloc, text(alloc, key), room, written, line, told)
}

/// The text of a key in PEM.
///
/// Source: RFC 7468, sections 10 and 13.
#[unsafe(no_mangle)]
pub extern "C" fn paseto_key_pem(
    alloc: Global,
    key: &HeldKey,
    room: &mut [u8],
    written: &mut usize,
    line: &mut [u8],
    told: &mut usize,
) -> u8
    ensures answer { IsReply (pem_writing key.now) room.old room.new
        written.new result line.old line.new told.new }
    ensures whole { IsWhole (pem_writing key.now) result }
{
    hand_over_telling(alloc, pem(alloc, key), room, written, line, told)
}

/// The id of a key.
///
/// Source: PASERK specification, types `lid`, `sid` and `pid`.
#[unsafe(no_mangle)]
pub extern "C" fn paseto_key_id(
    alloc: Global,
    key: &HeldKey,
    room: &mut [u8],
    written: &mut usize,
    line: &mut [u8],
    told: &mut usize,
) -> u8
    ensures answer { IsReply (naming key.now) room.old room.new
        written.new result line.old line.new told.new }
    ensures whole { IsWhole (naming key.now) result }
{
    hand_over_telling(alloc, id(alloc, key), room, written, line, told)
}

/// The text of a key under a password, with the first of the random bytes that were drawn for it.
///
/// Source: PASERK specification, types `local-pw` and `secret-pw`.
#[unsafe(no_mangle)]
pub extern "C" fn paseto_key_protect_with(
    alloc: Global,
    key: &HeldKey,
    password: &[u8],
    drawn: &[u8],
    room: &mut [u8],
    written: &mut usize,
    line: &mut [u8],
    told: &mut usize,
) -> u8
    ensures answer { IsReply (protecting key.now password.now drawn.now) room.old room.new
        written.new result line.old line.new told.new }
    ensures whole { IsWhole (protecting key.now password.now drawn.now) result }
{
    hand_over_telling(
        alloc,
        protect(alloc, key, password, drawn),
        room,
        written,
        line,
        told,
    )
}

/// The text of a key under a wrapping key, with the first of the random bytes that were drawn for it.
///
/// Source: PASERK specification, types `local-wrap` and `secret-wrap`.
#[unsafe(no_mangle)]
pub extern "C" fn paseto_key_wrap_with(
    alloc: Global,
    key: &HeldKey,
    other: &HeldKey,
    drawn: &[u8],
    room: &mut [u8],
    written: &mut usize,
    line: &mut [u8],
    told: &mut usize,
) -> u8
    ensures answer { IsReply (wrapping key.now other.now drawn.now) room.old room.new
        written.new result line.old line.new told.new }
    ensures whole { IsWhole (wrapping key.now other.now drawn.now) result }
{
    hand_over_telling(
        alloc,
        wrap(alloc, key, other, drawn),
        room,
        written,
        line,
        told,
    )
}

/// The text of a key that is sealed to a public key, with the first of the random bytes that were drawn for it.
///
/// Source: PASERK specification, type `seal`.
#[unsafe(no_mangle)]
pub extern "C" fn paseto_key_seal_with(
    alloc: Global,
    key: &HeldKey,
    other: &HeldKey,
    drawn: &[u8],
    room: &mut [u8],
    written: &mut usize,
    line: &mut [u8],
    told: &mut usize,
) -> u8
    ensures answer { IsReply (sealing key.now other.now drawn.now) room.old room.new
        written.new result line.old line.new told.new }
    ensures whole { IsWhole (sealing key.now other.now drawn.now) result }
{
    hand_over_telling(
        alloc,
        seal(alloc, key, other, drawn),
        room,
        written,
        line,
        told,
    )
}
