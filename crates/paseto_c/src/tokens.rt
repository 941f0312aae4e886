//! Tokens that hold a text, under keys that know their version and type.

ghost use Rattle.paseto_calls.specs.Request.{IsReply, IsWhole, IsWholeWhere};
ghost use Rattle.paseto_calls.specs.Tokens.{SignsText, footer_reading, reading, writing};
ghost use Rattle.paseto_calls.specs.declared.wanted.Wanted.TheVariants.{LocalKeys, PublicKeys, SecretKeys};

use paseto_calls::answer::hand_over_telling;
use paseto_calls::held_key::HeldKey;
use paseto_calls::tokens::{footer, read, write};
use paseto_calls::wanted::Wanted;
use std::alloc::Global;

/// Encrypts a text with a key for local tokens, and with the first of the random bytes that were drawn for it.
///
/// Source: PASETO specification, "Version 1" to "Version 4", and "Algorithm Lucidity".
#[unsafe(no_mangle)]
pub extern "C" fn paseto_encrypt_with(
    alloc: Global,
    key: &HeldKey,
    drawn: &[u8],
    text: &[u8],
    footer: &[u8],
    assertion: &[u8],
    room: &mut [u8],
    written: &mut usize,
    line: &mut [u8],
    told: &mut usize,
) -> u8
    ensures answer { IsReply (writing LocalKeys key.now drawn.now text.now footer.now assertion.now) room.old room.new
        written.new result line.old line.new told.new }
    ensures whole { IsWhole (writing LocalKeys key.now drawn.now text.now footer.now assertion.now) result }
{
    hand_over_telling(
        alloc,
        write(
            alloc,
            Wanted::LocalKeys,
            key,
            drawn,
            text,
            footer,
            assertion,
        ),
        room,
        written,
        line,
        told,
    )
}

/// Signs a text with a private key, in version 1 with the first of the random bytes that were drawn for it.
///
/// Source: PASETO specification, "Version 1" to "Version 4", and "Algorithm Lucidity".
#[unsafe(no_mangle)]
pub extern "C" fn paseto_sign_with(
    alloc: Global,
    key: &HeldKey,
    drawn: &[u8],
    text: &[u8],
    footer: &[u8],
    assertion: &[u8],
    room: &mut [u8],
    written: &mut usize,
    line: &mut [u8],
    told: &mut usize,
) -> u8
    ensures answer { IsReply (writing SecretKeys key.now drawn.now text.now footer.now assertion.now) room.old room.new
        written.new result line.old line.new told.new }
    ensures whole { IsWholeWhere (SignsText key.now footer.now assertion.now text.now)
        (writing SecretKeys key.now drawn.now text.now footer.now assertion.now) result }
{
    hand_over_telling(
        alloc,
        write(
            alloc,
            Wanted::SecretKeys,
            key,
            drawn,
            text,
            footer,
            assertion,
        ),
        room,
        written,
        line,
        told,
    )
}

/// Decrypts a token with a key for local tokens.
///
/// Source: PASETO specification, "Version 1" to "Version 4", and "Algorithm Lucidity".
#[unsafe(no_mangle)]
pub extern "C" fn paseto_decrypt(
    alloc: Global,
    key: &HeldKey,
    token: &[u8],
    footer: &[u8],
    assertion: &[u8],
    room: &mut [u8],
    written: &mut usize,
    line: &mut [u8],
    told: &mut usize,
) -> u8
    ensures answer { IsReply (reading LocalKeys key.now token.now footer.now assertion.now) room.old room.new
        written.new result line.old line.new told.new }
    ensures whole { IsWhole (reading LocalKeys key.now token.now footer.now assertion.now) result }
{
    hand_over_telling(
        alloc,
        read(alloc, Wanted::LocalKeys, key, token, footer, assertion),
        room,
        written,
        line,
        told,
    )
}

/// Verifies a token with a public key.
///
/// Source: PASETO specification, "Version 1" to "Version 4", and "Algorithm Lucidity".
#[unsafe(no_mangle)]
pub extern "C" fn paseto_verify(
    alloc: Global,
    key: &HeldKey,
    token: &[u8],
    footer: &[u8],
    assertion: &[u8],
    room: &mut [u8],
    written: &mut usize,
    line: &mut [u8],
    told: &mut usize,
) -> u8
    ensures answer { IsReply (reading PublicKeys key.now token.now footer.now assertion.now) room.old room.new
        written.new result line.old line.new told.new }
    ensures whole { IsWhole (reading PublicKeys key.now token.now footer.now assertion.now) result }
{
    hand_over_telling(
        alloc,
        read(alloc, Wanted::PublicKeys, key, token, footer, assertion),
        room,
        written,
        line,
        told,
    )
}

/// The footer of a token, which nothing has verified yet, or an empty one.
///
/// Source: PASETO specification, "Tokens".
#[unsafe(no_mangle)]
pub extern "C" fn paseto_token_footer(
    alloc: Global,
    token: &[u8],
    room: &mut [u8],
    written: &mut usize,
    line: &mut [u8],
    told: &mut usize,
) -> u8
    ensures answer { IsReply (footer_reading token.now) room.old room.new
        written.new result line.old line.new told.new }
    ensures whole { IsWhole (footer_reading token.now) result }
{
    hand_over_telling(alloc, footer(alloc, token), room, written, line, told)
}
