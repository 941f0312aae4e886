//! Tokens under keys that C holds.

ghost use Rattle.std.specs.Prelude.{◌≡◌, true};
ghost use Rattle.rusty_paseto_paserk.specs.declared.header.PaserkType.{PaserkType as KeyType};
ghost use Rattle.paseto_keys.specs.AnyKey.{reads_tokens, writes_tokens};
ghost use Rattle.paseto_calls.specs.HeldKey.{is_wanted};
ghost use Rattle.paseto_calls.specs.Request.{IsMade, IsMadeWhole, IsMadeWholeWhere};
ghost use Rattle.paseto_calls.specs.Tokens.{HasToken, footer_reading, reading, writing};

use crate::arguments::{Texts, str_of};
use crate::fault::Fault;
use crate::held_key::{HeldKey, front};
use crate::wanted::Wanted;
use paseto_keys::{TokenReader, TokenWriter};
use rusty_paseto_core::Footer;
use std::alloc::Global;

/// The text of a token, under a key of a type that is wanted.
pub fn read(
    alloc: Global,
    wanted: Wanted,
    key: &HeldKey,
    token: &[u8],
    footer: &[u8],
    assertion: &[u8],
) -> Result<String, Fault>
    requires { (kind : KeyType) → is_wanted wanted kind ≡ true → reads_tokens kind ≡ true }
    ensures made { IsMade (reading wanted key.now token.now footer.now assertion.now) result }
    ensures whole { IsMadeWhole (reading wanted key.now token.now footer.now assertion.now) result }
{
    let reader = key.take_bound(alloc, wanted, assertion)?;
    let texts = Texts::take(token, footer, assertion)?;
    Ok(reader.read(alloc, texts.text, texts.footer, texts.assertion)?)
}

/// The token of a text, under a key of a type that is wanted, with the first of what was drawn for it.
pub fn write(
    alloc: Global,
    wanted: Wanted,
    key: &HeldKey,
    drawn: &[u8],
    text: &[u8],
    footer: &[u8],
    assertion: &[u8],
) -> Result<String, Fault>
    requires { (kind : KeyType) → is_wanted wanted kind ≡ true → writes_tokens kind ≡ true }
    ensures made { IsMade (writing wanted key.now drawn.now text.now footer.now assertion.now) result }
    ensures whole { IsMadeWholeWhere (HasToken key.now drawn.now footer.now assertion.now text.now)
        (writing wanted key.now drawn.now text.now footer.now assertion.now) result }
{
    let writer = key.take_bound(alloc, wanted, assertion)?;
    let drawn = front(drawn, writer.draws())?;
    let texts = Texts::take(text, footer, assertion)?;
    Ok(writer.write(alloc, drawn, texts.text, texts.footer, texts.assertion)?)
}

/// The text of a token's footer, or an empty one if it has none.
pub fn footer(alloc: Global, token: &[u8]) -> Result<String, Fault>
    ensures made { IsMade (footer_reading token.now) result }
    ensures whole { IsMadeWhole (footer_reading token.now) result }
{
    let token = str_of(token)?;
    match Footer::try_from_token(alloc, token)? {
        Some(text) => Ok(text),
        None => Ok(String::new(alloc)),
    }
}
