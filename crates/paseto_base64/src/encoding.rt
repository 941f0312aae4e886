//! Writing base64.

ghost use Rattle.std.specs.Prelude.{◌≡◌, ◌<◌, ◌∷◌, ◌++◌, [], IfOk, OnOk, length, slice_index, string_bytes};
ghost use Rattle.base64.specs.GeneralPurpose.{encode_of};
ghost use Rattle.base64.specs.Rfc4648.{encode_group};
ghost use Rattle.paseto_base64.specs.Alphabet.{engine, padding_of, symbols};

use crate::alphabet::Alphabet;
use std::alloc::{AllocError, Global};

/// The base64 of secret bytes, as the crate `base64` writes it. It fails only if an allocation fails.
///
/// No address and no branch depends on the bytes: their number alone decides what is done.
///
/// Source: RFC 4648, sections 4 and 5.
pub fn encode(alloc: Global, alphabet: Alphabet, bytes: &[u8]) -> Result<String, AllocError>
    ensures { IfOk result (λ text. string_bytes text ≡ encode_of (engine alphabet) bytes.now) }
{
    let mut text = String::new(alloc);
    encode_string(alphabet, bytes, &mut text)?;
    Ok(text)
}

/// Appends what `encode` returns to a text. It fails only if an allocation fails, and the text may then have a part of
/// it behind its own.
///
/// Source: RFC 4648, sections 4 and 5.
pub fn encode_string(alphabet: Alphabet, bytes: &[u8], text: &mut String) -> Result<(), AllocError>
    ensures { OnOk result (string_bytes text.new
        ≡ string_bytes text.old ++ encode_of (engine alphabet) bytes.now) }
{
    text.reserve(encoded_len(alphabet, bytes.len()))?;
    let mut rest = bytes;
    while let [one, two, three, after @ ..] = rest {
        push_group(alphabet, *one, *two, *three, text)?;
        rest = after;
    }
    push_last(alphabet, rest, text)
}

/// How many characters the base64 of so many bytes has.
fn encoded_len(alphabet: Alphabet, count: usize) -> usize {
    match alphabet {
        Alphabet::Standard => count.div_ceil(3).saturating_mul(4),
        Alphabet::UrlSafe => (count / 3)
            .saturating_mul(4)
            .saturating_add((count % 3 * 4).div_ceil(3)),
    }
}

/// Appends the four characters of three bytes.
fn push_group(
    alphabet: Alphabet,
    one: u8,
    two: u8,
    three: u8,
    text: &mut String,
) -> Result<(), AllocError>
    ensures { OnOk result (string_bytes text.new
        ≡ string_bytes text.old ++ encode_group (symbols alphabet) one two three) }
{
    push_symbol(alphabet, one / 4, text)?;
    push_symbol(alphabet, one % 4 * 16 + two / 16, text)?;
    push_symbol(alphabet, two % 16 * 4 + three / 64, text)?;
    push_symbol(alphabet, three % 64, text)
}

/// Appends the characters of the bytes behind the groups, and the padding.
#[tactic(auto, using(crate::proofs::Ends::no_end))]
fn push_last(alphabet: Alphabet, rest: &[u8], text: &mut String) -> Result<(), AllocError>
    requires { length rest.now < 3 }
    ensures { OnOk result (string_bytes text.new
        ≡ string_bytes text.old ++ encode_of (engine alphabet) rest.now) }
{
    match rest {
        [one] => push_one(alphabet, *one, text),
        [one, two] => push_two(alphabet, *one, *two, text),
        [] => Ok(()),
        _ => unreachable!(),
    }
}

/// Appends the characters of a last byte, and the padding.
#[tactic(auto, using(crate::proofs::Ends::one_end))]
fn push_one(alphabet: Alphabet, one: u8, text: &mut String) -> Result<(), AllocError>
    ensures { OnOk result (string_bytes text.new
        ≡ string_bytes text.old ++ encode_of (engine alphabet) (one ∷ [])) }
{
    push_symbol(alphabet, one / 4, text)?;
    push_symbol(alphabet, one % 4 * 16, text)?;
    push_padding(alphabet, "==", text)
}

/// Appends the characters of two last bytes, and the padding.
#[tactic(auto, using(crate::proofs::Ends::two_end))]
fn push_two(alphabet: Alphabet, one: u8, two: u8, text: &mut String) -> Result<(), AllocError>
    ensures { OnOk result (string_bytes text.new
        ≡ string_bytes text.old ++ encode_of (engine alphabet) (one ∷ two ∷ [])) }
{
    push_symbol(alphabet, one / 4, text)?;
    push_symbol(alphabet, one % 4 * 16 + two / 16, text)?;
    push_symbol(alphabet, two % 16 * 4, text)?;
    push_padding(alphabet, "=", text)
}

/// Appends padding, where the alphabet has any.
fn push_padding(alphabet: Alphabet, padding: &str, text: &mut String) -> Result<(), AllocError>
    ensures { OnOk result (string_bytes text.new
        ≡ string_bytes text.old ++ padding_of alphabet padding.now) }
{
    match alphabet {
        Alphabet::Standard => text.push_str(padding),
        Alphabet::UrlSafe => Ok(()),
    }
}

/// Appends the character of a value.
fn push_symbol(alphabet: Alphabet, value: u8, text: &mut String) -> Result<(), AllocError>
    requires { value < 64 }
    ensures { OnOk result (string_bytes text.new
        ≡ string_bytes text.old ++ slice_index (symbols alphabet) value ∷ []) }
{
    text.push(alphabet.symbol(value) as char)
}
