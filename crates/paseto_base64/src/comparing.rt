//! Comparing base64 with bytes.

ghost use Rattle.std.specs.Prelude.{◌≡◌, ◌<◌, ◌↔◌, ◌∷◌, [], IsTrue, length};
ghost use Rattle.base64.specs.GeneralPurpose.{encode_of};
ghost use Rattle.base64.specs.Rfc4648.{encode_group};
ghost use Rattle.paseto_base64.specs.Alphabet.{engine, symbols};

use crate::alphabet::Alphabet;
use rusty_paseto_primitives::same_bytes;

/// The character of base64's padding.
const PADDING: u8 = b'=';

/// Whether a text is the base64 of bytes. Only their numbers decide what is done.
pub(crate) fn is_encoding(alphabet: Alphabet, bytes: &[u8], text: &[u8]) -> bool
    ensures { IsTrue result ↔ (text.now ≡ encode_of (engine alphabet) bytes.now) }
{
    let mut same = true;
    let mut rest = bytes;
    let mut left = text;
    while let [one, two, three, after @ ..] = rest {
        if left.len() < 4 {
            return false;
        }
        let (front, behind) = left.split_at(4);
        same &= same_bytes(&group(alphabet, *one, *two, *three), front);
        rest = after;
        left = behind;
    }
    same & is_last(alphabet, rest, left)
}

/// The four characters of three bytes.
fn group(alphabet: Alphabet, one: u8, two: u8, three: u8) -> [u8; 4]
    ensures { result ≡ encode_group (symbols alphabet) one two three }
{
    [
        alphabet.symbol(one / 4),
        alphabet.symbol(one % 4 * 16 + two / 16),
        alphabet.symbol(two % 16 * 4 + three / 64),
        alphabet.symbol(three % 64),
    ]
}

/// Whether a text is the base64 of the bytes behind the groups.
#[tactic(auto, using(crate::proofs::Ends::no_end))]
fn is_last(alphabet: Alphabet, rest: &[u8], text: &[u8]) -> bool
    requires { length rest.now < 3 }
    ensures { IsTrue result ↔ (text.now ≡ encode_of (engine alphabet) rest.now) }
{
    match rest {
        [one] => is_one(alphabet, *one, text),
        [one, two] => is_two(alphabet, *one, *two, text),
        [] => text.is_empty(),
        _ => unreachable!(),
    }
}

/// Whether a text is the base64 of a byte.
#[tactic(auto, using(crate::proofs::Ends::standard_one, crate::proofs::Ends::url_safe_one))]
fn is_one(alphabet: Alphabet, one: u8, text: &[u8]) -> bool
    ensures { IsTrue result ↔ (text.now ≡ encode_of (engine alphabet) (one ∷ [])) }
{
    let first = alphabet.symbol(one / 4);
    let second = alphabet.symbol(one % 4 * 16);
    match alphabet {
        Alphabet::Standard => same_bytes(text, &[first, second, PADDING, PADDING]),
        Alphabet::UrlSafe => same_bytes(text, &[first, second]),
    }
}

/// Whether a text is the base64 of two bytes.
#[tactic(auto, using(crate::proofs::Ends::standard_two, crate::proofs::Ends::url_safe_two))]
fn is_two(alphabet: Alphabet, one: u8, two: u8, text: &[u8]) -> bool
    ensures { IsTrue result ↔ (text.now ≡ encode_of (engine alphabet) (one ∷ two ∷ [])) }
{
    let first = alphabet.symbol(one / 4);
    let second = alphabet.symbol(one % 4 * 16 + two / 16);
    let third = alphabet.symbol(two % 16 * 4);
    match alphabet {
        Alphabet::Standard => same_bytes(text, &[first, second, third, PADDING]),
        Alphabet::UrlSafe => same_bytes(text, &[first, second, third]),
    }
}
