//! Reading base64.

ghost use Rattle.std.specs.Prelude.{◌≡◌, ◌≢◌, ◌<◌, ◌∷◌, ◌++◌, [], ℕ, List, IfOk, IfSome, MatchOption, None, OnOk, length};
ghost use Rattle.base64.specs.GeneralPurpose.{IsBytes, encode_of};
ghost use Rattle.base64.specs.Rfc4648.{encode_group, encode_symbols};
ghost use Rattle.paseto_base64.specs.declared.alphabet.Alphabet.TheVariants.{Standard};
ghost use Rattle.paseto_base64.specs.Alphabet.{engine, symbols};

use crate::alphabet::Alphabet;
use crate::comparing::is_encoding;
use std::alloc::{AllocError, Global};

/// The secret bytes of which a text is the base64, or `None` if it is that of none.
///
/// Reading is strict: nothing but what `encode` writes is read, so missing or further padding, another character and left
/// over bits that are not zero give `None`. It fails only if an allocation fails. No address depends on the text, and
/// only its length, its padding and whether it is read decide what is done.
///
/// Source: RFC 4648, sections 4 and 5.
pub fn decode(alloc: Global, alphabet: Alphabet, text: &str) -> Result<Option<Vec<u8>>, AllocError>
    ensures read { IfOk result (λ read. IfSome read (λ bytes.
        text.now ≡ encode_of (engine alphabet) bytes.items)) }
    ensures bytes { IfOk result (λ read. IfSome read (λ bytes. IsBytes bytes.items)) }
    ensures exact { (bytes : List ℕ) → IsBytes bytes → text.now ≡ encode_of (engine alphabet) bytes
        → IfOk result (λ read. MatchOption read ⊥ (λ found. found.items ≡ bytes)) }
    ensures none { IfOk result (λ read. read ≡ None → (bytes : List ℕ) → IsBytes bytes
        → text.now ≢ encode_of (engine alphabet) bytes) }
{
    let bytes = unchecked(alloc, alphabet, without_padding(alphabet, text.as_bytes()))?;
    if is_encoding(alphabet, &bytes, text.as_bytes()) {
        Ok(Some(bytes))
    } else {
        Ok(None)
    }
}

/// What stands before the padding, if the text is the base64 of any bytes.
fn without_padding(alphabet: Alphabet, text: &[u8]) -> &[u8]
    ensures { (bytes : List ℕ) → text.now ≡ encode_of (engine alphabet) bytes
        → result.now ≡ encode_symbols (symbols alphabet) bytes }
{
    match alphabet {
        Alphabet::Standard => before_padding(text),
        Alphabet::UrlSafe => text,
    }
}

/// What stands before the padding, however much there is.
fn before_padding(text: &[u8]) -> &[u8]
    ensures { (bytes : List ℕ) → text.now ≡ encode_of (engine Standard) bytes
        → result.now ≡ encode_symbols (symbols Standard) bytes }
{
    let mut rest = text;
    while let Some(front) = rest.strip_suffix(b"=") {
        rest = front;
    }
    rest
}

/// The bytes of a text without padding, if it is the base64 of any; else what its characters happen to give.
pub(crate) fn unchecked(
    alloc: Global,
    alphabet: Alphabet,
    text: &[u8],
) -> Result<Vec<u8>, AllocError>
    ensures found { IfOk result (λ found. (bytes : List ℕ) → IsBytes bytes
        → text.now ≡ encode_symbols (symbols alphabet) bytes → found.items ≡ bytes) }
    ensures bytes { IfOk result (λ found. IsBytes found.items) }
{
    let mut bytes = Vec::with_capacity(alloc, text.len() / 4 * 3 + 3)?;
    let mut rest = text;
    while let [one, two, three, four, after @ ..] = rest {
        bytes.extend_from_slice(&group(alphabet, *one, *two, *three, *four))?;
        rest = after;
    }
    push_last(alphabet, rest, &mut bytes)?;
    Ok(bytes)
}

/// The three bytes of four characters.
fn group(alphabet: Alphabet, one: u8, two: u8, three: u8, four: u8) -> [u8; 3]
    ensures group { (a b c : ℕ) → a < 256 → b < 256 → c < 256
        → one ∷ two ∷ three ∷ four ∷ [] ≡ encode_group (symbols alphabet) a b c → result ≡ a ∷ b ∷ c ∷ [] }
    ensures bytes { IsBytes result }
{
    let (one, two) = (alphabet.value(one) as u32, alphabet.value(two) as u32);
    let (three, four) = (alphabet.value(three) as u32, alphabet.value(four) as u32);
    let bits = ((one * 64 + two) * 64 + three) * 64 + four;
    [
        (bits / 65536 % 256) as u8,
        (bits / 256 % 256) as u8,
        (bits % 256) as u8,
    ]
}

/// Appends the bytes of the characters behind the groups.
fn push_last(alphabet: Alphabet, rest: &[u8], bytes: &mut Vec<u8>) -> Result<(), AllocError>
    requires { length rest.now < 4 }
    ensures last { OnOk result ((last : List ℕ) → IsBytes last
        → rest.now ≡ encode_symbols (symbols alphabet) last → bytes.new.items ≡ bytes.old.items ++ last) }
    ensures bytes { OnOk result (IsBytes bytes.old.items → IsBytes bytes.new.items) }
{
    match rest {
        [one, two] => {
            let [first, ..] = group(alphabet, *one, *two, b'A', b'A');
            bytes.extend_from_slice(&[first])
        }
        [one, two, three] => {
            let [first, second, _] = group(alphabet, *one, *two, *three, b'A');
            bytes.extend_from_slice(&[first, second])
        }
        [] | [_] => Ok(()),
        _ => unreachable!(),
    }
}
