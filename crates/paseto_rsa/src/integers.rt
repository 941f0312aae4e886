//! INTEGERs of the distinguished encoding of ASN.1 (X.690).

ghost use Rattle.std.specs.Prelude.{◌≡◌, ◌↔◌, ℕ, ◌*◌, ◌^◌, ◌<◌, ◌≤◌, [], ◌∷◌, List, length, MatchOption, IsTrue};
ghost use Rattle.paseto_montgomery.specs.Octets.{os2ip};
ghost use Rattle.paseto_montgomery.specs.Words.{value, weight};
ghost use Rattle.paseto_rsa.specs.Integers.{AreIntegers, IsInteger, IsShortest};

use paseto_der::{Element, read_element};
use paseto_montgomery::from_short_octets;

// The tag of an INTEGER.
const INTEGER: u8 = 0x02;

/// A number, the lowest word first, and what follows its INTEGER.
#[derive(Drop)]
pub(crate) struct Number<'a, const N: usize> {
    pub(crate) words: [u64; N],
    pub(crate) behind: &'a [u8],
}

/// Three numbers, and what follows their INTEGERs.
#[derive(Drop)]
pub(crate) struct Triple<'a, const A: usize, const B: usize, const C: usize> {
    pub(crate) first: [u64; A],
    pub(crate) second: [u64; B],
    pub(crate) third: [u64; C],
    pub(crate) behind: &'a [u8],
}

// Whether two octets may begin the contents of an INTEGER that is not negative. Each comparison is one that refuses the
// number, so that those of a private key tell no more than that it is read.
fn is_front(first: u8, second: u8) -> bool
    ensures { IsTrue result ↔ ((first < 128) × (first ≡ 0 → 128 ≤ second)) }
{
    let front = 256 * first as u32 + second as u32;
    front >= 0x80 && front < 0x8000
}

// Whether octets are the contents of an INTEGER that is not negative.
fn is_shortest(contents: &[u8]) -> bool
    ensures { IsTrue result ↔ IsShortest contents.now }
{
    match contents {
        [] => false,
        [first] => *first < 0x80,
        [first, second, ..] => is_front(*first, *second),
    }
}

// The contents of an INTEGER, without the octet that stands there for the sign alone where they have one more than
// `most`. Which octets are left is told by their count.
fn digits(contents: &[u8], most: usize) -> Option<&[u8]>
    requires { IsShortest contents.now }
    ensures { MatchOption result (256 ^ most ≤ os2ip contents.now)
        (λ d. (os2ip d.now ≡ os2ip contents.now) × (length d.now ≤ most)) }
{
    if contents.len() <= most {
        return Some(contents);
    }
    let (_sign, rest) = contents.split_at(1);
    if rest.len() > most {
        return None;
    }
    if contents[0] != 0 {
        return None;
    }
    Some(rest)
}

/// The number whose INTEGER the octets begin with, if it has at most N words.
pub(crate) fn read_number<const N: usize>(octets: &[u8]) -> Option<Number<'_, N>>
    ensures { MatchOption result
        ((x : ℕ) (behind : List ℕ) → x < weight N → IsInteger x behind octets.now → ⊥)
        (λ n. IsInteger (value n.words N) n.behind.now octets.now × (value n.words N < weight N)) }
{
    let Element { contents, behind } = read_element(INTEGER, octets)?;
    if !is_shortest(contents) {
        return None;
    }
    let digits = match digits(contents, 8 * N) {
        Some(digits) => digits,
        None => return None,
    };
    Some(Number {
        words: from_short_octets(digits),
        behind,
    })
}

/// The three numbers whose INTEGERs the octets begin with, if they have at most A, B and C words.
pub(crate) fn read_triple<const A: usize, const B: usize, const C: usize>(
    octets: &[u8],
) -> Option<Triple<'_, A, B, C>>
    ensures { MatchOption result
        ((x y z : ℕ) (behind : List ℕ) → x < weight A → y < weight B → z < weight C
        → AreIntegers (x ∷ y ∷ z ∷ []) behind octets.now → ⊥)
        (λ t. AreIntegers (value t.first A ∷ value t.second B ∷ value t.third C ∷ [])
        t.behind.now octets.now × (value t.first A < weight A) × (value t.second B < weight B)
        × (value t.third C < weight C)) }
{
    let first = match read_number::<A>(octets) {
        Some(number) => number,
        None => return None,
    };
    let second = match read_number::<B>(first.behind) {
        Some(number) => number,
        None => return None,
    };
    let third = match read_number::<C>(second.behind) {
        Some(number) => number,
        None => return None,
    };
    Some(Triple {
        first: first.words,
        second: second.words,
        third: third.words,
        behind: third.behind,
    })
}
