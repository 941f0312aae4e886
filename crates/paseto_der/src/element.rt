//! Elements of the distinguished encoding of ASN.1 (X.690).

ghost use Rattle.std.specs.Prelude.{◌≡◌, ℕ, ◌++◌, List, slice_index, MatchOption};
ghost use Rattle.paseto_der.specs.Element.{der_length, element};

/// The contents of an element, and what follows it.
#[derive(Drop)]
pub struct Element<'a> {
    pub contents: &'a [u8],
    pub behind: &'a [u8],
}

// A length, and what stands behind its octets.
#[derive(Drop)]
struct Length<'a> {
    length: usize,
    behind: &'a [u8],
}

// The length that stands at the front behind the octet 0x81: an octet that is no length by itself.
fn read_one(octets: &[u8]) -> Option<Length<'_>>
    requires { slice_index octets.now 0 ≡ 0x81 }
    ensures { MatchOption result
        ((n : ℕ) (behind : List ℕ) → octets.now ≡ der_length n ++ behind → ⊥)
        (λ l. octets.now ≡ der_length l.length ++ l.behind.now) }
{
    if octets.len() < 2 {
        return None;
    }
    let low = octets[1];
    if low < 0x80 {
        return None;
    }
    let (_size, behind) = octets.split_at(2);
    Some(Length {
        length: low as usize,
        behind,
    })
}

// The length that stands at the front behind the octet 0x82: two octets, the first of which is not 0.
fn read_two(octets: &[u8]) -> Option<Length<'_>>
    requires { slice_index octets.now 0 ≡ 0x82 }
    ensures { MatchOption result
        ((n : ℕ) (behind : List ℕ) → octets.now ≡ der_length n ++ behind → ⊥)
        (λ l. octets.now ≡ der_length l.length ++ l.behind.now) }
{
    if octets.len() < 3 {
        return None;
    }
    let length = 256 * octets[1] as usize + octets[2] as usize;
    if length < 256 {
        return None;
    }
    let (_size, behind) = octets.split_at(3);
    Some(Length { length, behind })
}

// The length whose octets stand at the front, and are as few as there can be.
fn read_length(octets: &[u8]) -> Option<Length<'_>>
    ensures { MatchOption result
        ((n : ℕ) (behind : List ℕ) → octets.now ≡ der_length n ++ behind → ⊥)
        (λ l. octets.now ≡ der_length l.length ++ l.behind.now) }
{
    if octets.is_empty() {
        return None;
    }
    let first = octets[0];
    if first < 0x80 {
        let (_size, behind) = octets.split_at(1);
        return Some(Length {
            length: first as usize,
            behind,
        });
    }
    if first == 0x81 {
        return read_one(octets);
    }
    if first == 0x82 {
        return read_two(octets);
    }
    None
}

/// The element with this tag at the beginning of the octets, whose contents have at most 65,535 octets.
///
/// `None` is returned if the octets begin otherwise: with another tag, with a length that is not in the fewest octets,
/// or with fewer octets of contents than the length says. Does not allocate.
///
/// Source: X.690, sections 8.1 and 10.1.
pub fn read_element(tag: u8, octets: &[u8]) -> Option<Element<'_>>
    ensures { MatchOption result
        ((contents behind : List ℕ) → octets.now ≡ element tag contents ++ behind → ⊥)
        (λ e. octets.now ≡ element tag e.contents.now ++ e.behind.now) }
{
    if octets.is_empty() {
        return None;
    }
    if octets[0] != tag {
        return None;
    }
    let (_tag, rest) = octets.split_at(1);
    let Length { length, behind } = read_length(rest)?;
    if behind.len() < length {
        return None;
    }
    let (contents, behind) = behind.split_at(length);
    Some(Element { contents, behind })
}
