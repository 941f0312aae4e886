//! Of `paseto_der`.

use paseto_der::read_element;

/// The contents of a SEQUENCE with nothing behind it.
pub fn sequence(octets: &[u8]) -> Option<&[u8]> {
    let element = read_element(0x30, octets)?;
    element.behind.is_empty().then_some(element.contents)
}
