//! The characters of base64.

ghost use Rattle.std.specs.Prelude.{◌≡◌, ◌<◌, ℕ, slice_index};
ghost use Rattle.paseto_base64.specs.Alphabet.{symbols};

use crate::masks::{above, equal};

/// Which characters stand for 62 and 63.
#[derive(Clone, Copy, Debug, PartialEq, Eq)]
pub enum Alphabet {
    /// `+` and `/`, and padding behind (RFC 4648, section 4).
    Standard,
    /// `-` and `_`, and no padding (RFC 4648, section 5).
    UrlSafe,
}

impl Alphabet {
    /// The character of a value below 64.
    pub(crate) fn symbol(self, value: u8) -> u8
        requires { value < 64 }
        ensures value { result ≡ slice_index (symbols self) value }
        ensures ascii { result < 128 }
    {
        let value = value as u32;
        let (down, up) = match self {
            Alphabet::Standard => (15, 3),
            Alphabet::UrlSafe => (13, 49),
        };
        let raised = 65 + value + above(value, 25, 6) + above(value, 62, up);
        let lowered = above(value, 51, 75) + above(value, 61, down);
        (raised.wrapping_sub(lowered) % 128) as u8
    }

    /// The value of a character of the alphabet. Of another character it is any number.
    pub(crate) fn value(self, character: u8) -> u8
        ensures { (value : ℕ) → value < 64 → character ≡ slice_index (symbols self) value
            → result ≡ value }
    {
        let byte = character as u32;
        let (plus, to_plus, slash, to_slash) = match self {
            Alphabet::Standard => (43, 15, 47, 12),
            Alphabet::UrlSafe => (45, 13, 95, 33),
        };
        let raised = byte + 4 + equal(byte, plus, to_plus) + equal(byte, slash, to_slash);
        let lowered = above(byte, 64, 69) + above(byte, 96, 6);
        (raised.wrapping_sub(lowered) % 64) as u8
    }
}
