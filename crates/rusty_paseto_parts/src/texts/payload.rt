//! The payload of a token.

ghost use Rattle.std.specs.Prelude.{◌≡◌, [], Some, nat_eq};
ghost use Rattle.std.specs.Cmp.Lexicographic.{nat_list_eq_equiv, pointwise};
ghost use Rattle.std.specs.Cmp.{on_equiv, on_per, partial_equiv_from_equiv};
ghost use Rattle.rusty_paseto_parts.specs.Payload.{payload_text};

use std::fmt;

/// The text that a token carries.
#[derive(Clone, Copy, Debug)]
pub struct Payload<'a> {
    text: &'a str,
}

impl<'a> Payload<'a> {
    /// The text.
    pub fn as_str(&self) -> &'a str
        ensures { result.now ≡ payload_text self.now }
    {
        self.text
    }

    /// The bytes of the text, in UTF-8.
    pub fn as_bytes(&self) -> &'a [u8]
        ensures { result.now ≡ payload_text self.now }
    {
        self.as_str().as_bytes()
    }
}

impl<'a> From<&'a str> for Payload<'a> {
    ghost from_gives = { λ text made. payload_text made ≡ text.now };

    fn from(text: &'a str) -> Payload<'a> {
        Payload { text }
    }
}

impl Default for Payload<'_> {
    ghost is_default = { λ made. payload_text made ≡ [] };

    fn default() -> Self {
        Payload { text: "" }
    }
}

impl fmt::Display for Payload<'_> {
    ghost output = { λ shown. Some (payload_text shown) };

    fn fmt<W: fmt::Write>(&self, f: &mut fmt::Formatter<W>) -> fmt::Result {
        f.write_str(self.as_str())
    }
}

impl PartialEq for Payload<'_> {
    ghost eq = { λ a b. pointwise nat_eq (payload_text a) (payload_text b) };

    ghost laws = { on_per (λ x. payload_text x) (partial_equiv_from_equiv nat_list_eq_equiv) };

    fn eq(&self, other: &Self) -> bool {
        self.as_str() == other.as_str()
    }
}

impl Eq for Payload<'_> {
    ghost laws = { on_equiv (λ x. payload_text x) nat_list_eq_equiv };
}
