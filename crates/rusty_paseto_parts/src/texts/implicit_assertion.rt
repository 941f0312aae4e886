//! The implicit assertion of a token.

ghost use Rattle.std.specs.Prelude.{◌≡◌, [], Some, nat_eq};
ghost use Rattle.std.specs.Cmp.Lexicographic.{nat_list_eq_equiv, pointwise};
ghost use Rattle.std.specs.Cmp.{on_equiv, on_per, partial_equiv_from_equiv};
ghost use Rattle.rusty_paseto_parts.specs.ImplicitAssertion.{assertion_text};

use std::fmt;

/// A text that is not in the token, but is authenticated with it.
#[derive(Clone, Copy, Debug)]
pub struct ImplicitAssertion<'a> {
    text: &'a str,
}

impl<'a> ImplicitAssertion<'a> {
    /// The text.
    pub fn as_str(&self) -> &'a str
        ensures { result.now ≡ assertion_text self.now }
    {
        self.text
    }

    /// The bytes of the text, in UTF-8.
    pub fn as_bytes(&self) -> &'a [u8]
        ensures { result.now ≡ assertion_text self.now }
    {
        self.as_str().as_bytes()
    }
}

impl<'a> From<&'a str> for ImplicitAssertion<'a> {
    ghost from_gives = { λ text made. assertion_text made ≡ text.now };

    fn from(text: &'a str) -> ImplicitAssertion<'a> {
        ImplicitAssertion { text }
    }
}

impl Default for ImplicitAssertion<'_> {
    ghost is_default = { λ made. assertion_text made ≡ [] };

    fn default() -> Self {
        ImplicitAssertion { text: "" }
    }
}

impl fmt::Display for ImplicitAssertion<'_> {
    ghost output = { λ shown. Some (assertion_text shown) };

    fn fmt<W: fmt::Write>(&self, f: &mut fmt::Formatter<W>) -> fmt::Result {
        f.write_str(self.as_str())
    }
}

impl PartialEq for ImplicitAssertion<'_> {
    ghost eq = { λ a b. pointwise nat_eq (assertion_text a) (assertion_text b) };

    ghost laws = { on_per (λ x. assertion_text x) (partial_equiv_from_equiv nat_list_eq_equiv) };

    fn eq(&self, other: &Self) -> bool {
        self.as_str() == other.as_str()
    }
}

impl Eq for ImplicitAssertion<'_> {
    ghost laws = { on_equiv (λ x. assertion_text x) nat_list_eq_equiv };
}
