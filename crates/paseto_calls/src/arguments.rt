//! Converting C's arguments for the library.

ghost use Rattle.std.specs.Prelude.{◌≡◌, [], ◌∷◌, IsUtf8, MatchResult, is_some};
ghost use Rattle.rusty_paseto_core.specs.Context.{assertion_of, footer_of};
ghost use Rattle.paseto_calls.specs.Arguments.{AreUtf8, has_bytes};

use crate::refusal::Refusal;
use rusty_paseto_core::{Footer, ImplicitAssertion};
use std::str;

/// The arguments that must be UTF-8: a text or a token, a footer, and an implicit assertion. An empty footer or
/// implicit assertion means that there is none.
#[derive(Clone, Copy)]
pub struct Texts<'a> {
    pub text: &'a str,
    pub footer: Option<Footer<'a>>,
    pub assertion: Option<ImplicitAssertion<'a>>,
}

impl<'a> Texts<'a> {
    /// The three of them, or `NotUtf8`.
    pub(crate) fn take(
        text: &'a [u8],
        footer: &'a [u8],
        assertion: &'a [u8],
    ) -> Result<Texts<'a>, Refusal>
        ensures { let texts = text.now ∷ footer.now ∷ assertion.now ∷ [] in
            MatchResult result
            (λ taken. (taken.text.now ≡ text.now) × (footer_of taken.footer ≡ footer.now)
            × (is_some taken.footer ≡ has_bytes footer.now)
            × (assertion_of taken.assertion ≡ assertion.now)
            × (is_some taken.assertion ≡ has_bytes assertion.now) × AreUtf8 texts)
            (λ refusal. (refusal ≡ Refusal.NotUtf8) × ¬ AreUtf8 texts) }
    {
        let text = str_of(text)?;
        let footer = str_of(footer)?;
        let assertion = str_of(assertion)?;
        Ok(Texts {
            text,
            footer: (!footer.is_empty()).then_some(Footer::from(footer)),
            assertion: (!assertion.is_empty()).then_some(ImplicitAssertion::from(assertion)),
        })
    }
}

/// A text of these bytes, or `NotUtf8`.
pub fn str_of(bytes: &[u8]) -> Result<&str, Refusal>
    ensures { MatchResult result (λ text. (text.now ≡ bytes.now) × IsUtf8 bytes.now)
        (λ refusal. (refusal ≡ Refusal.NotUtf8) × ¬ IsUtf8 bytes.now) }
{
    str::from_utf8(bytes).map_err(|_| Refusal::NotUtf8)
}
