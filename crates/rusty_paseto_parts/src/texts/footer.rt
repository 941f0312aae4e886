//! The footer of a token.

ghost use Rattle.std.specs.Prelude.{◌≡◌, ℕ, List, [], Option, Some, option_map, nat_eq, Err, IfOk, IfErr, MatchResult};
ghost use Rattle.std.specs.List.{slice_get};
ghost use Rattle.std.specs.String.{string_bytes};
ghost use Rattle.std.specs.Cmp.Lexicographic.{nat_list_eq_equiv, pointwise};
ghost use Rattle.std.specs.Cmp.{on_equiv, on_per, partial_equiv_from_equiv};
ghost use Rattle.rusty_paseto_parts.specs.Error.{IsMemory};
ghost use Rattle.rusty_paseto_parts.specs.Footer.{footer_text};
ghost use Rattle.rusty_paseto_parts.specs.Section.{HasCount, sections};
ghost use Rattle.rusty_paseto_parts.specs.UntrustedToken.{HasFooterText, IsTokenFooterFault};

use crate::error::PasetoError;
use crate::untrusted_token::UntrustedToken;
use std::alloc::Global;
use std::fmt;

/// A text in a token that is authenticated but not encrypted.
#[derive(Clone, Copy, Debug)]
pub struct Footer<'a> {
    text: &'a str,
}

impl<'a> Footer<'a> {
    /// The text.
    pub fn as_str(&self) -> &'a str
        ensures { result.now ≡ footer_text self.now }
    {
        self.text
    }

    /// The bytes of the text, in UTF-8.
    pub fn as_bytes(&self) -> &'a [u8]
        ensures { result.now ≡ footer_text self.now }
    {
        self.as_str().as_bytes()
    }

    /// The text of a token's footer, before the token is verified, or `None` if it has no fourth section: the result of
    /// `UntrustedToken::footer_str`. Do not trust it.
    ///
    /// `IncorrectSize` is returned if and only if there are not three or four sections, even if memory is short;
    /// `PayloadBase64Decode` if and only if the fourth section is not valid base64url; `Utf8Error` if and only if it
    /// encodes bytes that are not UTF-8.
    pub fn try_from_token(alloc: Global, token: &str) -> Result<Option<String>, PasetoError>
        ensures ok { IfOk result (λ found. HasCount (sections token.now)
            × HasFooterText (slice_get (sections token.now) 3) (option_map string_bytes found)) }
        ensures read { (text : Option (List ℕ)) → HasCount (sections token.now) → HasFooterText
            (slice_get (sections token.now) 3) text
            → MatchResult result (λ found. option_map string_bytes found ≡ text) IsMemory }
        ensures count { ¬ HasCount (sections token.now) → result ≡ Err PasetoError.IncorrectSize }
        ensures err { IfErr result (IsTokenFooterFault (sections token.now)) }
    {
        UntrustedToken::try_parse(token)?.footer_str(alloc)
    }
}

impl<'a> From<&'a str> for Footer<'a> {
    ghost from_gives = { λ text made. footer_text made ≡ text.now };

    fn from(text: &'a str) -> Footer<'a> {
        Footer { text }
    }
}

impl Default for Footer<'_> {
    ghost is_default = { λ made. footer_text made ≡ [] };

    fn default() -> Self {
        Footer { text: "" }
    }
}

impl fmt::Display for Footer<'_> {
    ghost output = { λ shown. Some (footer_text shown) };

    fn fmt<W: fmt::Write>(&self, f: &mut fmt::Formatter<W>) -> fmt::Result {
        f.write_str(self.as_str())
    }
}

impl PartialEq for Footer<'_> {
    ghost eq = { λ a b. pointwise nat_eq (footer_text a) (footer_text b) };

    ghost laws = { on_per (λ x. footer_text x) (partial_equiv_from_equiv nat_list_eq_equiv) };

    fn eq(&self, other: &Self) -> bool {
        self.as_str() == other.as_str()
    }
}

impl Eq for Footer<'_> {
    ghost laws = { on_equiv (λ x. footer_text x) nat_list_eq_equiv };
}
