//! A token's sections, before the token is verified.

ghost use Rattle.std.specs.Prelude.{◌≡◌, ◌↔◌, ℕ, List, Option, Some, Err, length, true, false, option_map, IsOk, IfOk, IfErr, MatchResult};
ghost use Rattle.std.specs.String.{string_bytes};
ghost use Rattle.rusty_paseto_parts.specs.Error.{IsMemory};
ghost use Rattle.rusty_paseto_parts.specs.Limit.{is_beyond};
ghost use Rattle.rusty_paseto_parts.specs.Section.{HasCount, sections};
ghost use Rattle.rusty_paseto_parts.specs.UntrustedToken.{AreKept, HasFooterBytes, HasFooterText, IsFooterFault, IsFooterTextFault, footer_section, purpose_section, version_section};

use crate::error::PasetoError;
use crate::limit::is_longer;
use crate::section::{from_section, split_token};
use std::alloc::Global;

/// What a token says about itself before it is verified, so that a service can choose a key for it.
///
/// Do not trust any of it: no tag or signature has been checked, and anyone can write such a text.
///
/// ```rust
/// use rusty_paseto_parts::{PasetoError, UntrustedToken};
///
/// /// Whether a token says that it is a local one of version 4.
/// pub fn is_v4_local(token: &str) -> Result<bool, PasetoError> {
///     let untrusted = UntrustedToken::try_parse(token)?;
///     Ok(untrusted.version() == "v4" && untrusted.purpose() == "local")
/// }
/// ```
#[derive(Clone, Copy, Debug)]
pub struct UntrustedToken<'a> {
    version: &'a str,
    purpose: &'a str,
    footer: Option<&'a str>,
}

impl<'a> UntrustedToken<'a> {
    /// Keeps the sections of a token, which it borrows. Does not allocate.
    ///
    /// `IncorrectSize` is returned if and only if there are not three or four sections. They may be empty, and are not
    /// checked otherwise.
    pub fn try_parse(token: &'a str) -> Result<UntrustedToken<'a>, PasetoError>
        ensures kept { IfOk result (AreKept (sections token.now)) }
        ensures count { IsOk result ↔ HasCount (sections token.now) }
        ensures err { IfErr result (λ error. error ≡ PasetoError.IncorrectSize) }
    {
        let Some(parts) = split_token(token) else {
            return Err(PasetoError::IncorrectSize);
        };
        let required = parts.0;
        Ok(UntrustedToken {
            version: required[0],
            purpose: required[1],
            footer: parts.1,
        })
    }

    /// The same for a token of at most this many bytes, for services on the internet: `footer_decoded` and `footer_str`
    /// allocate memory for the footer, which anybody may have written. Does not allocate.
    ///
    /// `TooLong` is returned if and only if the token has more bytes, whatever it is, and otherwise the result of
    /// `try_parse`.
    ///
    /// ```rust
    /// use rusty_paseto_parts::{PasetoError, UntrustedToken};
    /// use std::alloc::Global;
    ///
    /// /// The footer of a token, of which no more than 4,096 bytes are read.
    /// pub fn short_footer(alloc: Global, token: &str) -> Result<Option<String>, PasetoError> {
    ///     UntrustedToken::try_parse_within(token, 4_096)?.footer_str(alloc)
    /// }
    /// ```
    pub fn try_parse_within(
        token: &'a str,
        longest: usize,
    ) -> Result<UntrustedToken<'a>, PasetoError>
        ensures long { is_beyond (Some longest) (length token.now) ≡ true
            → result ≡ Err PasetoError.TooLong }
        ensures kept { IfOk result (AreKept (sections token.now)) }
        ensures count { is_beyond (Some longest) (length token.now) ≡ false
            → (IsOk result ↔ HasCount (sections token.now)) }
        ensures err { is_beyond (Some longest) (length token.now) ≡ false
            → IfErr result (λ error. error ≡ PasetoError.IncorrectSize) }
    {
        if is_longer(token, Some(longest)) {
            return Err(PasetoError::TooLong);
        }
        UntrustedToken::try_parse(token)
    }

    /// The first section, whatever it is. In a valid token it is the version, for example `v4`.
    pub fn version(&self) -> &'a str
        ensures { result.now ≡ version_section self.now }
    {
        self.version
    }

    /// The second section, whatever it is. In a valid token it is the purpose, for example `local`.
    pub fn purpose(&self) -> &'a str
        ensures { result.now ≡ purpose_section self.now }
    {
        self.purpose
    }

    /// The fourth section, still encoded, or `None` if there are only three.
    pub fn footer_base64(&self) -> Option<&'a str>
        ensures { option_map (λ section. section.now) result ≡ footer_section self.now }
    {
        self.footer
    }

    /// The bytes of the footer, or `None` if there is no fourth section.
    ///
    /// `PayloadBase64Decode` is returned if and only if the fourth section is not valid base64url. The empty section
    /// encodes no bytes.
    pub fn footer_decoded(&self, alloc: Global) -> Result<Option<Vec<u8>>, PasetoError>
        ensures ok { IfOk result (λ found. HasFooterBytes (footer_section self.now)
            (option_map (λ bytes. bytes.items) found)) }
        ensures read { (footer : Option (List ℕ)) → HasFooterBytes (footer_section self.now) footer
            → MatchResult result (λ found. option_map (λ bytes. bytes.items) found ≡ footer)
            IsMemory }
        ensures err { IfErr result (IsFooterFault (footer_section self.now)) }
    {
        match self.footer {
            Some(section) => Ok(Some(from_section(alloc, section)?)),
            None => Ok(None),
        }
    }

    /// The text of the footer, or `None` if there is no fourth section.
    ///
    /// `PayloadBase64Decode` is returned if and only if the fourth section is not valid base64url, and `Utf8Error` if
    /// and only if it encodes bytes that are not UTF-8.
    pub fn footer_str(&self, alloc: Global) -> Result<Option<String>, PasetoError>
        ensures ok { IfOk result (λ found. HasFooterText (footer_section self.now)
            (option_map string_bytes found)) }
        ensures read { (text : Option (List ℕ)) → HasFooterText (footer_section self.now) text
            → MatchResult result (λ found. option_map string_bytes found ≡ text) IsMemory }
        ensures err { IfErr result (IsFooterTextFault (footer_section self.now)) }
    {
        let Some(bytes) = self.footer_decoded(alloc)? else {
            return Ok(None);
        };
        match String::from_utf8(bytes) {
            Ok(text) => Ok(Some(text)),
            Err(error) => Err(PasetoError::Utf8Error {
                source: error.utf8_error(),
            }),
        }
    }
}
