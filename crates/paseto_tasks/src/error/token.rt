//! Tokens, texts and wrapped keys that are refused.

ghost use Rattle.std.specs.Prelude.{◌≡◌};
ghost use Rattle.paseto_tasks.specs.Error.Token.{refusal_text, token_text};

use crate::token_kind::TokenKind;
use rusty_paseto_core::PasetoError;

/// Why a token, the content of a new one, or a wrapped key was refused.
#[derive(Debug, Drop)]
pub enum TokenError {
    /// A text or a token was refused.
    Refused(PasetoError),
    /// The token is of the first kind, but the key is for tokens of the second.
    OtherKind(TokenKind, TokenKind),
    /// A claim in the arguments holds a number that is not a 64-bit integer.
    OddClaim,
    /// The footer of a token differs from the required one.
    OtherFooter,
    /// The token has no footer, which a key ring needs to find its key.
    NoFooter,
    /// The footer of the token is not a JSON object.
    NotAnObject,
    /// The footer of the token has no key id.
    NoKeyId,
    /// The text of the token is not JSON.
    NotJson,
    /// A claim of the token holds a number that is not a 64-bit integer.
    OddNumber,
    /// The text is a JWT.
    Jwt,
    /// The text is neither a token nor a key.
    NoToken,
    /// The input is longer than it may be.
    TooLong,
    /// A token, or the content of a new one, was refused, as this line says.
    Unfit(String),
    /// The tag of a wrapped key is wrong under the password or the key that is to open it.
    Wrapped,
}

impl TokenError {
    /// The message on standard error, which follows the name of the input.
    pub(crate) fn text(&self) -> &str
        ensures { result.now ≡ token_text self.now }
    {
        use TokenError::*;
        match self {
            Refused(source) => refusal_text(source),
            OtherKind(_, _) => "the token is ",
            OddClaim => "--claim: a number in a claim must be a whole number of at most 64 bits",
            OtherFooter =>
                "the token has another footer: give it by --footer or --footer-kid; paseto inspect shows it",
            NoFooter => "the token has no footer, which names its key in a ring",
            NotAnObject => "the footer of the token is not a JSON object",
            NoKeyId => "the footer of the token names no key: it has no string under kid",
            NotJson => "the text of the token is not valid JSON",
            OddNumber => "a claim of the token has a number that is not a whole number of 64 bits",
            Jwt => "a JWT, and not a PASETO token",
            NoToken => "not a PASETO token",
            TooLong => "longer than it may be: 64000000 bytes, or as many as --longest says",
            Unfit(text) => text.as_str(),
            Wrapped => "wrong key or password, or the text was changed",
        }
    }
}

/// The message for a text or a token that was refused: the text of the error, unless that leaves
/// open what to do.
fn refusal_text(source: &PasetoError) -> &'static str
    ensures { result.now ≡ refusal_text source.now }
{
    match source {
        PasetoError::Cryption | PasetoError::ChaChaCipherError | PasetoError::InvalidSignature =>
            "wrong key, wrong footer or assertion, or the token was changed",
        PasetoError::WrongHeader => "not a token of a supported kind",
        _ => source.text(),
    }
}
