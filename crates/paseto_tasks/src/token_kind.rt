//! The kinds of tokens, for lines on standard error.

ghost use Rattle.std.specs.Prelude.{◌≡◌};
ghost use Rattle.paseto_tasks.specs.TokenKind.{NamesKind, kind_read_by, kind_text};

use rusty_paseto_paserk::{PaserkType, PaserkVersion};

/// A kind of token: a version and a purpose, or another beginning.
#[derive(Clone, Copy, Debug, PartialEq, Eq)]
pub enum TokenKind {
    /// `v1.local`
    V1Local,
    /// `v1.public`
    V1Public,
    /// `v2.local`
    V2Local,
    /// `v2.public`
    V2Public,
    /// `v3.local`
    V3Local,
    /// `v3.public`
    V3Public,
    /// `v4.local`
    V4Local,
    /// `v4.public`
    V4Public,
    /// A text that begins like none of these.
    Other,
}

impl TokenKind {
    /// The kind that the beginning of a token names.
    pub fn of(token: &str) -> TokenKind
        ensures { NamesKind result token.now }
    {
        if token.starts_with("v1.local.") {
            TokenKind::V1Local
        } else if token.starts_with("v1.public.") {
            TokenKind::V1Public
        } else if token.starts_with("v2.local.") {
            TokenKind::V2Local
        } else if token.starts_with("v2.public.") {
            TokenKind::V2Public
        } else if token.starts_with("v3.local.") {
            TokenKind::V3Local
        } else if token.starts_with("v3.public.") {
            TokenKind::V3Public
        } else if token.starts_with("v4.local.") {
            TokenKind::V4Local
        } else if token.starts_with("v4.public.") {
            TokenKind::V4Public
        } else {
            TokenKind::Other
        }
    }

    /// The kind of the tokens that keys of a version and a type are for.
    pub fn read_by(version: PaserkVersion, kind: PaserkType) -> TokenKind
        ensures { result ≡ kind_read_by version kind }
    {
        match (version, kind) {
            (PaserkVersion::V1, PaserkType::Local) => TokenKind::V1Local,
            (PaserkVersion::V2, PaserkType::Local) => TokenKind::V2Local,
            (PaserkVersion::V3, PaserkType::Local) => TokenKind::V3Local,
            (PaserkVersion::V4, PaserkType::Local) => TokenKind::V4Local,
            (PaserkVersion::V1, _) => TokenKind::V1Public,
            (PaserkVersion::V2, _) => TokenKind::V2Public,
            (PaserkVersion::V3, _) => TokenKind::V3Public,
            (PaserkVersion::V4, _) => TokenKind::V4Public,
        }
    }

    /// The name of the kind.
    pub fn text(self) -> &'static str
        ensures { result.now ≡ kind_text self }
    {
        match self {
            TokenKind::V1Local => "v1.local",
            TokenKind::V1Public => "v1.public",
            TokenKind::V2Local => "v2.local",
            TokenKind::V2Public => "v2.public",
            TokenKind::V3Local => "v3.local",
            TokenKind::V3Public => "v3.public",
            TokenKind::V4Local => "v4.local",
            TokenKind::V4Public => "v4.public",
            TokenKind::Other => "of no known kind",
        }
    }
}
