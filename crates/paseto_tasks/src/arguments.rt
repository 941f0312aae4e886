//! The arguments of a command, apart from its key and its input.

ghost use Rattle.std.specs.Prelude.{◌≡◌};
ghost use Rattle.paseto_tasks.specs.Arguments.{format_of, is_pair, kind_of, type_of, version_of};

use rusty_paseto_core::{Footer, ImplicitAssertion};
use rusty_paseto_paserk::{PaserkType, PaserkVersion};

/// The kinds of keys that the program generates.
#[derive(Clone, Copy)]
pub enum Kind {
    /// `v1.local`
    V1Local,
    /// `v2.local`
    V2Local,
    /// `v2.public`
    V2Public,
    /// `v3.local`
    V3Local,
    /// `v3.public`
    V3Public,
    /// `v4.local`
    V4Local,
    /// `v4.public`
    V4Public,
}

impl Kind {
    /// The kind that an argument names.
    pub fn parse(word: &str) -> Option<Kind>
        ensures { result ≡ kind_of word.now }
    {
        match word {
            "v1.local" => Some(Kind::V1Local),
            "v2.local" => Some(Kind::V2Local),
            "v2.public" => Some(Kind::V2Public),
            "v3.local" => Some(Kind::V3Local),
            "v3.public" => Some(Kind::V3Public),
            "v4.local" => Some(Kind::V4Local),
            "v4.public" => Some(Kind::V4Public),
            _ => None,
        }
    }

    /// The type of the key that is generated: of a pair, the private half.
    pub fn key_type(self) -> PaserkType
        ensures { result ≡ type_of self }
    {
        match self {
            Kind::V1Local | Kind::V2Local | Kind::V3Local | Kind::V4Local => PaserkType::Local,
            Kind::V2Public | Kind::V3Public | Kind::V4Public => PaserkType::Secret,
        }
    }

    /// The version of the key that is generated.
    pub fn version(self) -> PaserkVersion
        ensures { result ≡ version_of self }
    {
        match self {
            Kind::V1Local => PaserkVersion::V1,
            Kind::V2Local | Kind::V2Public => PaserkVersion::V2,
            Kind::V3Local | Kind::V3Public => PaserkVersion::V3,
            Kind::V4Local | Kind::V4Public => PaserkVersion::V4,
        }
    }

    /// Whether keys of this kind are pairs.
    pub fn is_pair(self) -> bool
        ensures { result ≡ is_pair self }
    {
        match self {
            Kind::V1Local | Kind::V2Local | Kind::V3Local | Kind::V4Local => false,
            Kind::V2Public | Kind::V3Public | Kind::V4Public => true,
        }
    }
}

/// How a key is written.
#[derive(Clone, Copy)]
pub enum Format {
    /// `paserk`
    Paserk,
    /// `pem`
    Pem,
}

impl Format {
    /// The format that an argument names.
    pub fn parse(word: &str) -> Option<Format>
        ensures { result ≡ format_of word.now }
    {
        match word {
            "paserk" => Some(Format::Paserk),
            "pem" => Some(Format::Pem),
            _ => None,
        }
    }
}

/// What to do with a key and a text.
#[derive(Clone, Copy)]
pub enum Task {
    /// `encrypt`
    Encrypt,
    /// `decrypt`
    Decrypt,
    /// `sign`
    Sign,
    /// `verify`
    Verify,
}

/// The options for a token, apart from its claims.
#[derive(Clone, Copy)]
pub struct Options<'a> {
    /// Its footer.
    pub footer: Option<Footer<'a>>,
    /// The id of a key that the footer names.
    pub kid: Option<&'a str>,
    /// Its implicit assertion.
    pub assertion: Option<ImplicitAssertion<'a>>,
    /// When it expires, written as a moment.
    pub expires: Option<&'a str>,
    /// When it may first be used, written as a moment.
    pub not_before: Option<&'a str>,
    /// The moment at which it is checked.
    pub at: Option<&'a str>,
    /// How far clocks may differ in the check, written as a length of time.
    pub leeway: Option<&'a str>,
    /// The names of claims that it must have, whatever their values.
    pub required: &'a [&'a str],
}
