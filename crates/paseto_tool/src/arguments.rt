//! The arguments after the program's name.

ghost use Rattle.std.specs.Prelude.{◌↔◌, ◌∷◌, ℕ, List, Option, codes, IfSome, IsNone};
ghost use Rattle.paseto_tool.specs.Arguments.{words_of, AreLast, IsUsageFault, Asks, given_footer, given_assertion};

use crate::inspect::Inspection;
use crate::open::Opening;
use crate::seal::Sealing;
use crate::version::Version;
use rusty_paseto::paseto_core::{Footer, ImplicitAssertion};

/// The command that the arguments give.
#[derive(Clone, Copy)]
pub enum Command<'a> {
    /// `inspect TOKEN`
    Inspect(Inspection<'a>),
    /// `seal VERSION KEY NONCE [FOOTER [ASSERTION]]`
    Seal(Sealing<'a>),
    /// `open VERSION KEY [FOOTER [ASSERTION]]`
    Open(Opening<'a>),
}

impl<'a> Command<'a> {
    /// Parses the arguments, or returns `None` if they are not a command. Only their number, the
    /// command and the version are checked.
    pub fn parse(words: &'a [String]) -> Option<Command<'a>>
        ensures asked { IfSome result (Asks (words_of words.now)) }
        ensures fault { IsNone result ↔ IsUsageFault (words_of words.now) }
    {
        let [command, rest @ ..] = words else {
            return None;
        };
        match command.as_str() {
            "inspect" => Command::inspection(rest),
            "seal" => Command::sealing(rest),
            "open" => Command::opening(rest),
            _ => None,
        }
    }

    /// Parses the arguments after `inspect`.
    fn inspection(words: &'a [String]) -> Option<Command<'a>>
        ensures asked { IfSome result (Asks (codes "inspect" ∷ words_of words.now)) }
        ensures fault { IsNone result ↔ IsUsageFault (codes "inspect" ∷ words_of words.now) }
    {
        let [token] = words else {
            return None;
        };
        let token = token.as_str();
        Some(Command::Inspect(Inspection { token }))
    }

    /// Parses the arguments after `seal`.
    fn sealing(words: &'a [String]) -> Option<Command<'a>>
        ensures asked { IfSome result (Asks (codes "seal" ∷ words_of words.now)) }
        ensures fault { IsNone result ↔ IsUsageFault (codes "seal" ∷ words_of words.now) }
    {
        let [version, key, nonce, rest @ ..] = words else {
            return None;
        };
        let version = Version::parse(version)?;
        let attachments = Attachments::parse(version, rest)?;
        let (key, nonce) = (key.as_str(), nonce.as_str());
        Some(Command::Seal(Sealing {
            version,
            key,
            nonce,
            attachments,
        }))
    }

    /// Parses the arguments after `open`.
    fn opening(words: &'a [String]) -> Option<Command<'a>>
        ensures asked { IfSome result (Asks (codes "open" ∷ words_of words.now)) }
        ensures fault { IsNone result ↔ IsUsageFault (codes "open" ∷ words_of words.now) }
    {
        let [version, key, rest @ ..] = words else {
            return None;
        };
        let version = Version::parse(version)?;
        let attachments = Attachments::parse(version, rest)?;
        let key = key.as_str();
        Some(Command::Open(Opening {
            version,
            key,
            attachments,
        }))
    }
}

/// The footer and the implicit assertion, if they are given.
#[derive(Clone, Copy)]
pub struct Attachments<'a> {
    pub footer: Option<Footer<'a>>,
    pub implicit_assertion: Option<ImplicitAssertion<'a>>,
}

impl<'a> Attachments<'a> {
    /// Parses the last arguments of a command. Returns `None` if there are more than two, or two for a
    /// version whose tokens are not bound to an implicit assertion.
    fn parse(version: Version, words: &'a [String]) -> Option<Attachments<'a>>
        ensures last { IfSome result (λ attachments.
            AreLast version (words_of words.now) (given_footer attachments)
            (given_assertion attachments)) }
        ensures fault { IsNone result → (footer assertion : Option (List ℕ))
            → ¬ AreLast version (words_of words.now) footer assertion }
    {
        match words {
            [] => Some(Attachments {
                footer: None,
                implicit_assertion: None,
            }),
            [footer] => Some(Attachments {
                footer: Some(Footer::from(footer.as_str())),
                implicit_assertion: None,
            }),
            [footer, assertion] if version.binds_assertion() => Some(Attachments {
                footer: Some(Footer::from(footer.as_str())),
                implicit_assertion: Some(ImplicitAssertion::from(assertion.as_str())),
            }),
            _ => None,
        }
    }
}
