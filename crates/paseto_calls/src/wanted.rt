//! Which keys a call takes.

ghost use Rattle.std.specs.Prelude.{◌≡◌};
ghost use Rattle.paseto_calls.specs.HeldKey.{is_wanted};

use rusty_paseto_paserk::PaserkType;

/// The types of keys that a call takes.
#[derive(Clone, Copy, Debug)]
pub enum Wanted {
    /// Keys for local tokens.
    LocalKeys,
    /// Private keys.
    SecretKeys,
    /// Public keys.
    PublicKeys,
    /// Keys that read tokens: those for local tokens, and public ones.
    Readers,
    /// Keys that write tokens: those for local tokens, and private ones.
    Writers,
    /// The keys of key pairs: private and public ones.
    Pairs,
    /// Keys of any type.
    AllKeys,
}

impl Wanted {
    /// Whether keys of a type are among them.
    pub(crate) fn has(self, kind: PaserkType) -> bool
        ensures { result ≡ is_wanted self kind }
    {
        match (self, kind) {
            (Wanted::LocalKeys, PaserkType::Local)
            | (Wanted::SecretKeys, PaserkType::Secret)
            | (Wanted::PublicKeys, PaserkType::Public)
            | (Wanted::Readers, PaserkType::Local | PaserkType::Public)
            | (Wanted::Writers, PaserkType::Local | PaserkType::Secret)
            | (Wanted::Pairs, PaserkType::Secret | PaserkType::Public)
            | (Wanted::AllKeys, _) => true,
            _ => false,
        }
    }
}
