//! The header of a wrapped key: its version and its type.

ghost use Rattle.std.specs.Prelude.{◌≡◌, ◌≢◌, ◌++◌, ℕ, List, IfSome, IsNone, MatchOption};
ghost use Rattle.rusty_paseto_paserk.specs.Header.{mark};
ghost use Rattle.paseto_wrapping.specs.Header.{HasNoHeader, header, word};

use rusty_paseto_paserk::PaserkVersion;

/// The type of a wrapped key.
#[derive(Clone, Copy, Debug, PartialEq, Eq)]
pub enum WrappedType {
    /// A key for local tokens, under a wrapping key.
    LocalWrap,
    /// A private key, under a wrapping key.
    SecretWrap,
    /// A key for local tokens, under a password.
    LocalPassword,
    /// A private key, under a password.
    SecretPassword,
    /// A key for local tokens, sealed to a public key.
    Seal,
}

impl WrappedType {
    /// What follows the version in the text, for example `local-wrap.pie.`.
    pub fn word(self) -> &'static str
        ensures { result.now ≡ word self }
    {
        match self {
            WrappedType::LocalWrap => "local-wrap.pie.",
            WrappedType::SecretWrap => "secret-wrap.pie.",
            WrappedType::LocalPassword => "local-pw.",
            WrappedType::SecretPassword => "secret-pw.",
            WrappedType::Seal => "seal.",
        }
    }

    // The type whose word the text begins with, and what stands after it.
    fn strip(text: &str) -> Option<(WrappedType, &str)>
        ensures found { IfSome result (λ found. text.now ≡ word found.0 ++ found.1.now) }
        ensures none { IsNone result → (kind : WrappedType) (rest : List ℕ) → text.now ≢ word kind
            ++ rest }
    {
        if let Some(rest) = after(text, "local-wrap.pie.") {
            Some((WrappedType::LocalWrap, rest))
        } else if let Some(rest) = after(text, "secret-wrap.pie.") {
            Some((WrappedType::SecretWrap, rest))
        } else if let Some(rest) = after(text, "local-pw.") {
            Some((WrappedType::LocalPassword, rest))
        } else if let Some(rest) = after(text, "secret-pw.") {
            Some((WrappedType::SecretPassword, rest))
        } else if let Some(rest) = after(text, "seal.") {
            Some((WrappedType::Seal, rest))
        } else {
            None
        }
    }
}

/// The version and the type in the header of a text, and the rest of the text, which is not checked. `None` if the text
/// does not begin like a wrapped key. Does not allocate.
///
/// Source: PASERK specification, "PASERK Message Format".
pub fn wrapped_header_of(text: &str) -> Option<(PaserkVersion, WrappedType, &str)>
    ensures found { IfSome result (λ found. text.now ≡ header found.0 found.1 ++ found.2.now) }
    ensures none { IsNone result → HasNoHeader text.now }
{
    let (version, rest) = version_of(text)?;
    let (kind, payload) = WrappedType::strip(rest)?;
    Some((version, kind, payload))
}

// The version whose mark the text begins with, and what stands after it.
fn version_of(text: &str) -> Option<(PaserkVersion, &str)>
    ensures found { IfSome result (λ found. text.now ≡ mark found.0 ++ found.1.now) }
    ensures none { IsNone result → (version : PaserkVersion) (rest : List ℕ) → text.now
        ≢ mark version ++ rest }
{
    if let Some(rest) = after(text, "k1.") {
        Some((PaserkVersion::V1, rest))
    } else if let Some(rest) = after(text, "k2.") {
        Some((PaserkVersion::V2, rest))
    } else if let Some(rest) = after(text, "k3.") {
        Some((PaserkVersion::V3, rest))
    } else if let Some(rest) = after(text, "k4.") {
        Some((PaserkVersion::V4, rest))
    } else {
        None
    }
}

// What stands after a front, where the text begins with it.
fn after<'a>(text: &'a str, front: &str) -> Option<&'a str>
    ensures { MatchOption result ((rest : List ℕ) → text.now ≢ front.now ++ rest)
        (λ rest. text.now ≡ front.now ++ rest.now) }
{
    text.strip_prefix(front)
}
