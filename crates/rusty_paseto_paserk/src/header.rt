//! The header of a key's text: its version and its type.

ghost use Rattle.std.specs.Prelude.{◌≡◌, ◌≢◌, ◌++◌, ℕ, List, IfSome, IsNone, MatchOption};
ghost use Rattle.rusty_paseto_paserk.specs.Header.{HasNoHeader, header, mark, word, id_word};

/// A version of PASERK. Its keys are for the version of PASETO with the same number.
#[derive(Clone, Copy, Debug, PartialEq, Eq)]
pub enum PaserkVersion {
    V1,
    V2,
    V3,
    V4,
}

impl PaserkVersion {
    /// The beginning of the texts of the version's keys, for example `k4.`.
    pub fn mark(self) -> &'static str
        ensures { result.now ≡ mark self }
    {
        match self {
            PaserkVersion::V1 => "k1.",
            PaserkVersion::V2 => "k2.",
            PaserkVersion::V3 => "k3.",
            PaserkVersion::V4 => "k4.",
        }
    }

    // The version whose mark the text begins with, and what stands after it.
    fn strip(text: &str) -> Option<(PaserkVersion, &str)>
        ensures found { IfSome result (λ found. text.now ≡ mark found.0 ++ found.1.now) }
        ensures none { IsNone result → (version : PaserkVersion) (rest : List ℕ) → text.now
            ≢ mark version ++ rest }
    {
        if let Some(rest) = after(text, "k1.") {
            Some((PaserkVersion::V1, rest))
        } else if let Some(rest) = after(text, "k2.") {
            Some((PaserkVersion::V2, rest))
        } else if let Some(rest) = after(text, "k3.") {
            Some((PaserkVersion::V3, rest))
        } else if let Some(rest) = after(text, "k4.") {
            Some((PaserkVersion::V4, rest))
        } else {
            None
        }
    }
}

/// The type of a key.
#[derive(Clone, Copy, Debug, PartialEq, Eq)]
pub enum PaserkType {
    /// The key for local tokens.
    Local,
    /// The private key of a key pair, which signs.
    Secret,
    /// The public key of a key pair, which verifies.
    Public,
}

impl PaserkType {
    /// What follows the version in the text of a key, for example `local.`.
    pub fn word(self) -> &'static str
        ensures { result.now ≡ word self }
    {
        match self {
            PaserkType::Local => "local.",
            PaserkType::Secret => "secret.",
            PaserkType::Public => "public.",
        }
    }

    /// What follows the version in the id of a key, for example `lid.`.
    pub fn id_word(self) -> &'static str
        ensures { result.now ≡ id_word self }
    {
        match self {
            PaserkType::Local => "lid.",
            PaserkType::Secret => "sid.",
            PaserkType::Public => "pid.",
        }
    }

    // The type whose word the text begins with, and what stands after it.
    fn strip(text: &str) -> Option<(PaserkType, &str)>
        ensures found { IfSome result (λ found. text.now ≡ word found.0 ++ found.1.now) }
        ensures none { IsNone result → (kind : PaserkType) (rest : List ℕ) → text.now ≢ word kind
            ++ rest }
    {
        if let Some(rest) = after(text, "local.") {
            Some((PaserkType::Local, rest))
        } else if let Some(rest) = after(text, "secret.") {
            Some((PaserkType::Secret, rest))
        } else if let Some(rest) = after(text, "public.") {
            Some((PaserkType::Public, rest))
        } else {
            None
        }
    }
}

/// The version and the type in the header of a text, and the rest of the text, which is not checked. `None` if the text
/// does not begin like a key. Does not allocate.
///
/// Source: PASERK specification, "PASERK Message Format".
pub fn header_of(text: &str) -> Option<(PaserkVersion, PaserkType, &str)>
    ensures found { IfSome result (λ found. text.now ≡ header found.0 found.1 ++ found.2.now) }
    ensures none { IsNone result → HasNoHeader text.now }
{
    let (version, rest) = PaserkVersion::strip(text)?;
    let (kind, payload) = PaserkType::strip(rest)?;
    Some((version, kind, payload))
}

// What stands after a front, where the text begins with it.
fn after<'a>(text: &'a str, front: &str) -> Option<&'a str>
    ensures { MatchOption result ((rest : List ℕ) → text.now ≢ front.now ++ rest)
        (λ rest. text.now ≡ front.now ++ rest.now) }
{
    text.strip_prefix(front)
}
