//! The seven keys that the standard reserves.

ghost use Rattle.std.specs.Prelude.{◌≡◌, ◌↔◌, ℕ, List, IsTrue, codes};
ghost use Rattle.rusty_paseto_claims.specs.Reserved.{IsReserved};

/// A reserved key, as a type: it determines which claim a claim type is.
///
/// Source: PASETO specification, "Claims".
pub trait ReservedKey {
    // The key.
    ghost key: { List ℕ };

    /// The key.
    fn text() -> &'static str
        ensures { result.now ≡ key };
}

/// The key `iss`: who issued a token.
pub enum Issuer {}

impl ReservedKey for Issuer {
    ghost key = { codes "iss" };

    fn text() -> &'static str {
        "iss"
    }
}

/// The key `sub`: whom a token is about.
pub enum Subject {}

impl ReservedKey for Subject {
    ghost key = { codes "sub" };

    fn text() -> &'static str {
        "sub"
    }
}

/// The key `aud`: whom a token is for.
pub enum Audience {}

impl ReservedKey for Audience {
    ghost key = { codes "aud" };

    fn text() -> &'static str {
        "aud"
    }
}

/// The key `exp`: when a token expires.
pub enum Expiration {}

impl ReservedKey for Expiration {
    ghost key = { codes "exp" };

    fn text() -> &'static str {
        "exp"
    }
}

/// The key `nbf`: from when on a token may be used.
pub enum NotBefore {}

impl ReservedKey for NotBefore {
    ghost key = { codes "nbf" };

    fn text() -> &'static str {
        "nbf"
    }
}

/// The key `iat`: when a token was issued.
pub enum IssuedAt {}

impl ReservedKey for IssuedAt {
    ghost key = { codes "iat" };

    fn text() -> &'static str {
        "iat"
    }
}

/// The key `jti`: a token's identifier.
pub enum TokenIdentifier {}

impl ReservedKey for TokenIdentifier {
    ghost key = { codes "jti" };

    fn text() -> &'static str {
        "jti"
    }
}

/// Whether the key is one of the seven.
pub(crate) fn is_reserved(key: &str) -> bool
    ensures { IsTrue result ↔ IsReserved key.now }
{
    matches!(key, "iss" | "sub" | "aud" | "exp" | "nbf" | "iat" | "jti")
}
