//! What tokens are read and written with.

ghost use Rattle.std.specs.Prelude.{◌≡◌, Bool, Ok, is_some, true};
ghost use Rattle.rusty_paseto_paserk.specs.declared.header.PaserkType.{PaserkType as KeyType};
ghost use Rattle.paseto_keys.specs.AnyKey.{parts_of, takes_assertion};
ghost use Rattle.paseto_keys.specs.Tokens.{IsUse};

use crate::any_key::AnyKey;
use crate::error::KeyError;
use rusty_paseto_core::ImplicitAssertion;
use rusty_paseto_paserk::{PaserkType, PaserkVersion};

/// What tokens are read or written with: a key, or what holds one.
pub trait TokenKey {
    // The type of the key.
    ghost type_of: { Self → KeyType };

    // Whether the tokens are bound to an implicit assertion.
    ghost binds: { Self → Bool };

    /// The type of the key.
    fn key_type(&self) -> PaserkType
        ensures { result ≡ type_of self.now };

    /// Whether the tokens are bound to an implicit assertion: those of versions 3 and 4.
    fn binds(&self) -> bool
        ensures { result ≡ binds self.now };
}

impl TokenKey for AnyKey {
    ghost type_of = { λ key. (parts_of key).kind };

    ghost binds = { λ key. takes_assertion (parts_of key).version };

    fn key_type(&self) -> PaserkType {
        self.kind()
    }

    fn binds(&self) -> bool {
        takes_assertion(self.version())
    }
}

/// Whether the tokens of a version are bound to an implicit assertion.
pub(crate) fn takes_assertion(version: PaserkVersion) -> bool
    ensures { result ≡ takes_assertion version }
{
    match version {
        PaserkVersion::V3 | PaserkVersion::V4 => true,
        PaserkVersion::V1 | PaserkVersion::V2 => false,
    }
}

/// Whether a key is of a type that fits, and takes an implicit assertion if one is given: otherwise `OtherType`, or else
/// `NoAssertion`.
pub(crate) fn check_use<K: TokenKey>(
    key: &K,
    fits: bool,
    assertion: Option<ImplicitAssertion<'_>>,
) -> Result<(), KeyError>
    ensures { IsUse (λ error. error) (fits ≡ true) (K.type_of key.now) (K.binds key.now)
        (is_some assertion.entry) (λ answer. answer ≡ Ok tt) result }
{
    if !fits {
        return Err(KeyError::OtherType(key.key_type()));
    }
    if assertion.is_some() && !key.binds() {
        return Err(KeyError::NoAssertion);
    }
    Ok(())
}
