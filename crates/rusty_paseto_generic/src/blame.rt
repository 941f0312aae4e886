//! Which side caused an error.

ghost use Rattle.std.specs.Prelude.{◌≡◌};
ghost use Rattle.rusty_paseto_generic.specs.Blame.{cipher_blame, claim_blame};

use rusty_paseto_claims::PasetoClaimError;
use rusty_paseto_core::PasetoError;

/// Which side caused an error, in as much detail as a service needs to answer: `blame` of an error returns it.
///
/// ```rust
/// use rusty_paseto::prelude::*;
///
/// /// The status that a service would answer over HTTP for a refused token.
/// pub fn status(refusal: &GenericParserError) -> u16 {
///     match refusal.blame() {
///         Blame::Foreign | Blame::Untimely => 401,
///         Blame::Unfit => 403,
///         Blame::Memory => 503,
///     }
/// }
/// ```
#[derive(Clone, Copy, Debug, PartialEq, Eq)]
pub enum Blame {
    /// The token is not one of ours, or was modified, or its key is gone.
    Foreign,
    /// The token is ours, but not valid at this time: it has expired, or may not be used yet.
    Untimely,
    /// The token is ours, but not what is expected: a claim is missing or has another value, or was refused when it was
    /// set.
    Unfit,
    /// An allocation failed. The same call may be tried again.
    Memory,
}

/// `Untimely` for `Expired` and `UseBeforeAvailable`, `Memory` if an allocation failed, and else `Unfit`.
impl From<&PasetoClaimError> for Blame {
    ghost from_gives = { λ source blame. blame ≡ claim_blame source.now };

    fn from(source: &PasetoClaimError) -> Blame {
        match source {
            PasetoClaimError::Expired | PasetoClaimError::UseBeforeAvailable(_) => Blame::Untimely,
            PasetoClaimError::Memory(_) => Blame::Memory,
            _ => Blame::Unfit,
        }
    }
}

/// `Memory` if an allocation failed, and else `Foreign`: the token was not opened or verified.
impl From<&PasetoError> for Blame {
    ghost from_gives = { λ source blame. blame ≡ cipher_blame source.now };

    fn from(source: &PasetoError) -> Blame {
        match source {
            PasetoError::Memory(_) => Blame::Memory,
            _ => Blame::Foreign,
        }
    }
}
