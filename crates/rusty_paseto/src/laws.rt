//! Laws of the default builder. Each is the contract of a function that does nothing, over the definitions
//! that the contracts of `PasetoBuilder` name.

ghost use Rattle.rusty_paseto.specs.Laws.{ExpirationStaysOut};

/// A builder whose tokens never expire stays so, whatever claims are set: unless a key was set again, there is no
/// expiration among the claims.
pub fn expiration_stays_out()
    ensures { ExpirationStaysOut }
{}
