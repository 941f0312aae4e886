//! Toys in the place of signature schemes. Those of versions 2 and 4 are the same, by two names.

ghost use Rattle.std.specs.Prelude.{◌≡◌, ◌≢◌, [], IfErr, OnOk};
ghost use Rattle.rusty_paseto_parts.specs.declared.error.PasetoError.TheVariants.{KeyRejected};

mod v1;
mod v2;
mod v3;

use rusty_paseto_core::PasetoError;
pub use v1::ToyV1;
pub use v2::{ToyV2, ToyV2 as ToyV4};
pub use v3::ToyV3;

// Refuses the empty private key.
fn check_private(private: &[u8]) -> Result<(), PasetoError>
    ensures ok { OnOk result (private.now ≢ []) }
    ensures err { IfErr result (λ error. (private.now ≡ []) × (error ≡ KeyRejected)) }
{
    if private.is_empty() {
        return Err(PasetoError::KeyRejected);
    }
    Ok(())
}
