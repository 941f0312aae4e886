//! What follows from the definitions.

ghost use Rattle.std.specs.Prelude.{ℕ, List};
ghost use Rattle.paseto_pem.specs.Key.{IsText, IsWritten};
ghost use Rattle.paseto_pem.specs.declared.label.Label.{Label as TheLabel};

use crate::version::PemVersion;

/// The text that is written for a private key is read as this key, and as no other.
pub fn written_private_keys_are_read<V: PemVersion>()
    ensures { (label : TheLabel) (key text : List ℕ) → IsWritten V.is_private_written label key text
        → IsText V.is_private_of key text }
{}

/// The text that is written for a public key is read as this key, and as no other.
pub fn written_public_keys_are_read<V: PemVersion>()
    ensures { (label : TheLabel) (key text : List ℕ) → IsWritten V.is_public_written label key text
        → IsText V.is_public_of key text }
{}
