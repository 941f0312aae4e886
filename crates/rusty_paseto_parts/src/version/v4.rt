//! Version 4.

ghost use Rattle.std.specs.Prelude.{codes, length, true, Some, ◌==◌};
ghost use Rattle.std.proofs.Common.{refl};

use crate::version::{ImplicitAssertionCapable, V2orV4, VersionTrait};
use std::fmt;

/// Version 4, Sodium Modern: BLAKE2b and XChaCha20 for local tokens, whose nonces have 32 bytes, and
/// Ed25519 for public tokens.
///
/// Source: PASETO specification, "Version 4".
#[derive(Clone, Copy, Debug, Default)]
pub struct V4;

impl VersionTrait for V4 {
    ghost text = { codes "v4" };

    ghost nonce_length = { λ n. n == 32 };

    ghost is_private_key = { λ _. true };

    ghost is_public_key = { λ key. length key == 32 };

    fn as_str(&self) -> &str {
        "v4"
    }

    fn is_private_key(_bytes: &[u8]) -> bool {
        true
    }

    fn is_public_key(bytes: &[u8]) -> bool {
        bytes.len() == 32
    }

    ghost has_nonce_of_32 = { refl };
}

impl ImplicitAssertionCapable for V4 {}

impl V2orV4 for V4 {
    ghost has_any_private_key = { λ _. refl };

    ghost has_public_keys_of_32 = { λ _. refl };
}

impl fmt::Display for V4 {
    ghost output = { λ _. Some (codes "v4") };

    fn fmt<W: fmt::Write>(&self, f: &mut fmt::Formatter<W>) -> fmt::Result {
        f.write_str(self.as_str())
    }
}
