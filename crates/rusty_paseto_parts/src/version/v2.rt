//! Version 2.

ghost use Rattle.std.specs.Prelude.{codes, length, true, Some, ◌==◌, ◌||◌};
ghost use Rattle.std.proofs.Common.{refl};

use crate::version::{V2orV4, VersionTrait};
use std::fmt;

/// Version 2, Sodium Original: XChaCha20-Poly1305 for local tokens, whose nonces have 24 bytes or 32,
/// and Ed25519 for public tokens. It has no implicit assertions.
///
/// Source: PASETO specification, "Version 2".
#[derive(Clone, Copy, Debug, Default)]
pub struct V2;

impl VersionTrait for V2 {
    ghost text = { codes "v2" };

    ghost nonce_length = { λ n. n == 24 || n == 32 };

    ghost is_private_key = { λ _. true };

    ghost is_public_key = { λ key. length key == 32 };

    fn as_str(&self) -> &str {
        "v2"
    }

    fn is_private_key(_bytes: &[u8]) -> bool {
        true
    }

    fn is_public_key(bytes: &[u8]) -> bool {
        bytes.len() == 32
    }

    ghost has_nonce_of_32 = { refl };
}

impl V2orV4 for V2 {
    ghost has_any_private_key = { λ _. refl };

    ghost has_public_keys_of_32 = { λ _. refl };
}

impl fmt::Display for V2 {
    ghost output = { λ _. Some (codes "v2") };

    fn fmt<W: fmt::Write>(&self, f: &mut fmt::Formatter<W>) -> fmt::Result {
        f.write_str(self.as_str())
    }
}
