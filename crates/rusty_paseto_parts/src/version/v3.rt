//! Version 3.

ghost use Rattle.std.specs.Prelude.{codes, length, Some, ◌==◌, ◌&&◌};
ghost use Rattle.std.proofs.Common.{refl};
ghost use Rattle.rusty_paseto_parts.specs.PublicKey.{is_compressed};

use crate::version::{ImplicitAssertionCapable, V1orV3, VersionTrait};
use std::fmt;

/// Version 3, NIST Modern: AES-256 in counter mode and HMAC-SHA384 for local tokens, whose nonces have
/// 32 bytes, and ECDSA on the curve P-384 for public tokens.
///
/// Source: PASETO specification, "Version 3".
#[derive(Clone, Copy, Debug, Default)]
pub struct V3;

impl VersionTrait for V3 {
    ghost text = { codes "v3" };

    ghost nonce_length = { λ n. n == 32 };

    ghost is_private_key = { λ key. length key == 48 };

    ghost is_public_key = { λ key. length key == 49 && is_compressed key };

    fn as_str(&self) -> &str {
        "v3"
    }

    fn is_private_key(bytes: &[u8]) -> bool {
        bytes.len() == 48
    }

    fn is_public_key(bytes: &[u8]) -> bool {
        bytes.len() == 49 && (bytes[0] == 2 || bytes[0] == 3)
    }

    ghost has_nonce_of_32 = { refl };
}

impl ImplicitAssertionCapable for V3 {}

impl V1orV3 for V3 {}

impl fmt::Display for V3 {
    ghost output = { λ _. Some (codes "v3") };

    fn fmt<W: fmt::Write>(&self, f: &mut fmt::Formatter<W>) -> fmt::Result {
        f.write_str(self.as_str())
    }
}
