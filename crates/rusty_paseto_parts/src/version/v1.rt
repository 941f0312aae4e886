//! Version 1.

ghost use Rattle.std.specs.Prelude.{codes, true, Some, ◌==◌};
ghost use Rattle.std.proofs.Common.{refl};

use crate::version::{V1orV3, VersionTrait};
use std::fmt;

/// Version 1, NIST Compatibility: AES-256 in counter mode and HMAC-SHA384 for local tokens, whose
/// nonces have 32 bytes, and RSASSA-PSS for public tokens. It has no implicit assertions.
///
/// Source: PASETO specification, "Version 1".
#[derive(Clone, Copy, Debug, Default)]
pub struct V1;

impl VersionTrait for V1 {
    ghost text = { codes "v1" };

    ghost nonce_length = { λ n. n == 32 };

    ghost is_private_key = { λ _. true };

    ghost is_public_key = { λ _. true };

    fn as_str(&self) -> &str {
        "v1"
    }

    fn is_private_key(_bytes: &[u8]) -> bool {
        true
    }

    fn is_public_key(_bytes: &[u8]) -> bool {
        true
    }

    ghost has_nonce_of_32 = { refl };
}

impl V1orV3 for V1 {}

impl fmt::Display for V1 {
    ghost output = { λ _. Some (codes "v1") };

    fn fmt<W: fmt::Write>(&self, f: &mut fmt::Formatter<W>) -> fmt::Result {
        f.write_str(self.as_str())
    }
}
