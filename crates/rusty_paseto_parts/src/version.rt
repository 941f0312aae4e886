//! The versions of PASETO, as types.

ghost use Rattle.std.specs.Prelude.{◌≡◌, ◌==◌, ℕ, List, Bool, IsTrue, length};

use std::fmt::Display;

pub mod v1;
pub mod v2;
pub mod v3;
pub mod v4;

/// A version of PASETO.
pub trait VersionTrait: Display + Default + Drop {
    // The text of the version, as a token begins with it.
    ghost text: { List ℕ };

    // Whether a nonce of the version may have so many bytes.
    ghost nonce_length: { ℕ → Bool };

    // Whether a private key of the version may have these bytes.
    ghost is_private_key: { List ℕ → Bool };

    // Whether a public key of the version may have these bytes.
    ghost is_public_key: { List ℕ → Bool };

    /// The version as it is written in a token, for example `v4`.
    fn as_str(&self) -> &str
        ensures { result.now ≡ text };

    /// Whether these bytes may be a private key of the version: 48 bytes in version 3, and any bytes in the other
    /// versions. Does not allocate.
    fn is_private_key(bytes: &[u8]) -> bool
        ensures { result ≡ Self.is_private_key bytes.now };

    /// Whether these bytes may be a public key of the version: 32 bytes in versions 2 and 4, 49 in version 3, the first
    /// of which is 2 or 3, and any bytes in version 1. Does not allocate.
    fn is_public_key(bytes: &[u8]) -> bool
        ensures { result ≡ Self.is_public_key bytes.now };

    // Each version has nonces of 32 bytes.
    ghost has_nonce_of_32: { IsTrue (nonce_length 32) };
}

/// A version with implicit assertions: 3 and 4.
pub trait ImplicitAssertionCapable: VersionTrait {}

/// A version of the NIST family: 1 and 3.
pub trait V1orV3: VersionTrait {}

/// A version of the Sodium family: 2 and 4.
pub trait V2orV4: VersionTrait {
    // Any bytes may be taken as a private key.
    ghost has_any_private_key: { (key : List ℕ) → IsTrue (Self.is_private_key key) };

    // The public keys are those of 32 bytes.
    ghost has_public_keys_of_32: { (key : List ℕ) → Self.is_public_key key ≡ (length key == 32) };
}
